//! A CQL query as one of type 1 (CQL 1.2; ANSI/NISO Z39.50-2003, RPNQuery), by the indexes of a
//! route. Which targets are asked, and what they find, is left to the crates above.
#![tactic(auto)]

mod bib1;
mod checks;
mod fault;
mod head;
mod index;
mod laws;
mod leaf;
mod map;
mod operator;
mod relation;
mod term;
mod words;

pub use checks::check;
pub use fault::MapFault;
pub use laws::{long_is_too_deep, mapped_or_faulty};
pub use map::to_rpn;
