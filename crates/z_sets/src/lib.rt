//! A client's result sets (ANSI/NISO Z39.50-2003, 3.2.2), and queries in which such sets are operands:
//! each is replaced by the query that it stands for.
#![tactic(auto)]

mod expansion;
mod fault;
mod measures;
mod sets;

pub use expansion::expand;
pub use fault::ExpandFault;
pub use sets::{find_set, remove_set, store_set};
