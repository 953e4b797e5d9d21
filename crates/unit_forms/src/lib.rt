//! The units of Z39.50 as definitions (ANSI/NISO Z39.50-2003, the definition of APDUs): the one form
//! in which each is written, and what each is read as or refused for; with the numbers of their
//! tags. Reading and writing them is left to the crates above.
#![tactic(auto)]

mod operator;
mod refusal;
pub mod tags;

pub use operator::Operator;
pub use refusal::{Refusal, first_refusal};
