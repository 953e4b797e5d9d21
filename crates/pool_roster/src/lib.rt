//! The sessions of a pool as it left them: the one that holds a set is found by the digest of its key,
//! and what expires is told, without a look at each.
#![tactic(auto)]

mod berth;
mod berths;
mod listing;
mod roster;
mod seek;

pub use berth::{Berth, Expiries};
pub use roster::Roster;
