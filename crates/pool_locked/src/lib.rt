//! A pool behind a lock, for the threads that serve: a door whose counts are shares of ledgers,
//! so that what the threads counted adds up to what the pool counted.
#![tactic(auto)]

mod answers;
mod counted;
mod locked;
mod shares;

pub use counted::Counted;
pub use locked::LockedDoor;
