//! The records of several legs as one result set: the first record of each leg, then the second of
//! each. No list of them is made.
#![tactic(auto)]

mod places;
mod ranks;
mod totals;

pub use places::locate;
pub use totals::total;
