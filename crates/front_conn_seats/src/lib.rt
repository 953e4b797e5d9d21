//! Which seats of a pool a connection holds, and that each is given back: what is out of a told pool
//! behind it was out before it, or is out for others.
#![tactic(auto)]

mod laws;
#[cfg(test)]
mod tests;

pub use laws::{
    begun_holds_none, calls_are_ways, connections_give_back, goes_parted, legs_give_back,
    packages_give_back, packages_keep_seats, runs_alone_give_back, runs_give_back,
    steps_keep_seats, steps_leave_others, turns_keep_seats, ways_go_on,
};
