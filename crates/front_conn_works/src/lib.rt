//! Which works a connection of units begins: those of the requests of its course, in their order, no
//! other and none twice.
#![tactic(auto)]

mod laws;
#[cfg(test)]
mod tests;

pub use laws::{
    begins_none, begun_is_one, ended_is_whole, goes_begin, lacking_begins_none, last_is_in_work,
    marks_decide, rests_then_begins, runs_begin, stays_begun, steps_begin,
};
