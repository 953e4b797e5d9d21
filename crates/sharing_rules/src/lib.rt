//! What sharing needs (this project's own): which keys and classes a work uses, how many searches and
//! dials uses need, and what a pool keeps of them.
#![tactic(auto)]

mod laws;

pub use laws::{new_pool_is_kept, other_uses_keep, takes_as_needed, time_keeps, twice_is_once};
