//! What of a pool may go to another thread, or be shared with one. Each of these functions does
//! nothing: the types of the calls in it are the law.
#![tactic(auto)]

mod crossing;

pub use crossing::{indexes_cross, locks_cross, pools_cross, sessions_cross};
