//! Replays over the links of a wire (this project's own): one backend over it and a new pool for all
//! clients of a script.
#![tactic(auto)]

mod lent;
mod runs;

pub use runs::run;
