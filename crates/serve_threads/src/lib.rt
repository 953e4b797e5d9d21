//! Workers that serve over one locked pool, each in a thread of its own, and what all of them did.
#![tactic(auto)]

mod ends;
mod jobs;
mod moving;
mod serving;
mod threads;

pub use serving::serve_all;

// Handed on: crates above name these through this one.
pub use serve;
