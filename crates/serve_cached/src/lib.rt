//! Workers that serve over one pool and one store of records, both behind locks: each has its sessions with
//! targets beneath ones whose Presents the store answers too.
#![tactic(auto)]

mod moving;
mod serving;

pub use serving::serve_all_cached;

// Handed on: crates above name these through this one.
pub use serve_threads;
