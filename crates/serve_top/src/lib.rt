//! The top call of serving: the command, its configuration, one pool behind a lock, and a thread for each
//! worker.
#![tactic(auto)]

mod calls;
mod lines;
mod words;

pub use crate::calls::top_serve;
pub use crate::words::{ServeWords, asked_of};

// Handed on: crates above name these through this one.
pub use serve_cached::serve_threads::serve;
