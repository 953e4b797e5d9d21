//! A connection as a task, for many on one thread: each poll lets it go on as far as it can without
//! waiting for its client or for a target.
#![tactic(auto)]

mod awaits;
mod came;
mod rounds;
mod tasks;

pub use awaits::Awaits;
pub use tasks::{ConnTask, Polled};

// Handed on: crates above name these through this one.
pub use conn_served;
