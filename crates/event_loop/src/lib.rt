//! Many connections on one thread: each open one at its place, polled in turn, and handed back once it has
//! come to its end.
#![tactic(auto)]

mod fronted;
mod fronts;
mod places;
mod rounds;
mod tasks;

pub use fronted::Fronted;
pub use fronts::{EventFront, run_front};

// Handed on: crates above name these through this one.
pub use event_front;
