//! The top call of the event front: the command, its configuration, one pool without a lock, and one thread.
#![tactic(auto)]

mod calls;
mod lines;
mod pools;
mod words;

pub use crate::calls::top_events;
pub use crate::words::{EventsAsked, events_of};

// Handed on: crates above name these through this one.
pub use event_loop;
