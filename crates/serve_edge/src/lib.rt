//! Serving over the system: a listener, workers with sockets to targets, the system's files, clock and
//! output, and the log.
#![tactic(auto)]

mod crossing;
mod events;
mod listening;
mod passwords;
mod serving;
mod targets;
#[cfg(test)]
mod tests;
mod workers;

pub use crate::crossing::sessions_cross;
pub use crate::events::serve_events;
pub use crate::serving::serve;
