//! The adapters of the event front over the system: sockets that do not wait, a listener, the wait for
//! all of them, and links with targets whose looks return at once. This is the trusted edge: no contract tells
//! what the system does.
#![tactic(auto)]

mod accepts;
mod pollers;
mod readiness;
mod sinks;
mod sources;
#[cfg(test)]
mod tests;
mod tokens;
mod wires;

pub use accepts::{Listening, SocketEdgeAccept, listen};
pub use pollers::SocketPoller;
pub use readiness::Readiness;
pub use sinks::SocketEdgeSink;
pub use sources::SocketEdgeSource;
pub use wires::EventWire;
