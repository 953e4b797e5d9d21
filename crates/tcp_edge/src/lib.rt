//! The trusted edge: the system's files, output, clock, sockets and listener as the traits of the
//! outside. Each counts what fails, and none tells octets; the links with test targets tell their peers.
#![tactic(auto)]

mod accepts;
mod clocks;
mod crossing;
mod dated;
mod descriptors;
mod files;
mod hosts;
mod limits;
mod links;
mod prompt;
mod repeats;
mod sinks;
mod sources;
mod standard;
mod tally;
#[cfg(test)]
mod tests;
mod told;
mod totals;
mod waits;
mod wires;

pub use accepts::{SocketAccept, accept_passes};
pub use clocks::{SystemClock, milliseconds};
pub use crossing::{adapters_cross, connections_cross, links_cross};
pub use dated::DatedConsole;
pub use files::SystemFiles;
pub use hosts::Hosts;
pub use limits::descriptor_limit;
pub use links::{EdgeLink, TcpLink};
pub use prompt::{PromptLink, Watch};
pub use sinks::WriterSink;
pub use sources::SocketSource;
pub use standard::fill_standard_streams;
pub use tally::Tally;
pub use told::Told;
pub use totals::Totals;
pub use wires::EdgeWire;

// Handed on: crates above name these through this one.
pub use test_wire;
