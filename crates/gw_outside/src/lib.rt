//! The traits of the outside: what a source, a sink, files, a clock, targets, links and sessions with
//! targets are asked and what their answers mean. Each that can fail counts its faults, and a call fails
//! only where that count rose; clocks and targets cannot.
#![tactic(auto)]

mod accepts;
mod backends;
mod came;
mod clocks;
mod events;
mod files;
mod happenings;
mod links;
mod quiet;
mod sinks;
mod sources;
mod targets;
mod watched;
mod wires;

pub use accepts::{Accept, Accepted};
pub use backends::{Backend, Began, Heard, Opening};
pub use came::{Came, Whose};
pub use clocks::Clock;
pub use events::Events;
pub use files::{FileGot, Files};
pub use happenings::Happening;
pub use links::Linked;
pub use quiet::{quiet_does_nothing, quiet_stays};
pub use sinks::{Sink, Took, write_all};
pub use sources::{Got, Source};
pub use targets::{TargetAnswer, Targets};
pub use watched::Watched;
pub use wires::{Dialled, Looked, Sent, Wire};
