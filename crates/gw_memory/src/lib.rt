//! The outside in memory, for tests and trials: files, sinks, sources, clocks, connections and sessions
//! with targets, of stated contents, which they tell, and with the calls that are to fail.
#![tactic(auto)]

mod accepts;
mod clocks;
mod files;
mod sessions;
mod sinks;
mod sources;

pub use accepts::MemoryAccept;
pub use clocks::MemoryClock;
pub use files::MemoryFiles;
pub use sessions::{FakeBackend, FakeSession, Waiting};
pub use sinks::MemorySink;
pub use sources::MemorySource;
