//! What is outside of legs in flight: targets whose replies arrive after some looks, and a clock that tells
//! how often legs were turned.

use gw_outside::{Clock, Events};
use std::alloc::Global;
use test_target::TestWorld;
use test_wire::{TestLink, TestWire};
use z_client::{ZBackend, ZSession};
use z_types::Memory;

/// A session with a test target over a link.
pub(crate) type Session = ZSession<TestWorld, TestLink>;

/// A clock that stands, and counts how often it is read.
#[derive(Drop)]
pub(crate) struct CountingClock {
    /// How often.
    pub(crate) reads: u32,
}

impl Clock for CountingClock {
    fn now(&mut self) -> u64 {
        self.reads = self.reads.saturating_add(1);
        0
    }
}

/// Links with test targets, where the replies of a target arrive after so many looks.
pub(crate) fn slow_targets(
    alloc: Global,
    delays: &[(u32, u32)],
) -> Result<ZBackend<TestWire>, Memory> {
    let mut backend = ZBackend::new(alloc, TestWire::new(alloc));
    for (target, looks) in delays {
        backend.slow(*target, *looks)?;
    }
    Ok(backend)
}
