//! What is made to happen to the links of a backend, where it has links.

use crate::far::FarWire;
use gw_memory::FakeBackend;
use gw_outside::Events;
use test_wire::TestWire;
use z_client::ZBackend;
use z_types::Memory;

/// What happens to the links of the test target 0.
#[derive(Clone, Copy, Drop)]
pub(crate) enum Event {
    /// This number of Presents finds all sets gone.
    Gone(u32),
    /// Replies arrive after this number of looks.
    Slow(u32),
    /// All links are cut.
    Cut,
}

/// A backend to whose links something may be made to happen.
pub(crate) trait Happens {
    /// An event happens; there is none where the backend has no links of which it can be said.
    fn happen(&mut self, event: Event) -> Result<(), Memory>;
}

impl Happens for ZBackend<TestWire> {
    fn happen(&mut self, event: Event) -> Result<(), Memory> {
        match event {
            Event::Gone(presents) => self.gone(0, presents),
            Event::Slow(looks) => self.slow(0, looks),
            Event::Cut => self.cut(0),
        }
    }
}

impl<T> Happens for FakeBackend<T> {
    fn happen(&mut self, _: Event) -> Result<(), Memory> {
        Err(Memory)
    }
}

impl Happens for ZBackend<FarWire> {
    fn happen(&mut self, _: Event) -> Result<(), Memory> {
        Err(Memory)
    }
}
