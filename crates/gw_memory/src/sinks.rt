//! A sink in memory.

ghost use Rattle.std.specs.Prelude.{◌≡◌, ◌≤◌, ◌<◌, [], Some, length, min};
ghost use Rattle.z_types.specs.Counts.{Rose, one_more};
ghost use Rattle.gw_outside.specs.Sinks.{TookFits};
ghost use Rattle.planned_calls.specs.Planned.{new_calls, fails_next, after_call};
ghost use Rattle.gw_memory.specs.Planned.{is_failed_write, IsPlannedWrite};

use gw_outside::{Sink, Took};
use planned_calls::Calls;
use std::alloc::Global;
use z_types::{List, Text};

/// A sink that keeps what it received.
#[derive(Drop)]
pub struct MemorySink {
    received: Text,
    most: usize,
    calls: Calls,
    faults: u64,
    ghost takes_some: { 1 ≤ most },
}

impl MemorySink {
    /// A sink that received nothing yet. It takes each piece whole; the writes of these numbers, counted
    /// from 1, fail, and so does one for which there is no memory.
    pub fn new(alloc: Global, failing: List<u64>) -> MemorySink
        ensures received { ⟦<MemorySink as Sink>⟧.received result ≡ Some [] }
        ensures faults { ⟦<MemorySink as Sink>⟧.faults result ≡ 0 }
        ensures most { result.most ≡ usize.MAX }
        ensures calls { result.calls ≡ new_calls failing }
    {
        MemorySink::taking(alloc, usize::MAX, failing)
    }

    /// The same, of a sink that takes at most `most` octets at a write.
    pub fn taking(alloc: Global, most: usize, failing: List<u64>) -> MemorySink
        requires { 1 ≤ most }
        ensures received { ⟦<MemorySink as Sink>⟧.received result ≡ Some [] }
        ensures faults { ⟦<MemorySink as Sink>⟧.faults result ≡ 0 }
        ensures most { result.most ≡ most }
        ensures calls { result.calls ≡ new_calls failing }
    {
        MemorySink {
            received: Text::new(alloc),
            most,
            calls: Calls::new(failing),
            faults: 0,
        }
    }

    /// What was received.
    pub fn received(&self) -> &[u8]
        ensures { ⟦<MemorySink as Sink>⟧.received self.now ≡ Some result.now }
    {
        self.received.as_slice()
    }
}

impl Sink for MemorySink {
    ghost faults = { λ sink. sink.faults };

    ghost received = { λ sink. Some sink.received };

    fn write(&mut self, piece: &[u8]) -> Took
        requires { 0 < length piece.now }
        ensures fits { TookFits (Some self.old.received) (Some self.new.received) piece.now result }
        ensures failed { result ≡ Took.Failed → Rose self.old.faults self.new.faults }
        ensures faults { self.old.faults ≤ self.new.faults }
        ensures planned { IsPlannedWrite (fails_next self.old.calls)
            (min (length piece.now) self.old.most) result }
        ensures counts { self.new.faults ≡ one_more (is_failed_write result) self.old.faults }
        ensures counted { self.new.calls ≡ after_call self.old.calls }
        ensures most { self.new.most ≡ self.old.most }
    {
        let count = piece.len().min(self.most);
        if !self.calls.next_fails() {
            if let Ok(()) = self.received.append(&piece[..count]) {
                return Took::Bytes(count);
            }
        }
        self.faults = self.faults.saturating_add(1);
        Took::Failed
    }
}
