//! A source in memory.

ghost use Rattle.std.specs.Prelude.{◌≡◌, ◌↔◌, ◌+◌, ◌^◌, ◌<◌, ◌≤◌, IsTrue, [], Some, drop, length, min, take};
ghost use Rattle.z_types.specs.Counts.{Rose, one_more};
ghost use Rattle.gw_outside.specs.Sources.{GotFits, given_after};
ghost use Rattle.planned_calls.specs.Planned.{new_calls, fails_next, after_call};
ghost use Rattle.gw_memory.specs.Planned.{FillsWhole};

use gw_outside::{Got, Source};
use planned_calls::Calls;
use z_types::{List, Text};

/// A source of stated octets.
#[derive(Drop)]
pub struct MemorySource {
    bytes: Text,
    given: usize,
    calls: Calls,
    faults: u64,
    ghost within: { given ≤ length bytes },
}

impl MemorySource {
    /// A source of these octets, which fills each buffer as far as they go; the reads of these numbers,
    /// counted from 1, fail.
    pub fn new(bytes: Text, failing: List<u64>) -> MemorySource
        ensures left { ⟦<MemorySource as Source>⟧.left result ≡ Some bytes }
        ensures given { ⟦<MemorySource as Source>⟧.given result ≡ Some [] }
        ensures faults { ⟦<MemorySource as Source>⟧.faults result ≡ 0 }
        ensures calls { result.calls ≡ new_calls failing }
    {
        MemorySource {
            bytes,
            given: 0,
            calls: Calls::new(failing),
            faults: 0,
        }
    }

    /// The octets that are left.
    fn left(&self) -> &[u8]
        ensures left { result.now ≡ drop self.now.given self.now.bytes }
        ensures fits { self.now.given + length result.now < 2 ^ 64 }
    {
        &self.bytes.as_slice()[self.given..]
    }
}

impl Source for MemorySource {
    ghost faults = { λ source. source.faults };

    ghost left = { λ source. Some (drop source.given source.bytes) };

    ghost given = { λ source. Some (take source.given source.bytes) };

    fn read(&mut self, into: &mut [u8]) -> Got
        requires { 0 < length into.old }
        ensures fits { GotFits (Some (drop self.old.given self.old.bytes))
            (Some (drop self.new.given self.new.bytes)) into.old into.new result }
        ensures failed { result ≡ Got.Failed → Rose self.old.faults self.new.faults }
        ensures faults { self.old.faults ≤ self.new.faults }
        ensures given { Some (take self.new.given self.new.bytes)
            ≡ given_after into.new result (Some (take self.old.given self.old.bytes)) }
        ensures whole { FillsWhole
            (drop self.old.given self.old.bytes) (length into.old) result }
        ensures planned { (result ≡ Got.Failed) ↔ IsTrue (fails_next self.old.calls) }
        ensures counts { self.new.faults
            ≡ one_more (fails_next self.old.calls) self.old.faults }
        ensures counted { self.new.calls ≡ after_call self.old.calls }
    {
        if self.calls.next_fails() {
            self.faults = self.faults.saturating_add(1);
            return Got::Failed;
        }
        let left = self.left();
        if left.len() == 0 {
            return Got::End;
        }
        let count = fill(into, left);
        self.given += count;
        Got::Bytes(count)
    }
}

/// Puts octets at the front of a buffer, as many as fit, and tells how many.
fn fill(into: &mut [u8], octets: &[u8]) -> usize
    ensures count { result ≡ min (length octets.now) (length into.old) }
    ensures front { take result into.new ≡ take result octets.now }
    ensures behind { drop result into.new ≡ drop result into.old }
{
    let count = octets.len().min(into.len());
    into[..count].copy_from_slice(&octets[..count]);
    count
}
