//! A source that hears of what the sink took: each reply is written whole before the next read.

ghost use Rattle.std.specs.Prelude.{◌≡◌, drop, length, min};

use crate::cases::{MOST_UNITS, WHOLE, ends_so, route_of, text_of};
use gw_memory::{FakeBackend, FakeSession, MemoryClock};
use gw_outside::{Backend, Got, Sink, Source, Took};
use pool_core::Pool;
use pool_sets::Door;
use route_config::Route;
use std::alloc::Global;
use std::sync::Wait;
use std::sync::atomic::{AtomicU64, Ordering};
use std::test::Fail;
use test_target::TestWorld;
use z_types::{List, Memory, World};

/// Where reads end in what is sent, and how many octets are to be written by the next one.
type Reads<'a> = &'a [(usize, u64)];

/// Gives what is sent up to a place at each read, once all that is due by then was written, and no more. Else
/// a read fails.
#[derive(Drop)]
struct OrderedSource<'a> {
    sent: &'a [u8],
    reads: Reads<'a>,
    made: usize,
    given: usize,
    due: u64,
    written: &'a AtomicU64,
    faults: u64,
}

/// Puts octets at the front of a buffer, as many as fit, and tells how many.
fn fill(into: &mut [u8], octets: &[u8]) -> usize
    ensures count { result ≡ min (length octets.now) (length into.old) }
    ensures behind { drop result into.new ≡ drop result into.old }
{
    let count = octets.len().min(into.len());
    into[..count].copy_from_slice(&octets[..count]);
    count
}

impl Source for OrderedSource<'_> {
    ghost use Rattle.std.specs.Prelude.{None};

    ghost faults = { λ source. source.faults };

    ghost left = { λ source. None };

    ghost given = { λ source. None };

    fn read(&mut self, into: &mut [u8]) -> Got {
        if self.written.load(Ordering::SeqCst) != self.due {
            self.faults = self.faults.saturating_add(1);
            return Got::Failed;
        }
        let Some((end, due)) = self.reads.get(self.made).copied() else {
            return Got::End;
        };
        let octets = self.sent.get(self.given..end).unwrap_or(&[]);
        if octets.len() == 0 {
            return Got::End;
        }
        let count = fill(into, octets);
        self.made = self.made.saturating_add(1);
        self.given = end;
        self.due = due;
        Got::Bytes(count)
    }
}

/// A sink that takes seven octets at a write, and tells how many it took.
#[derive(Drop)]
struct CountedSink<'a> {
    written: &'a AtomicU64,
    faults: u64,
}

impl Sink for CountedSink<'_> {
    ghost use Rattle.std.specs.Prelude.{None};

    ghost faults = { λ to. to.faults };

    ghost received = { λ to. None };

    fn write(&mut self, piece: &[u8]) -> Took {
        let count = piece.len().min(7);
        self.written.fetch_add(count as u64, Ordering::SeqCst);
        Took::Bytes(count)
    }
}

/// Reads of an Init, a Search and a Present, which have 21, 64 and 23 octets; their replies have 43, 14 and
/// 60. A read ends with each unit, within one, behind two, or behind all three.
const CASES: [Reads; 4] = [
    &[(21, 43), (85, 57), (108, 117)],
    &[(21, 43), (30, 43), (85, 57), (108, 117)],
    &[(21, 43), (108, 117)],
    &[(108, 117)],
];

/// Whether a client who sends this and is read so is answered to its end.
fn is_read_so<R: Wait, W: World, B: Backend<W>, D: Door<W, B::Session>>(
    rt: &R,
    alloc: Global,
    route: &Route,
    door: &mut D,
    backend: &mut B,
    sent: &[u8],
    reads: Reads,
) -> bool {
    let written = AtomicU64::new(0);
    let mut source = OrderedSource {
        sent,
        reads,
        made: 0,
        given: 0,
        due: 0,
        written: &written,
        faults: 0,
    };
    let mut sink = CountedSink {
        written: &written,
        faults: 0,
    };
    let mut clock = MemoryClock::new(List::new(alloc));
    ends_so(
        rt,
        alloc,
        route,
        door,
        backend,
        &mut clock,
        (&mut source, &mut sink),
        (WHOLE.marks, WHOLE.end),
    )
}

/// Whether a client who sends this and is read so is answered to its end, over targets in memory.
fn is_answered_by<R: Wait>(
    rt: &R,
    alloc: Global,
    route: &Route,
    sent: &[u8],
    reads: Reads,
) -> Result<bool, Memory> {
    let mut pool: Pool<TestWorld, FakeSession> = Pool::new(alloc, route)?;
    let mut backend = FakeBackend::new(TestWorld, List::new(alloc));
    Ok(is_read_so(rt, alloc, route, &mut pool, &mut backend, sent, reads))
}

/// Whether a client who is read so is answered to its end.
fn is_answered<R: Wait>(rt: &R, alloc: Global, reads: Reads) -> Result<bool, Memory> {
    let sent = text_of(alloc, WHOLE.sent)?;
    let route = route_of(alloc, MOST_UNITS)?;
    is_answered_by(rt, alloc, &route, sent.as_slice(), reads)
}

#[test]
fn each_reply_is_written_whole_before_the_next_read(rt: HostRuntime) -> Result<(), Fail> {
    for reads in CASES {
        assert!(rt; is_answered(&rt, rt.alloc(), reads)?, "{reads:?}");
    }
    Ok(())
}
