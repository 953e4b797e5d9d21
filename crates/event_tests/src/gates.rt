//! A client that goes on only once another has all its answers.

use crate::fronts::{front_of, run_over, text_of};
use crate::octets::{INIT, INIT_REPLY, SEARCH, SEARCH_REPLY};
use event_loop::Fronted;
use event_memory::{MemoryEdgeSink, MemoryEdgeSource};
use event_outside::{EdgeAccept, EdgeAccepted, EdgeGot, EdgeSink, EdgeSource, EdgeTook};
use gw_outside::Came;
use std::alloc::Global;
use std::sync::atomic::{AtomicU64, Ordering};
use std::test::Fail;
use z_types::{End, List, Memory};

/// How many looks may find nothing.
const MOST_LOOKS: u32 = 1_000_000;

/// The octets of what a client is answered.
const WHOLE: u64 = 57;

/// A source that gives its first part, and its second once the other client was written so many octets.
#[derive(Drop)]
struct GatedSource<'a> {
    first: MemoryEdgeSource,
    second: MemoryEdgeSource,
    has_begun: bool,
    others: &'a AtomicU64,
    least: u64,
    looks: u32,
    faults: u64,
    waits: u64,
}

impl EdgeSource for GatedSource<'_> {
    ghost use Rattle.std.specs.Prelude.{None, ◌+◌};

    ghost faults = { λ source.
        ⟦<MemoryEdgeSource as EdgeSource>⟧.faults source.second + source.faults };

    ghost waits = { λ source.
        ⟦<MemoryEdgeSource as EdgeSource>⟧.waits source.second + source.waits };

    ghost left = { λ source. None };

    ghost given = { λ source. None };

    fn read(&mut self, into: &mut [u8]) -> EdgeGot {
        if !self.has_begun {
            match self.first.read(into) {
                EdgeGot::Bytes(count) => return EdgeGot::Bytes(count),
                _ => self.has_begun = true,
            }
        }
        if self.others.load(Ordering::SeqCst) >= self.least {
            return self.second.read(into);
        }
        if self.looks < MOST_LOOKS {
            self.looks += 1;
            self.waits = self.waits.saturating_add(1);
            return EdgeGot::NotReady;
        }
        self.faults = self.faults.saturating_add(1);
        EdgeGot::Failed
    }
}

/// Where a client's answers go, counted for the other.
#[derive(Drop)]
struct CountedSink<'a> {
    sink: MemoryEdgeSink,
    octets: &'a AtomicU64,
}

impl EdgeSink for CountedSink<'_> {
    ghost faults = { λ to. ⟦<MemoryEdgeSink as EdgeSink>⟧.faults to.sink };

    ghost waits = { λ to. ⟦<MemoryEdgeSink as EdgeSink>⟧.waits to.sink };

    ghost received = { λ to. ⟦<MemoryEdgeSink as EdgeSink>⟧.received to.sink };

    fn write(&mut self, piece: &[u8]) -> EdgeTook {
        let took = self.sink.write(piece);
        if let EdgeTook::Bytes(count) = took {
            self.octets.fetch_add(count as u64, Ordering::SeqCst);
        }
        took
    }
}

/// The two ends of a client's connection.
type Gated<'a> = (GatedSource<'a>, CountedSink<'a>);

/// An acceptor of two clients, who are kept when they are handed back.
#[derive(Drop)]
struct TwoClients<'a> {
    first: Option<Gated<'a>>,
    second: Option<Gated<'a>>,
    closed: Vec<Gated<'a>>,
}

impl<'a> EdgeAccept for TwoClients<'a> {
    ghost use Rattle.std.specs.Prelude.{None};

    type In = GatedSource<'a>;

    type Out = CountedSink<'a>;

    ghost faults = { λ accept. 0 };

    ghost waits = { λ accept. 0 };

    ghost left = { λ accept. None };

    ghost closed = { λ accept. None };

    ghost out = { λ accept. None };

    fn accept(&mut self) -> EdgeAccepted<GatedSource<'a>, CountedSink<'a>> {
        let next = if self.first.is_some() {
            self.first.take()
        } else {
            self.second.take()
        };
        match next {
            Some((input, output)) => EdgeAccepted::Connection(input, output),
            None => EdgeAccepted::Ended,
        }
    }

    fn close(&mut self, input: GatedSource<'a>, output: CountedSink<'a>, _came: Came<'_>) {
        let _memory = self.closed.push((input, output));
    }
}

/// A client that sends an Init, and a Search once the other was written so many octets.
fn client<'a>(
    alloc: Global,
    own: &'a AtomicU64,
    others: &'a AtomicU64,
    least: u64,
) -> Result<Gated<'a>, Memory> {
    let input = GatedSource {
        first: MemoryEdgeSource::new(text_of(alloc, &[INIT])?, List::new(alloc)),
        second: MemoryEdgeSource::new(text_of(alloc, &[SEARCH])?, List::new(alloc)),
        has_begun: false,
        others,
        least,
        looks: 0,
        faults: 0,
        waits: 0,
    };
    let output = CountedSink {
        sink: MemoryEdgeSink::new(alloc, List::new(alloc)),
        octets: own,
    };
    Ok((input, output))
}

/// Whether both clients were answered.
fn have_answered(alloc: Global, closed: &[Gated]) -> Result<bool, Memory> {
    let written = text_of(alloc, &[INIT_REPLY, SEARCH_REPLY])?;
    let mut whole = closed.len() == 2;
    for (_, output) in closed {
        whole = whole && output.sink.received() == written.as_slice();
    }
    Ok(whole)
}

/// Whether both clients are answered, so many open at a time, where the first waits for the second's answers.
/// Their octets are counted here.
fn are_answered<'a>(
    alloc: Global,
    most: usize,
    first: &'a AtomicU64,
    second: &'a AtomicU64,
) -> Result<bool, Memory> {
    let (dials, searches) = (AtomicU64::new(0), AtomicU64::new(0));
    let accept = TwoClients {
        first: Some(client(alloc, first, second, WHOLE)?),
        second: Some(client(alloc, second, first, 0)?),
        closed: Vec::new(alloc),
    };
    let mut front = front_of(alloc, accept, 0, &dials, &searches)?;
    let fronted = run_over(alloc, most, &mut front)?;
    let mut ended = fronted == Fronted::Ended && front.served.len() == 2;
    for served in front.served.kept().unwrap_or(&[]) {
        ended = ended && served.end == End::Finished;
    }
    Ok(ended && have_answered(alloc, front.accept.closed.as_slice())?)
}

#[test]
fn a_connection_is_served_before_the_one_accepted_first_has_ended(
    rt: HostRuntime,
) -> Result<(), Fail> {
    let (first, second) = (AtomicU64::new(0), AtomicU64::new(0));
    assert!(rt; are_answered(rt.alloc(), 2, &first, &second)?);
    Ok(())
}
