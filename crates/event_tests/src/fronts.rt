//! Fronts over memory.

ghost use Rattle.std.specs.Prelude.{IfOk};
ghost use Rattle.event_memory.specs.Accepts.{AreUntouched};
ghost use Rattle.event_outside.specs.Accepts.{IsUntouched};

use crate::octets::{INIT, INIT_REPLY, PRESENT, PRESENT_REPLY, SEARCH, SEARCH_REPLY};
use crate::wires::CountedWire;
use event_front::conn_served::Listed;
use event_loop::{EventFront, Fronted, run_front};
use event_memory::{
    Arrival, Look, MemoryEdgeAccept, MemoryEdgeSink, MemoryEdgeSource, MemoryPoller,
};
use event_outside::{EdgeAccept, EdgeSink, EdgeSource};
use gw_memory::MemoryClock;
use pool_index::IndexedPool;
use route_config::Route;
use std::alloc::Global;
use std::sync::atomic::{AtomicU64, Ordering};
use std::test::Fail;
use test_target::TestWorld;
use test_wire::TestLink;
use z_client::{ZBackend, ZSession};
use z_types::{End, List, Memory, Text};

/// The pool of a front over links with test targets.
pub(crate) type Sessions = IndexedPool<TestWorld, ZSession<TestWorld, TestLink>>;

/// A front over links with test targets, with connections of some kind.
pub(crate) type Over<'a, A> = EventFront<A, MemoryPoller, ZBackend<CountedWire<'a>>, MemoryClock>;

/// A connection in memory.
pub(crate) type Ends = (MemoryEdgeSource, MemoryEdgeSink);

/// These parts behind one another.
pub(crate) fn text_of(alloc: Global, parts: &[&[u8]]) -> Result<Text, Memory> {
    let mut text = Text::new(alloc);
    for part in parts {
        text.append(part)?;
    }
    Ok(text)
}

/// A list of these.
pub(crate) fn list_of<T: Copy + Drop>(alloc: Global, items: &[T]) -> Result<List<T>, Memory> {
    let mut list = List::new(alloc);
    for item in items {
        list.push(*item)?;
    }
    Ok(list)
}

/// Two looks again and again, so often.
pub(crate) fn looks_of(
    alloc: Global,
    one: Look,
    other: Look,
    often: u32,
) -> Result<List<Look>, Memory> {
    let mut looks = List::new(alloc);
    for _ in 0..often {
        looks.push(one)?;
        looks.push(other)?;
    }
    Ok(looks)
}

/// A front of an acceptor.
pub(crate) fn front_of<'a, A: EdgeAccept + Drop>(
    alloc: Global,
    accept: A,
    failing_wait: u64,
    dials: &'a AtomicU64,
    searches: &'a AtomicU64,
) -> Result<Over<'a, A>, Memory> {
    Ok(EventFront {
        accept,
        poller: MemoryPoller::new(list_of(alloc, &[failing_wait])?),
        backend: ZBackend::new(alloc, CountedWire::new(alloc, dials, searches)),
        clock: MemoryClock::new(List::new(alloc)),
        served: Listed::keeping(alloc),
    })
}

/// Runs a front over a new pool of the smallest route.
pub(crate) fn run_over<A: EdgeAccept>(
    alloc: Global,
    most: usize,
    front: &mut Over<'_, A>,
) -> Result<Fronted, Memory> {
    let route = Route::smallest(alloc)?;
    let mut pool: Sessions = IndexedPool::new(alloc, &route)?;
    Ok(run_front(alloc, &route, &mut pool, most, front))
}

/// A client that sends this, with looks of its source and its sink.
fn client_of(alloc: Global, sent: &[u8], reads: &[Look], writes: &[Look]) -> Result<Ends, Memory>
    ensures untouched { IfOk result (λ new. IsUntouched
        ⟦<MemoryEdgeSource as EdgeSource>⟧ ⟦<MemoryEdgeSink as EdgeSink>⟧ new.0 new.1) }
{
    let source = MemoryEdgeSource::new(Text::copy_of(alloc, sent)?, list_of(alloc, reads)?);
    Ok((source, MemoryEdgeSink::new(alloc, list_of(alloc, writes)?)))
}

/// So many of these clients.
pub(crate) fn clients_of(
    alloc: Global,
    count: u32,
    sent: &[u8],
    reads: &[Look],
    writes: &[Look],
) -> Result<List<Ends>, Memory>
    ensures { IfOk result (AreUntouched
        ⟦<MemoryEdgeSource as EdgeSource>⟧ ⟦<MemoryEdgeSink as EdgeSink>⟧) }
{
    let mut clients = List::new(alloc);
    'client: for _ in 0..count {
        clients.push(client_of(alloc, sent, reads, writes)?)?;
    }
    Ok(clients)
}

/// So many clients that send an Init, a Search and a Present an octet at a time, each behind a look that finds
/// nothing, over a sink that takes five octets and then has no room once.
pub(crate) fn slow_clients_of(alloc: Global, count: u32) -> Result<List<Ends>, Memory>
    ensures { IfOk result (AreUntouched
        ⟦<MemoryEdgeSource as EdgeSource>⟧ ⟦<MemoryEdgeSink as EdgeSink>⟧) }
{
    let sent = text_of(alloc, &[INIT, SEARCH, PRESENT])?;
    let often = u32::try_from(sent.len()).unwrap_or(u32::MAX);
    let reads = looks_of(alloc, Look::NotReady, Look::Some(1), often)?;
    let writes = looks_of(alloc, Look::Some(5), Look::NotReady, 100)?;
    clients_of(
        alloc,
        count,
        sent.as_slice(),
        reads.as_slice(),
        writes.as_slice(),
    )
}

/// How many dials and searches there are for three slow clients, of whom so many at most are open at a time; or
/// nothing, where one was not answered whole.
fn slow_clients(alloc: Global, most: usize) -> Result<Option<(u64, u64)>, Memory> {
    let (dials, searches) = (AtomicU64::new(0), AtomicU64::new(0));
    let arrivals = list_of(
        alloc,
        &[Arrival::NotReady, Arrival::Next, Arrival::NotReady],
    )?;
    let accept = MemoryEdgeAccept::new(alloc, slow_clients_of(alloc, 3)?, arrivals)?;
    let mut front = front_of(alloc, accept, 0, &dials, &searches)?;
    let fronted = run_over(alloc, most, &mut front)?;
    let written = text_of(alloc, &[INIT_REPLY, SEARCH_REPLY, PRESENT_REPLY])?;
    let closed = front.accept.closed();
    let mut whole = fronted == Fronted::Ended && closed.len() == 3 && front.served.len() == 3;
    for served in front.served.kept().unwrap_or(&[]) {
        whole = whole && served.end == End::Finished && served.marks.len() == 3;
    }
    for (_, output) in closed {
        whole = whole && output.received() == written.as_slice();
    }
    let counts = (
        dials.load(Ordering::SeqCst),
        searches.load(Ordering::SeqCst),
    );
    Ok(whole.then_some(counts))
}

#[test]
fn slow_clients_are_answered_whole_one_after_another(rt: HostRuntime) -> Result<(), Fail> {
    assert_eq!(rt; slow_clients(rt.alloc(), 1)?, Some((1, 1)));
    Ok(())
}

#[test]
fn slow_clients_are_answered_whole_at_the_same_time(rt: HostRuntime) -> Result<(), Fail> {
    assert!(rt; slow_clients(rt.alloc(), 3)?.is_some());
    Ok(())
}
