//! Connections as cases, and how one is served: what holds a pool, sessions with targets or streams lends them
//! to one function, which owns nothing where it ends.

ghost use Rattle.std.specs.Prelude.{IfOk};
ghost use Rattle.gw_outside.specs.Accepts.{IsUntouched};

use crate::octets::{INIT, INIT_REPLY, PRESENT, PRESENT_REPLY, SEARCH, SEARCH_REPLY};
use gw_memory::{MemoryClock, MemorySink, MemorySource};
use gw_outside::{Backend, Clock, Sink, Source};
use pool_core::Pool;
use pool_sets::Door;
use route_config::{Route, RouteParts};
use serve::conn_served::Served;
use serve::serve_connection;
use std::alloc::Global;
use std::sync::Wait;
use z_types::{End, List, Mark, Memory, Text, World};

/// A connection: what its client sends, and how many octets of 4 behind that; the moments that its clock gives,
/// the last again behind them; the numbers of the read and of the write that fail, 0 for none; how many octets its
/// sink takes at a write; what is written, and how many octets of that at most; how many requests are answered,
/// all under the mark Plain; and how it ends.
#[derive(Clone, Copy)]
pub(crate) struct Case<'a> {
    pub(crate) sent: &'a [&'a [u8]],
    pub(crate) behind: usize,
    pub(crate) moments: &'a [u64],
    pub(crate) failing_read: u64,
    pub(crate) failing_write: u64,
    pub(crate) taken: usize,
    pub(crate) written: &'a [&'a [u8]],
    pub(crate) most: usize,
    pub(crate) marks: usize,
    pub(crate) end: End,
}

/// An Init, a Search and a Present, where nothing fails.
pub(crate) const WHOLE: Case = Case {
    sent: &[INIT, SEARCH, PRESENT],
    behind: 0,
    moments: &[],
    failing_read: 0,
    failing_write: 0,
    taken: usize::MAX,
    written: &[INIT_REPLY, SEARCH_REPLY, PRESENT_REPLY],
    most: usize::MAX,
    marks: 3,
    end: End::Finished,
};

/// How many units a connection may send, where that is no matter.
pub(crate) const MOST_UNITS: u32 = 100;

/// How many sessions of a class there are at most, where that is no matter.
const MOST_SESSIONS: u32 = 64;

/// The route of the smallest configuration, with so many units of a connection at most.
pub(crate) fn route_of(alloc: Global, most_units: u32) -> Result<Route, Memory> {
    route_within(alloc, most_units, MOST_SESSIONS)
}

/// The same, with so many sessions of a class at most.
pub(crate) fn route_within(
    alloc: Global,
    most_units: u32,
    max_sessions: u32,
) -> Result<Route, Memory> {
    let mut parts = RouteParts::smallest(alloc)?;
    parts.limits.units = most_units;
    parts.pool.max_sessions = max_sessions;
    if !parts.are_sound() {
        return Err(Memory);
    }
    Route::new(alloc, parts)
}

/// These parts behind one another.
pub(crate) fn text_of(alloc: Global, parts: &[&[u8]]) -> Result<Text, Memory> {
    let mut text = Text::new(alloc);
    for part in parts {
        text.append(part)?;
    }
    Ok(text)
}

/// The list of these numbers.
pub(crate) fn numbers(alloc: Global, values: &[u64]) -> Result<List<u64>, Memory> {
    Ok(List::from_vec(values.to_vec(alloc)?))
}

/// What the client of a case sends.
fn sent_of(alloc: Global, case: &Case) -> Result<Text, Memory> {
    let mut sent = text_of(alloc, case.sent)?;
    sent.append(vec![in alloc; 4u8; case.behind]?.as_slice())?;
    Ok(sent)
}

/// A source and a sink of which nothing was read or written.
pub(crate) type Streams = (MemorySource, MemorySink);

/// The streams of a case.
pub(crate) fn streams_of(alloc: Global, case: &Case) -> Result<Streams, Memory>
    ensures untouched { IfOk result (λ new. IsUntouched
        ⟦<MemorySource as Source>⟧ ⟦<MemorySink as Sink>⟧ new.0 new.1) }
{
    let sent = sent_of(alloc, case)?;
    let reads = numbers(alloc, &[case.failing_read])?;
    let writes = numbers(alloc, &[case.failing_write])?;
    let sink = MemorySink::taking(alloc, case.taken.max(1), writes);
    Ok((MemorySource::new(sent, reads), sink))
}

/// Whether a case has it that just this is written.
fn is_written(alloc: Global, case: &Case, received: &[u8]) -> Result<bool, Memory> {
    let written = text_of(alloc, case.written)?;
    let whole = written.as_slice();
    Ok(received == whole.get(..case.most).unwrap_or(whole))
}

/// Whether these are so many marks, each Plain.
fn are_plain(marks: &List<Mark>, count: usize) -> bool {
    marks.len() == count && marks.as_slice().iter().all(|mark| *mark == Mark::Plain)
}

/// Whether so many requests were answered, all under the mark Plain, and the connection ended so.
fn has_come(served: &Served, marks: usize, end: End) -> bool {
    served.end == end && are_plain(&served.marks, marks)
}

/// Whether this was received and came of a connection, as its case has it.
pub(crate) fn is_as_wanted(
    alloc: Global,
    case: &Case,
    received: &[u8],
    served: &Served,
) -> Result<bool, Memory> {
    Ok(has_come(served, case.marks, case.end) && is_written(alloc, case, received)?)
}

/// Whether so many requests of a connection over these streams are answered, all under the mark Plain, and it
/// ends so.
pub(crate) fn ends_so<
    R: Wait,
    W: World,
    B: Backend<W>,
    D: Door<W, B::Session>,
    I: Source,
    K: Sink,
    C: Clock,
>(
    rt: &R,
    alloc: Global,
    route: &Route,
    door: &mut D,
    backend: &mut B,
    clock: &mut C,
    streams: (&mut I, &mut K),
    wanted: (usize, End),
) -> bool {
    let (source, sink) = streams;
    let served = serve_connection(rt, alloc, route, door, source, sink, backend, clock);
    has_come(&served, wanted.0, wanted.1)
}

/// Whether a connection over these streams is served as its case has it.
fn is_so_over<R: Wait, W: World, B: Backend<W>, D: Door<W, B::Session>, C: Clock>(
    rt: &R,
    alloc: Global,
    route: &Route,
    door: &mut D,
    backend: &mut B,
    clock: &mut C,
    streams: &mut Streams,
    case: &Case,
) -> Result<bool, Memory> {
    let (source, sink) = streams;
    let wanted = (case.marks, case.end);
    let is_so = ends_so(
        rt,
        alloc,
        route,
        door,
        backend,
        clock,
        (source, sink),
        wanted,
    );
    Ok(is_so && is_written(alloc, case, streams.1.received())?)
}

/// Whether a connection is served as its case has it.
fn is_so<R: Wait, W: World, B: Backend<W>, D: Door<W, B::Session>>(
    rt: &R,
    alloc: Global,
    route: &Route,
    door: &mut D,
    backend: &mut B,
    case: &Case,
) -> Result<bool, Memory> {
    let moments = numbers(alloc, case.moments)?;
    let mut streams = streams_of(alloc, case)?;
    let mut clock = MemoryClock::new(moments);
    is_so_over(
        rt,
        alloc,
        route,
        door,
        backend,
        &mut clock,
        &mut streams,
        case,
    )
}

/// Whether connections behind one another are served as their cases have it.
pub(crate) fn are_so<R: Wait, W: World, B: Backend<W>, D: Door<W, B::Session>>(
    rt: &R,
    alloc: Global,
    route: &Route,
    door: &mut D,
    backend: &mut B,
    cases: &[Case],
) -> Result<bool, Memory> {
    for case in cases {
        if !is_so(rt, alloc, route, door, backend, case)? {
            return Ok(false);
        }
    }
    Ok(true)
}

/// The same over a new pool.
pub(crate) fn are_so_over_a_new_pool<R: Wait, W: World, B: Backend<W>>(
    rt: &R,
    alloc: Global,
    route: &Route,
    backend: &mut B,
    cases: &[Case],
) -> Result<bool, Memory> {
    let mut pool: Pool<W, B::Session> = Pool::new(alloc, route)?;
    are_so(rt, alloc, route, &mut pool, backend, cases)
}
