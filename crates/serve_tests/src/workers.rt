//! A worker with connections of several ends, whose listener fails or not.

ghost use Rattle.std.specs.Prelude.{IfOk};
ghost use Rattle.gw_memory.specs.Accepts.{AreUntouched};

use crate::cases::{Case, MOST_UNITS, Streams, WHOLE, is_as_wanted, numbers, route_of, streams_of};
use crate::octets::{BAD_REPLY, CLOSE, GET, GET_REPLY, INIT, INIT_REPLY, SEARCH, SEARCH_REPLY};
use gw_memory::{FakeBackend, MemoryAccept, MemoryClock, MemorySink, MemorySource};
use gw_outside::{Backend, Sink, Source};
use pool_core::Pool;
use pool_sets::Door;
use route_config::Route;
use serve::{Listed, Worked, Worker, work};
use std::alloc::Global;
use std::sync::Wait;
use std::test::Fail;
use test_target::TestWorld;
use z_types::{End, List, Memory, World};

/// The work of a worker: its connections; the number of the accept that fails, 0 for none; and how its work
/// ends first, when so many connections were served. It goes on to the last of them.
#[derive(Clone, Copy)]
pub(crate) struct WorkCase<'a> {
    pub(crate) cases: &'a [Case<'a>],
    pub(crate) failing_accept: u64,
    pub(crate) worked: Worked,
    pub(crate) count: usize,
}

/// An acceptor of connections in memory.
type Listener = MemoryAccept<MemorySource, MemorySink>;

/// A worker over memory, with these sessions with targets.
type Memories<B> = Worker<B, Listener, MemoryClock>;

/// The connections of cases, of which nothing was read or written.
fn connections_of(alloc: Global, cases: &[Case]) -> Result<List<Streams>, Memory>
    ensures { IfOk result (AreUntouched ⟦<MemorySource as Source>⟧ ⟦<MemorySink as Sink>⟧) }
{
    let mut connections = List::new(alloc);
    for case in cases {
        connections.push(streams_of(alloc, case)?)?;
    }
    Ok(connections)
}

/// What hands these connections out.
fn listener_of(alloc: Global, work_case: &WorkCase) -> Result<Listener, Memory> {
    let failing = numbers(alloc, &[work_case.failing_accept])?;
    MemoryAccept::new(alloc, connections_of(alloc, work_case.cases)?, failing)
}

/// A worker that served nobody yet.
fn worker_of<B>(alloc: Global, backend: B, accept: Listener) -> Memories<B> {
    Worker {
        backend,
        accept,
        clock: MemoryClock::new(List::new(alloc)),
        served: Listed::keeping(alloc),
    }
}

/// Whether the first of these connections, so many of them, were served as their cases have it, and no other.
fn are_served<B>(
    alloc: Global,
    worker: &Memories<B>,
    cases: &[Case],
    count: usize,
) -> Result<bool, Memory> {
    let closed = worker.accept.closed();
    let served = worker.served.kept().unwrap_or(&[]);
    let mut all = closed.len() == count && served.len() == count;
    for ((case, streams), came) in cases.iter().zip(closed).zip(served) {
        all = all && is_as_wanted(alloc, case, streams.1.received(), came)?;
    }
    Ok(all)
}

/// Whether a worker that is set to work ends so, when so many of its connections were served.
fn ends_so<R: Wait, W: World, B: Backend<W>, D: Door<W, B::Session>>(
    rt: &R,
    alloc: Global,
    route: &Route,
    door: &mut D,
    worker: &mut Memories<B>,
    cases: &[Case],
    wanted: (Worked, usize),
) -> Result<bool, Memory> {
    let worked = work(rt, alloc, route, door, worker);
    Ok(worked == wanted.0 && are_served(alloc, worker, cases, wanted.1)?)
}

/// Whether a worker works so over a door, and goes on to the last of its connections.
fn works_over<R: Wait, W: World, B: Backend<W>, D: Door<W, B::Session>>(
    rt: &R,
    alloc: Global,
    route: &Route,
    door: &mut D,
    worker: &mut Memories<B>,
    work_case: &WorkCase,
) -> Result<bool, Memory> {
    let cases = work_case.cases;
    for wanted in [
        (work_case.worked, work_case.count),
        (Worked::Ended, cases.len()),
    ] {
        if !ends_so(rt, alloc, route, door, worker, cases, wanted)? {
            return Ok(false);
        }
    }
    Ok(true)
}

/// The same over a new pool.
fn works_over_a_new_pool<R: Wait, W: World, B: Backend<W>>(
    rt: &R,
    alloc: Global,
    route: &Route,
    worker: &mut Memories<B>,
    work_case: &WorkCase,
) -> Result<bool, Memory> {
    let mut pool: Pool<W, B::Session> = Pool::new(alloc, route)?;
    works_over(rt, alloc, route, &mut pool, worker, work_case)
}

/// The same by the smallest route.
fn works_by_a_route<R: Wait, W: World, B: Backend<W>>(
    rt: &R,
    alloc: Global,
    worker: &mut Memories<B>,
    work_case: &WorkCase,
) -> Result<bool, Memory> {
    let route = route_of(alloc, MOST_UNITS)?;
    works_over_a_new_pool(rt, alloc, &route, worker, work_case)
}

/// Whether a worker with these sessions with targets works so.
pub(crate) fn works_so<R: Wait, W: World, B: Backend<W> + Drop>(
    rt: &R,
    alloc: Global,
    backend: B,
    work_case: &WorkCase,
) -> Result<bool, Memory> {
    let accept = listener_of(alloc, work_case)?;
    let mut worker = worker_of(alloc, backend, accept);
    works_by_a_route(rt, alloc, &mut worker, work_case)
}

/// The clients of a worker, by Z39.50 and by HTTP.
const CLIENTS: [Case; 5] = [
    Case {
        sent: &[INIT, SEARCH],
        written: &[INIT_REPLY, SEARCH_REPLY],
        marks: 2,
        ..WHOLE
    },
    Case {
        sent: &[INIT, SEARCH],
        failing_write: 2,
        written: &[INIT_REPLY],
        marks: 2,
        end: End::WriteFault,
        ..WHOLE
    },
    Case {
        sent: &[GET],
        written: &[GET_REPLY],
        marks: 1,
        end: End::Closed,
        ..WHOLE
    },
    Case {
        sent: &[b"\xb6\xff"],
        written: &[BAD_REPLY],
        marks: 0,
        end: End::Malformed(0),
        ..WHOLE
    },
    Case {
        sent: &[INIT, SEARCH, CLOSE],
        written: &[INIT_REPLY, SEARCH_REPLY, CLOSE],
        end: End::Closed,
        ..WHOLE
    },
];

#[test]
fn a_worker_serves_each_connection_and_ends_with_its_listener(rt: HostRuntime) -> Result<(), Fail> {
    let alloc = rt.alloc();
    for (failing_accept, worked, count) in [
        (0, Worked::Ended, 5),
        (1, Worked::Failed, 0),
        (3, Worked::Failed, 2),
        (6, Worked::Failed, 5),
    ] {
        let work_case = WorkCase {
            cases: &CLIENTS,
            failing_accept,
            worked,
            count,
        };
        let backend = FakeBackend::new(TestWorld, List::new(alloc));
        assert!(rt;
            works_so(&rt, alloc, backend, &work_case)?,
            "{failing_accept}"
        );
    }
    Ok(())
}
