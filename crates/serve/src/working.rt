//! A worker's loop.

ghost use Rattle.std.specs.Prelude.{◌≡◌, ◌≤◌};
ghost use Rattle.z_types.specs.Counts.{Rose};
ghost use Rattle.conn_served.specs.Costs.{tally_of};
ghost use Rattle.conn_served.specs.Seats.{AreGivenBack};
ghost use Rattle.serve.specs.Working.{HasWorked, HaveCost, IsNoneLeft, worker_view};

use crate::Listed;
use crate::serving::serve_client;
use conn_served::whose_of;
use gw_outside::{Accept, Accepted, Backend, Came, Clock};
use pool_sets::Door;
use route_config::Route;
use std::alloc::Global;
use std::sync::Wait;
use z_types::World;

/// How a worker's loop ended.
#[derive(Clone, Copy, PartialEq, Eq, Debug)]
pub enum Worked {
    /// No connection is left.
    Ended,
    /// An accept failed.
    Failed,
    /// No memory could be had to list what comes of one more connection.
    Memory,
}

/// A worker: its sessions with targets, where its connections come from, its clock, and what came of
/// the connections that it served.
#[derive(Drop)]
pub struct Worker<B, A, C> {
    /// Sessions with targets.
    pub backend: B,
    /// Where connections come from.
    pub accept: A,
    /// The moments by which sessions with targets age.
    pub clock: C,
    /// What came of each connection, in their order.
    pub served: Listed,
}

/// Accepts a connection, serves it, hands it back and lists what came of it, again and again until no
/// connection is left (`Ended`) or an accept fails (`Failed`). Room in the list is made before each
/// accept (`Memory` where there is none), so that each connection that is taken is handed back and
/// listed. A connection that ends without memory does not end its worker.
///
/// It waits where a call of the acceptor, a connection, the backend or the door does.
pub fn work<R: Wait, W: World, B: Backend<W>, D: Door<W, B::Session>, A: Accept, C: Clock>(
    rt: &R,
    alloc: Global,
    route: &Route,
    door: &mut D,
    worker: &mut Worker<B, A, C>,
) -> Worked
    ensures worked { HasWorked W.World A.In.Source A.Out.Sink route.now
        (worker_view A.Accept worker.old.served worker.old.accept)
        (worker_view A.Accept worker.new.served worker.new.accept) }

    // The marks of all these connections have their causes, and what they cost is paid for.
    ensures cost { HaveCost route.now.pool worker.old.served worker.new.served
        (tally_of D.Door B.Watched door.old worker.old.backend)
        (tally_of D.Door B.Watched door.new worker.new.backend) }

    // Over a told pool the sessions that are out are those that were out before, whatever the ends.
    ensures seats { AreGivenBack (D.pool door.old) (D.pool door.new) }
    ensures ended { result ≡ Worked.Ended → IsNoneLeft (A.left worker.new.accept) }
    ensures failed { result ≡ Worked.Failed
        → Rose (A.faults worker.old.accept) (A.faults worker.new.accept) }
    ensures faults { A.faults worker.old.accept ≤ A.faults worker.new.accept }
    ensures most { (D.counts door.new).most ≡ (D.counts door.old).most }
{
    serve_all(
        rt,
        alloc,
        route,
        door,
        &mut worker.backend,
        &mut worker.accept,
        &mut worker.clock,
        &mut worker.served,
    )
}

/// Serves connections until none is left, and lists what came of each.
fn serve_all<R: Wait, W: World, B: Backend<W>, D: Door<W, B::Session>, A: Accept, C: Clock>(
    rt: &R,
    alloc: Global,
    route: &Route,
    door: &mut D,
    backend: &mut B,
    accept: &mut A,
    clock: &mut C,
    served: &mut Listed,
) -> Worked
    ensures worked { HasWorked W.World A.In.Source A.Out.Sink route.now
        (worker_view A.Accept served.old accept.old)
        (worker_view A.Accept served.new accept.new) }
    ensures cost { HaveCost route.now.pool served.old served.new
        (tally_of D.Door B.Watched door.old backend.old)
        (tally_of D.Door B.Watched door.new backend.new) }
    ensures seats { AreGivenBack (D.pool door.old) (D.pool door.new) }
    ensures ended { result ≡ Worked.Ended → IsNoneLeft (A.left accept.new) }
    ensures failed { result ≡ Worked.Failed → Rose (A.faults accept.old) (A.faults accept.new) }
    ensures faults { A.faults accept.old ≤ A.faults accept.new }
    ensures most { (D.counts door.new).most ≡ (D.counts door.old).most }
{
    for _round in 0..u64::MAX {
        if served.make_room().is_err() {
            return Worked::Memory;
        }
        match accept.accept() {
            Accepted::Connection(mut source, mut sink) => {
                let (from, to) = (&mut source, &mut sink);
                let before = backend.served_from_cache();
                let client = serve_client(rt, alloc, route, door, from, to, backend, clock);
                accept.close(
                    source,
                    sink,
                    Came {
                        marks: client.came.marks.as_slice(),
                        end: Some(client.came.end),
                        whose: whose_of(route, client.whose, client.units),
                        cached: backend.served_from_cache().saturating_sub(before),
                    },
                );
                served.push(client.came);
            }
            Accepted::Ended => return Worked::Ended,
            Accepted::Failed => return Worked::Failed,
        }
    }
    Worked::Memory
}
