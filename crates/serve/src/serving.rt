//! Serves a connection: reads what its client sends, and writes the answers (ANSI/NISO Z39.50-2003, 4.2).

ghost use Rattle.std.specs.Prelude.{◌≡◌};
ghost use Rattle.conn_served.specs.front_session.Sessions.{new_session};
ghost use Rattle.conn_served.specs.Costs.{AreMarksOf, ArePaid, HaveCauses, tally_of, undialled};
ghost use Rattle.conn_served.specs.Serving.{IsServed, streams};
ghost use Rattle.conn_served.specs.Runs.{IsRun};
ghost use Rattle.conn_served.specs.Seats.{AreGivenBack};
ghost use Rattle.conn_served.specs.steps.Rounds.{ComesTo};
ghost use Rattle.conn_served.specs.front_conn.steps.Drives.{conn_at, outside_of};
ghost use Rattle.conn_served.specs.front_conn.steps.States.{nothing_yet};

use crate::rounds::go_on;
use conn_served::front_conn::gateway_rules::access_rules::Who;
use conn_served::front_conn::{Conn, stands_at_start};
use conn_served::front_conn_costs::{costs_nothing, marks_are_met, pays_on, starts_costless};
use conn_served::front_conn_seats::{connections_give_back, steps_keep_seats};
use conn_served::{Ascending, Served};
use gw_outside::{Backend, Clock, Sink, Source};
use pool_sets::Door;
use route_config::Route;
use std::alloc::Global;
use std::sync::Wait;
use z_types::{End, Sitting, World};

/// Serves a connection until it ends: reads what the client sends, and writes each reply whole before
/// it reads on. A request is begun by a step, and then driven until it is answered, with all its legs in
/// flight. It waits where a call of the source, the sink, the backend or the door does, and reads the clock
/// before each step, and before each turn of a request that is driven; a smaller moment counts as the
/// greatest of this connection.
///
/// After a failed read (`ReadFault`) all that was read is answered. After a failed write (`WriteFault`)
/// and without memory (`Memory`) a front of the answers was written. A session with a target that is out
/// at such an end is given up.
pub fn serve_connection<
    R: Wait,
    W: World,
    B: Backend<W>,
    D: Door<W, B::Session>,
    I: Source,
    K: Sink,
    C: Clock,
>(
    rt: &R,
    alloc: Global,
    route: &Route,
    door: &mut D,
    source: &mut I,
    sink: &mut K,
    backend: &mut B,
    clock: &mut C,
) -> Served
    ensures served { IsServed W.World route.now
        (streams I.Source K.Sink source.old sink.old) (streams I.Source K.Sink source.new sink.new)
        result.marks result.end }

    // It took its steps, one behind another, and what was out for it was given up.
    ensures run { IsRun W.World B.Session.Sitting B.exact route.now result.marks
        (outside_of D.Door B.Watched door.old backend.old)
        (outside_of D.Door B.Watched door.new backend.new) }

    // Each mark that is not Plain has its cause, counted by the door and the backend.
    ensures causes { HaveCauses route.now.pool result.marks
        (tally_of D.Door B.Watched door.old backend.old)
        (tally_of D.Door B.Watched door.new backend.new) }

    // It says as many looks as the pool is patient, or as many sessions as the door opens.
    ensures marks { AreMarksOf route.now.pool (D.counts door.old).most result.marks }

    // Each search is paid for, and each address that the door named.
    ensures paid { ArePaid (undialled result.end)
        (tally_of D.Door B.Watched door.old backend.old)
        (tally_of D.Door B.Watched door.new backend.new) }
    ensures most { (D.counts door.new).most ≡ (D.counts door.old).most }

    // Over a told pool the sessions that are out are those that were out before, whatever its end.
    ensures seats { AreGivenBack (D.pool door.old) (D.pool door.new) }
{
    serve_client(rt, alloc, route, door, source, sink, backend, clock).came
}

/// What came of a connection, and of its client as far as its Inits told.
#[derive(Drop)]
pub(crate) struct ServedClient {
    pub came: Served,
    /// Whose the client was, once an Init was accepted.
    pub whose: Option<Who>,
    /// How many units it sent.
    pub units: u32,
}

/// Serves a connection, and tells of its client.
pub(crate) fn serve_client<
    R: Wait,
    W: World,
    B: Backend<W>,
    D: Door<W, B::Session>,
    I: Source,
    K: Sink,
    C: Clock,
>(
    rt: &R,
    alloc: Global,
    route: &Route,
    door: &mut D,
    source: &mut I,
    sink: &mut K,
    backend: &mut B,
    clock: &mut C,
) -> ServedClient
    ensures served { IsServed W.World route.now
        (streams I.Source K.Sink source.old sink.old) (streams I.Source K.Sink source.new sink.new)
        result.came.marks result.came.end }
    ensures run { IsRun W.World B.Session.Sitting B.exact route.now result.came.marks
        (outside_of D.Door B.Watched door.old backend.old)
        (outside_of D.Door B.Watched door.new backend.new) }
    ensures causes { HaveCauses route.now.pool result.came.marks
        (tally_of D.Door B.Watched door.old backend.old)
        (tally_of D.Door B.Watched door.new backend.new) }
    ensures marks { AreMarksOf route.now.pool (D.counts door.old).most result.came.marks }
    ensures paid { ArePaid (undialled result.came.end)
        (tally_of D.Door B.Watched door.old backend.old)
        (tally_of D.Door B.Watched door.new backend.new) }
    ensures most { (D.counts door.new).most ≡ (D.counts door.old).most }
    ensures seats { AreGivenBack (D.pool door.old) (D.pool door.new) }
{
    steps_keep_seats::<W, B::Session>();
    connections_give_back::<W, B::Session>();
    let mut conn = Conn::new(alloc);
    let end = serve_to_end(
        rt, alloc, route, &mut conn, door, source, sink, backend, clock,
    );
    conn.give_up(door);
    ServedClient {
        whose: conn.whose(),
        units: conn.units(),
        came: Served {
            marks: conn.into_marks(),
            end,
        },
    }
}

/// Serves a new connection until it ends, and tells how.
fn serve_to_end<
    R: Wait,
    W: World,
    S: Sitting<W>,
    B: Backend<W, Session = S>,
    D: Door<W, S>,
    I: Source,
    K: Sink,
    C: Clock,
>(
    rt: &R,
    alloc: Global,
    route: &Route,
    conn: &mut Conn<W, S>,
    door: &mut D,
    source: &mut I,
    sink: &mut K,
    backend: &mut B,
    clock: &mut C,
) -> End
    requires new { conn.old ≡ nothing_yet new_session }
    ensures served { IsServed W.World route.now
        (streams I.Source K.Sink source.old sink.old) (streams I.Source K.Sink source.new sink.new)
        conn.new.marks result }
    ensures comes { ComesTo W.World S.Sitting B.exact route.now
        (conn_at D.Door B.Watched conn.old door.old backend.old)
        (conn_at D.Door B.Watched conn.new door.new backend.new) }
    ensures causes { HaveCauses route.now.pool conn.new.marks
        (tally_of D.Door B.Watched door.old backend.old)
        (tally_of D.Door B.Watched door.new backend.new) }
    ensures marks { AreMarksOf route.now.pool (D.counts door.old).most conn.new.marks }
    ensures paid { ArePaid (undialled result)
        (tally_of D.Door B.Watched door.old backend.old)
        (tally_of D.Door B.Watched door.new backend.new) }
    ensures most { (D.counts door.new).most ≡ (D.counts door.old).most }
{
    stands_at_start::<W, S>();
    starts_costless::<W, S>();
    costs_nothing::<W, S>();
    pays_on::<W, S>();
    marks_are_met::<W, S>();
    let clock = &mut Ascending::new(clock);
    for _round in 0..u64::MAX {
        if let Some(end) = go_on(rt, alloc, route, conn, door, source, sink, backend, clock) {
            return end;
        }
    }
    End::Memory
}
