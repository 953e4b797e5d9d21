//! The rounds of a poll: what is out is written, there is a step, and what has come is read where the
//! step found nothing to do.

ghost use Rattle.std.specs.Prelude.{◌≡◌, ◌≤◌, ◌<◌, ℕ, None, Some, length};
ghost use Rattle.z_types.specs.Counts.{Rose};
ghost use Rattle.route_config.specs.declared.route.Route.{Route};
ghost use Rattle.conn_served.specs.Serving.{SinkView, SourceView, Streams};
ghost use Rattle.conn_served.specs.front_conn.steps.Drives.{conn_at};
ghost use Rattle.conn_served.specs.front_conn.steps.States.{IsConnOf};
ghost use Rattle.conn_served.specs.front_conn.steps.Steps.{NothingWaits};
ghost use Rattle.conn_served.specs.steps.Rounds.{GoesSo, IsBetween};
ghost use Rattle.conn_served.specs.steps.Serving.{GoesOn, IsIdle, IsWrittenOut};
ghost use Rattle.event_front.specs.Edges.{looks, sink_view, source_view, streams};
ghost use Rattle.event_front.specs.Polls.{IsFed, MakesFew, Reads, ReadsFew, TakesStep};
ghost use Rattle.event_front.specs.Tasks.{IsOpen, Owes, OwesFew, Stands};
ghost use Rattle.event_front.specs.steps.Rounds.{AwaitsAt, AwaitsSo, LeavesSo, MakesRound, ReadsSo, StandsBehind, WritesSo, end_in, end_of};

use crate::Awaits;
use crate::came::Came;
use conn_served::front_conn::{
    Conn, Stepped, stands_when_ended, stands_when_fed, stands_when_written, stays_of_route,
};
use conn_served::front_conn_costs::{
    costs_nothing, pays_on, steps_cost, steps_meet, steps_owe_few, steps_pay,
};
use conn_served::sru_rules::head_is_refused;
use event_outside::{EdgeGot, EdgeSink, EdgeSource, Wrote, read_few, write_on};
use gw_outside::{Backend, Clock};
use pool_sets::Door;
use route_config::Route;
use std::alloc::Global;
use z_types::{End, Sitting, World};

/// How many octets are read at once, at most.
const PIECE_LEN: usize = 4096;

/// How many octets a poll reads, at most.
const MOST_READ: usize = 65_536;

/// How many steps a poll makes, at most.
const MOST_STEPS: u32 = 1000;

/// Rounds of a connection, until something is awaited, or it has ended, or enough was done for a poll.
pub(crate) fn make_rounds<
    W: World,
    S: Sitting<W>,
    B: Backend<W, Session = S>,
    D: Door<W, S>,
    I: EdgeSource,
    K: EdgeSink,
    C: Clock,
>(
    alloc: Global,
    route: &Route,
    conn: &mut Conn<W, S>,
    input: &mut I,
    output: &mut K,
    written: &mut usize,
    backend: &mut B,
    door: &mut D,
    clock: &mut C,
) -> Came
    requires within { written.old ≤ length conn.old.out }
    requires of { IsConnOf W.World S.Sitting route.now (D.counts door.old).most conn.old }
    ensures within { written.new ≤ length conn.new.out }
    ensures of { IsConnOf W.World S.Sitting route.now (D.counts door.new).most conn.new }
    ensures most { (D.counts door.new).most ≡ (D.counts door.old).most }
    ensures goes { (start : Streams)
        → IsOpen W.World route.now start
        (streams I.EdgeSource K.EdgeSink input.old output.old) conn.old written.old
        → Stands W.World route.now start
        (streams I.EdgeSource K.EdgeSink input.new output.new) conn.new written.new (end_of result) }
    ensures so { GoesSo W.World S.Sitting B.exact route.now
        (conn_at D.Door B.Watched conn.old door.old backend.old)
        (conn_at D.Door B.Watched conn.new door.new backend.new) }
    ensures owes { OwesFew conn.old → Owes conn.new (end_of result) }
    ensures steps { MakesFew W.World S.Sitting B.exact route.now
        (conn_at D.Door B.Watched conn.old door.old backend.old)
        (conn_at D.Door B.Watched conn.new door.new backend.new) }
    ensures reads { ReadsFew (source_view I.EdgeSource input.old)
        (source_view I.EdgeSource input.new) }
    ensures awaits { AwaitsAt W.World S.Sitting B.exact route.now result
        (conn_at D.Door B.Watched conn.old door.old backend.old)
        (conn_at D.Door B.Watched conn.new door.new backend.new)
        (looks I.EdgeSource K.EdgeSink input.old output.old)
        (looks I.EdgeSource K.EdgeSink input.new output.new)
        (source_view I.EdgeSource input.old) (source_view I.EdgeSource input.new) }
{
    costs_nothing::<W, S>();
    pays_on::<W, S>();
    let mut left = MOST_READ;
    for _step in 0..MOST_STEPS {
        let now = clock.now();
        if let Some(came) = make_round(
            alloc, route, conn, input, output, written, &mut left, backend, door, now,
        ) {
            return came;
        }
    }
    Came::To(Awaits::Nothing)
}

/// One round: what is out is written, and where all of it is there is a step. Nothing is told where the
/// connection goes on at once.
fn make_round<
    W: World,
    S: Sitting<W>,
    B: Backend<W, Session = S>,
    D: Door<W, S>,
    I: EdgeSource,
    K: EdgeSink,
>(
    alloc: Global,
    route: &Route,
    conn: &mut Conn<W, S>,
    input: &mut I,
    output: &mut K,
    written: &mut usize,
    left: &mut usize,
    backend: &mut B,
    door: &mut D,
    now: u64,
) -> Option<Came>
    requires within { written.old ≤ length conn.old.out }
    requires of { IsConnOf W.World S.Sitting route.now (D.counts door.old).most conn.old }
    ensures within { written.new ≤ length conn.new.out }
    ensures of { IsConnOf W.World S.Sitting route.now (D.counts door.new).most conn.new }
    ensures most { (D.counts door.new).most ≡ (D.counts door.old).most }
    ensures goes { (start : Streams)
        → IsOpen W.World route.now start
        (streams I.EdgeSource K.EdgeSink input.old output.old) conn.old written.old
        → Stands W.World route.now start
        (streams I.EdgeSource K.EdgeSink input.new output.new) conn.new written.new (end_in result) }
    ensures so { GoesSo W.World S.Sitting B.exact route.now
        (conn_at D.Door B.Watched conn.old door.old backend.old)
        (conn_at D.Door B.Watched conn.new door.new backend.new) }
    ensures owes { OwesFew conn.old → Owes conn.new (end_in result) }
    ensures makes { MakesRound W.World S.Sitting B.exact route.now result
        (conn_at D.Door B.Watched conn.old door.old backend.old)
        (conn_at D.Door B.Watched conn.new door.new backend.new) }
    ensures reads { Reads left.old left.new
        (source_view I.EdgeSource input.old) (source_view I.EdgeSource input.new) }
    ensures awaits { AwaitsSo W.World S.Sitting B.exact route.now result
        (conn_at D.Door B.Watched conn.new door.new backend.new)
        (looks I.EdgeSource K.EdgeSink input.old output.old)
        (looks I.EdgeSource K.EdgeSink input.new output.new) left.new }
    ensures input { I.waits input.old ≤ I.waits input.new }
    ensures output { K.waits output.old ≤ K.waits output.new }
{
    costs_nothing::<W, S>();
    pays_on::<W, S>();
    stays_of_route::<W, S>();
    match write_out(conn, output, written) {
        Wrote::Whole => take_step(alloc, route, conn, input, left, backend, door, now),
        Wrote::NotReady => Some(Came::To(Awaits::Client)),
        Wrote::Failed => Some(Came::End(End::WriteFault)),
    }
}

/// Writes what is out from a place on, and clears it once all is written.
fn write_out<W: World, S: Sitting<W>, K: EdgeSink>(
    conn: &mut Conn<W, S>,
    output: &mut K,
    written: &mut usize,
) -> Wrote
    requires within { written.old ≤ length conn.old.out }
    ensures within { written.new ≤ length conn.new.out }
    ensures leaves { LeavesSo result conn.old conn.new written.new }
    ensures goes { (route : Route) (start : Streams) (input : SourceView)
        → IsOpen W.World route start
        (record { input = input; output = sink_view K.EdgeSink output.old }) conn.old written.old
        → WritesSo W.World route start result
        (record { input = input; output = sink_view K.EdgeSink output.new }) conn.new written.new }
    ensures some { result ≡ Wrote.Failed → written.new < length conn.old.out }
    ensures not_ready { result ≡ Wrote.NotReady → Rose (K.waits output.old) (K.waits output.new) }
    ensures waits { K.waits output.old ≤ K.waits output.new }
{
    stands_when_written::<W, S>();
    match write_on(output, conn.out(), written) {
        Wrote::Whole => {
            *written = 0;
            conn.clear_out();
            Wrote::Whole
        }
        Wrote::NotReady => Wrote::NotReady,
        Wrote::Failed => Wrote::Failed,
    }
}

/// One step of a connection of which nothing is out, and one read where there is nothing to do. Nothing is
/// told where the connection goes on at once.
fn take_step<W: World, S: Sitting<W>, B: Backend<W, Session = S>, D: Door<W, S>, I: EdgeSource>(
    alloc: Global,
    route: &Route,
    conn: &mut Conn<W, S>,
    input: &mut I,
    left: &mut usize,
    backend: &mut B,
    door: &mut D,
    now: u64,
) -> Option<Came>
    requires of { IsConnOf W.World S.Sitting route.now (D.counts door.old).most conn.old }
    ensures of { IsConnOf W.World S.Sitting route.now (D.counts door.new).most conn.new }
    ensures most { (D.counts door.new).most ≡ (D.counts door.old).most }
    ensures goes { (start : Streams) (output : SinkView)
        → IsWrittenOut W.World route.now start
        (record { input = source_view I.EdgeSource input.old; output = output }) conn.old
        → StandsBehind W.World route.now start
        (record { input = source_view I.EdgeSource input.new; output = output })
        conn.new (end_in result) }
    ensures so { GoesSo W.World S.Sitting B.exact route.now
        (conn_at D.Door B.Watched conn.old door.old backend.old)
        (conn_at D.Door B.Watched conn.new door.new backend.new) }
    ensures owes { IsBetween conn.old → Owes conn.new (end_in result) }
    ensures takes { TakesStep W.World S.Sitting B.exact route.now
        (conn_at D.Door B.Watched conn.old door.old backend.old)
        (conn_at D.Door B.Watched conn.new door.new backend.new) }
    ensures reads { Reads left.old left.new
        (source_view I.EdgeSource input.old) (source_view I.EdgeSource input.new) }
    ensures awaits { (from then : ℕ) → AwaitsSo W.World S.Sitting B.exact route.now result
        (conn_at D.Door B.Watched conn.new door.new backend.new)
        (record { input = I.waits input.old; output = from })
        (record { input = I.waits input.new; output = then }) left.new }
    ensures waits { I.waits input.old ≤ I.waits input.new }
{
    steps_cost::<W, S>();
    steps_meet::<W, S>();
    steps_pay::<W, S>();
    steps_owe_few::<W, S>();
    let _ = route.parts();
    match conn.step(alloc, route, backend, door, now) {
        Stepped::Memory => Some(Came::End(End::Memory)),
        Stepped::Idle => end_or_read(conn, input, left),
        Stepped::NotYet => Some(Came::To(Awaits::Target)),
        Stepped::Went => None,
    }
}

/// Tells the end of a connection that has nothing to do, or reads on where it has not ended.
fn end_or_read<W: World, S: Sitting<W>, I: EdgeSource>(
    conn: &mut Conn<W, S>,
    input: &mut I,
    left: &mut usize,
) -> Option<Came>
    requires idle { IsIdle conn.old }
    ensures of { (route : Route) (most : ℕ)
        → IsConnOf W.World S.Sitting route most conn.old
        → IsConnOf W.World S.Sitting route most conn.new }
    ensures goes { (route : Route) (start : Streams) (output : SinkView)
        → IsWrittenOut W.World route start
        (record { input = source_view I.EdgeSource input.old; output = output }) conn.old
        → GoesOn W.World route start
        (record { input = source_view I.EdgeSource input.new; output = output })
        conn.new (end_in result) }
    ensures fed { IsFed Stepped.Idle conn.old conn.new }
    ensures out { conn.new.out ≡ conn.old.out }
    ensures reads { Reads left.old left.new
        (source_view I.EdgeSource input.old) (source_view I.EdgeSource input.new) }
    ensures awaits { ReadsSo result (I.waits input.old) (I.waits input.new) left.new }
    ensures waits { I.waits input.old ≤ I.waits input.new }
{
    match conn.end() {
        Some(end) => Some(Came::End(end)),
        None => read_on(conn, input, left),
    }
}

/// Reads a piece, and feeds it, unless enough was read. After a failed read all that was read is answered.
fn read_on<W: World, S: Sitting<W>, I: EdgeSource>(
    conn: &mut Conn<W, S>,
    input: &mut I,
    left: &mut usize,
) -> Option<Came>
    requires goes_on { conn.old.end ≡ None }
    requires rests { conn.old.in_work ≡ None }
    requires nothing_waits { NothingWaits conn.old }
    ensures of { (route : Route) (most : ℕ)
        → IsConnOf W.World S.Sitting route most conn.old
        → IsConnOf W.World S.Sitting route most conn.new }
    ensures goes { (route : Route) (start : Streams) (output : SinkView)
        → IsWrittenOut W.World route start
        (record { input = source_view I.EdgeSource input.old; output = output }) conn.old
        → GoesOn W.World route start
        (record { input = source_view I.EdgeSource input.new; output = output })
        conn.new (end_in result) }
    ensures fed { IsFed Stepped.Idle conn.old conn.new }
    ensures out { conn.new.out ≡ conn.old.out }
    ensures reads { Reads left.old left.new
        (source_view I.EdgeSource input.old) (source_view I.EdgeSource input.new) }
    ensures awaits { ReadsSo result (I.waits input.old) (I.waits input.new) left.new }
    ensures waits { I.waits input.old ≤ I.waits input.new }
{
    stands_when_fed::<W, S>();
    stands_when_ended::<W, S>();
    stays_of_route::<W, S>();
    head_is_refused::<W>();
    if *left == 0 {
        return Some(Came::To(Awaits::Nothing));
    }
    let mut piece = [0u8; PIECE_LEN];
    match read_few(input, &mut piece, PIECE_LEN.min(*left)) {
        EdgeGot::Bytes(count) => {
            *left -= count;
            match conn.feed(&piece[..count]) {
                Ok(()) => None,
                Err(_) => Some(Came::End(End::Memory)),
            }
        }
        EdgeGot::End => {
            conn.end_input();
            None
        }
        EdgeGot::NotReady => Some(Came::To(Awaits::Client)),
        EdgeGot::Failed => Some(Came::End(End::ReadFault)),
    }
}
