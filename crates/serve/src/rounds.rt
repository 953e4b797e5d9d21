//! The rounds of serving a connection: a step or a request that is driven, and what is written or read
//! behind it.

ghost use Rattle.std.specs.Prelude.{◌≡◌, ℕ, None};
ghost use Rattle.route_config.specs.declared.route.Route.{Route};
ghost use Rattle.conn_served.specs.Serving.{SinkView, SourceView, Streams, sink_view, source_view, streams};
ghost use Rattle.conn_served.specs.Runs.{IsCalm};
ghost use Rattle.conn_served.specs.steps.Rounds.{IsRound, IsWritten};
ghost use Rattle.conn_served.specs.steps.Serving.{GoesOn, IsIdle, IsServing, IsWrittenOut};
ghost use Rattle.conn_served.specs.front_conn.steps.Drives.{IsInWork, conn_at};
ghost use Rattle.conn_served.specs.front_conn.steps.States.{IsConnOf};
ghost use Rattle.conn_served.specs.front_conn.steps.Steps.{NothingWaits};

use conn_served::front_conn::{
    Conn, Stepped, stands_when_ended, stands_when_fed, stands_when_written, stays_of_route,
};
use conn_served::front_conn_costs::{
    costs_nothing, pays_on, steps_cost, steps_meet, steps_owe_few, steps_pay,
};
use conn_served::sru_rules::head_is_refused;
use gw_outside::{Backend, Clock, Got, Sink, Source, write_all};
use pool_sets::Door;
use route_config::Route;
use std::alloc::Global;
use std::sync::Wait;
use z_types::{End, Sitting, World};

/// How many octets are read at once, at most.
const PIECE_LEN: usize = 4096;

/// One round of a connection: where a request is in work it is driven, and else there is a step. Tells the
/// end, where the connection has ended.
pub(crate) fn go_on<
    R: Wait,
    W: World,
    S: Sitting<W>,
    B: Backend<W, Session = S>,
    D: Door<W, S>,
    I: Source,
    K: Sink,
    C: Clock,
>(
    rt: &R,
    alloc: Global,
    route: &Route,
    conn: &mut Conn<W, S>,
    door: &mut D,
    source: &mut I,
    sink: &mut K,
    backend: &mut B,
    clock: &mut C,
) -> Option<End>
    requires of { IsConnOf W.World S.Sitting route.now (D.counts door.old).most conn.old }
    ensures of { IsConnOf W.World S.Sitting route.now (D.counts door.new).most conn.new }
    ensures most { (D.counts door.new).most ≡ (D.counts door.old).most }
    ensures goes { (start : Streams)
        → IsWrittenOut W.World route.now start
        (streams I.Source K.Sink source.old sink.old) conn.old
        → GoesOn W.World route.now start
        (streams I.Source K.Sink source.new sink.new) conn.new result }
    ensures round { IsRound W.World S.Sitting B.exact route.now
        (conn_at D.Door B.Watched conn.old door.old backend.old)
        (conn_at D.Door B.Watched conn.new door.new backend.new) result }
{
    if conn.is_in_work() {
        return drive_on(rt, alloc, route, conn, door, sink, backend, clock);
    }
    let now = clock.now();
    step_on(alloc, route, conn, door, source, sink, backend, now)
}

/// Drives the request in work until it is answered, and writes the reply. Tells the end, where the
/// connection has ended.
fn drive_on<
    R: Wait,
    W: World,
    S: Sitting<W>,
    B: Backend<W, Session = S>,
    D: Door<W, S>,
    K: Sink,
    C: Clock,
>(
    rt: &R,
    alloc: Global,
    route: &Route,
    conn: &mut Conn<W, S>,
    door: &mut D,
    sink: &mut K,
    backend: &mut B,
    clock: &mut C,
) -> Option<End>
    requires in_work { IsInWork conn.old }
    requires of { IsConnOf W.World S.Sitting route.now (D.counts door.old).most conn.old }
    ensures of { IsConnOf W.World S.Sitting route.now (D.counts door.new).most conn.new }
    ensures most { (D.counts door.new).most ≡ (D.counts door.old).most }
    ensures goes { (start : Streams) (input : SourceView)
        → IsWrittenOut W.World route.now start
        (record { input = input; output = sink_view K.Sink sink.old }) conn.old
        → GoesOn W.World route.now start
        (record { input = input; output = sink_view K.Sink sink.new }) conn.new result }
    ensures round { IsRound W.World S.Sitting B.exact route.now
        (conn_at D.Door B.Watched conn.old door.old backend.old)
        (conn_at D.Door B.Watched conn.new door.new backend.new) result }
{
    costs_nothing::<W, S>();
    pays_on::<W, S>();
    steps_meet::<W, S>();
    steps_pay::<W, S>();
    steps_owe_few::<W, S>();
    match conn.drive(rt, alloc, route, backend, door, clock) {
        Ok(()) => write_out(conn, sink),
        Err(_) => Some(End::Memory),
    }
}

/// One step of a connection, whose replies are written, or one read where there is nothing to do. Tells
/// the end, where the connection has ended.
fn step_on<W: World, S: Sitting<W>, B: Backend<W, Session = S>, D: Door<W, S>, I: Source, K: Sink>(
    alloc: Global,
    route: &Route,
    conn: &mut Conn<W, S>,
    door: &mut D,
    source: &mut I,
    sink: &mut K,
    backend: &mut B,
    now: u64,
) -> Option<End>
    requires of { IsConnOf W.World S.Sitting route.now (D.counts door.old).most conn.old }
    ensures of { IsConnOf W.World S.Sitting route.now (D.counts door.new).most conn.new }
    ensures most { (D.counts door.new).most ≡ (D.counts door.old).most }
    ensures goes { (start : Streams)
        → IsWrittenOut W.World route.now start
        (streams I.Source K.Sink source.old sink.old) conn.old
        → GoesOn W.World route.now start
        (streams I.Source K.Sink source.new sink.new) conn.new result }
    ensures round { IsRound W.World S.Sitting B.exact route.now
        (conn_at D.Door B.Watched conn.old door.old backend.old)
        (conn_at D.Door B.Watched conn.new door.new backend.new) result }
{
    steps_cost::<W, S>();
    steps_meet::<W, S>();
    steps_pay::<W, S>();
    steps_owe_few::<W, S>();
    let _ = route.parts();
    match conn.step(alloc, route, backend, door, now) {
        Stepped::Memory => Some(End::Memory),
        Stepped::Idle => end_or_read(conn, source),
        Stepped::NotYet => None,
        Stepped::Went => write_out(conn, sink),
    }
}

/// Writes what is to be written, if there is something.
fn write_out<W: World, S: Sitting<W>, K: Sink>(conn: &mut Conn<W, S>, sink: &mut K) -> Option<End>
    ensures of { (route : Route) (most : ℕ)
        → IsConnOf W.World S.Sitting route most conn.old
        → IsConnOf W.World S.Sitting route most conn.new }
    ensures goes { (route : Route) (start : Streams) (input : SourceView)
        → IsServing W.World route start
        (record { input = input; output = sink_view K.Sink sink.old }) conn.old
        → GoesOn W.World route start
        (record { input = input; output = sink_view K.Sink sink.new }) conn.new result }
    ensures calm { IsCalm conn.old conn.new }
    ensures written { IsWritten conn.old conn.new result }
{
    stands_when_written::<W, S>();
    stays_of_route::<W, S>();
    if conn.out().is_empty() {
        return None;
    }
    if !write_all(sink, conn.out()) {
        return Some(End::WriteFault);
    }
    conn.clear_out();
    None
}

/// Tells the end of a connection that has nothing to do, or reads on where it has not ended.
fn end_or_read<W: World, S: Sitting<W>, I: Source>(
    conn: &mut Conn<W, S>,
    source: &mut I,
) -> Option<End>
    requires idle { IsIdle conn.old }
    ensures of { (route : Route) (most : ℕ)
        → IsConnOf W.World S.Sitting route most conn.old
        → IsConnOf W.World S.Sitting route most conn.new }
    ensures goes { (route : Route) (start : Streams) (output : SinkView)
        → IsWrittenOut W.World route start
        (record { input = source_view I.Source source.old; output = output }) conn.old
        → GoesOn W.World route start
        (record { input = source_view I.Source source.new; output = output }) conn.new result }
    ensures calm { IsCalm conn.old conn.new }
    ensures out { conn.new.out ≡ conn.old.out }
{
    match conn.end() {
        Some(end) => Some(end),
        None => read_on(conn, source),
    }
}

/// Reads a piece, and feeds it. After a failed read all that was read is answered.
fn read_on<W: World, S: Sitting<W>, I: Source>(conn: &mut Conn<W, S>, source: &mut I) -> Option<End>
    requires goes_on { conn.old.end ≡ None }
    requires rests { conn.old.in_work ≡ None }
    requires nothing_waits { NothingWaits conn.old }
    ensures of { (route : Route) (most : ℕ)
        → IsConnOf W.World S.Sitting route most conn.old
        → IsConnOf W.World S.Sitting route most conn.new }
    ensures goes { (route : Route) (start : Streams) (output : SinkView)
        → IsWrittenOut W.World route start
        (record { input = source_view I.Source source.old; output = output }) conn.old
        → GoesOn W.World route start
        (record { input = source_view I.Source source.new; output = output }) conn.new result }
    ensures calm { IsCalm conn.old conn.new }
    ensures out { conn.new.out ≡ conn.old.out }
{
    stands_when_fed::<W, S>();
    stands_when_ended::<W, S>();
    stays_of_route::<W, S>();
    head_is_refused::<W>();
    let mut piece = [0u8; PIECE_LEN];
    match source.read(&mut piece) {
        Got::Bytes(count) => match conn.feed(&piece[..count]) {
            Ok(()) => None,
            Err(_) => Some(End::Memory),
        },
        Got::End => {
            conn.end_input();
            None
        }
        Got::Failed => Some(End::ReadFault),
    }
}
