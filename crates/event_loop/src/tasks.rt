//! One connection of a front: it is polled, where a poll may find something.

ghost use Rattle.std.specs.Prelude.{◌≡◌, ℕ, Option, IsSome, IsTrue};
ghost use Rattle.event_front.specs.conn_served.front_conn.steps.Drives.{conn_at};
ghost use Rattle.event_front.specs.conn_served.front_conn.steps.States.{IsConnOf};
ghost use Rattle.event_front.specs.conn_served.steps.Rounds.{GoesSo};
ghost use Rattle.event_loop.specs.steps.Places.{IsTask};

use event_front::conn_served::front_conn_costs::costs_nothing;
use event_front::{ConnTask, Polled};
use event_outside::{EdgeSink, EdgeSource};
use gw_outside::{Backend, Clock};
use pool_sets::Door;
use route_config::Route;
use std::alloc::Global;
use z_types::{Sitting, World};

/// Polls a connection, unless a poll can find nothing. Tells whether it has come to its end.
pub(crate) fn poll_task<
    W: World,
    S: Sitting<W>,
    B: Backend<W, Session = S>,
    D: Door<W, S>,
    I: EdgeSource,
    K: EdgeSink,
    C: Clock,
>(
    alloc: Global,
    route: &Route,
    task: &mut ConnTask<W, S, I, K>,
    door: &mut D,
    backend: &mut B,
    clock: &mut C,
    targets_are_due: bool,
) -> bool
    requires of { IsConnOf W.World S.Sitting route.now (D.counts door.old).most task.old.conn }
    ensures task { (left : Option ℕ)
        → IsTask W.World S.Sitting I.EdgeSource K.EdgeSink route.now left
        (D.counts door.old).most task.old
        → IsTask W.World S.Sitting I.EdgeSource K.EdgeSink route.now left
        (D.counts door.old).most task.new }
    ensures so { GoesSo W.World S.Sitting B.exact route.now
        (conn_at D.Door B.Watched task.old.conn door.old backend.old)
        (conn_at D.Door B.Watched task.new.conn door.new backend.new) }
    ensures most { (D.counts door.new).most ≡ (D.counts door.old).most }
    ensures ended { IsTrue result → IsSome task.new.ended }
{
    costs_nothing::<W, S>();
    if !task.may_go_on(targets_are_due) {
        return false;
    }
    match task.poll(alloc, route, backend, door, clock) {
        Polled::Pending => false,
        Polled::Ready => true,
        Polled::Memory => true,
    }
}
