//! The place of a connection: it is put there, polled, and handed back or given up.

ghost use Rattle.std.specs.Prelude.{◌≡◌, ◌≤◌, ◌<◌, List, length, IfErr, IfSome, IsSome, IsTrue, None, Some};
ghost use Rattle.std.specs.Result.{result_ok};
ghost use Rattle.route_config.specs.declared.route.Route.{Route};
ghost use Rattle.event_front.specs.conn_served.declared.served.Served.{Served};
ghost use Rattle.event_front.specs.conn_served.front_conn.steps.Answering.{Outside};
ghost use Rattle.event_front.specs.conn_served.front_conn.steps.Drives.{outside_of};
ghost use Rattle.event_front.specs.conn_served.front_conn.steps.States.{IsConnOf};
ghost use Rattle.event_front.specs.conn_served.front_conn_costs.steps.Growth.{last64};
ghost use Rattle.event_front.specs.conn_served.leg.Deeds.{BackendView};
ghost use Rattle.event_loop.specs.Fronts.{FrontView, front_view};
ghost use Rattle.event_loop.specs.steps.Places.{ComesTo, GivesUp, HasEndedAt, ServesOn, outside_with};

use crate::tasks::poll_task;
use event_front::ConnTask;
use event_front::conn_served::Listed;
use event_front::conn_served::front_conn_costs::{marks_are_met, starts_costless};
use event_front::conn_served::front_conn_seats::{connections_give_back, steps_keep_seats};
use event_outside::{EdgeAccept, EdgeAccepted};
use gw_outside::{Backend, Came, Clock};
use pool_sets::Door;
use route_config::Route;
use std::alloc::Global;
use z_types::{Memory, Sitting, World};

/// A place: a connection that is open, or none.
pub(crate) type Place<W, S, A> = Option<
    ConnTask<W, S, <A as EdgeAccept>::In, <A as EdgeAccept>::Out>,
>;

/// Where connections still come from.
#[derive(Clone, Copy, PartialEq, Eq, Debug)]
pub(crate) enum Coming {
    /// More may come.
    On,
    /// None is left.
    Ended,
    /// An accept failed.
    Failed,
}

/// Serves the connection of a place on, where one is open and a poll may find something. Once it has come to its
/// end it is handed back, and what came of it is listed; without memory to list it, it stays.
pub(crate) fn serve_at<
    W: World,
    S: Sitting<W>,
    B: Backend<W, Session = S>,
    D: Door<W, S>,
    A: EdgeAccept,
    C: Clock,
>(
    alloc: Global,
    route: &Route,
    place: &mut Place<W, S, A>,
    served: &mut Listed,
    door: &mut D,
    accept: &mut A,
    backend: &mut B,
    clock: &mut C,
    targets_are_due: bool,
) -> Result<(), Memory>
    requires of { IfSome place.old (λ task.
        IsConnOf W.World S.Sitting route.now (D.counts door.old).most task.conn) }
    requires out { IsSome place.old → IfSome (A.out accept.old) (λ count. 0 < count) }
    ensures keeps { ServesOn W.World S.Sitting A.In.EdgeSource A.Out.EdgeSink route.now
        place.old place.new
        (front_view A.EdgeAccept served.old accept.old)
        (front_view A.EdgeAccept served.new accept.new)
        (outside_of D.Door B.Watched door.old backend.old)
        (outside_of D.Door B.Watched door.new backend.new) }
    ensures left { A.left accept.new ≡ A.left accept.old }
    ensures faults { A.faults accept.new ≡ A.faults accept.old }
{
    if poll_at::<W, S, B, D, A, C>(alloc, route, place, door, backend, clock, targets_are_due) {
        end_at::<W, S, D, A>(route, place, served, door, accept)
    } else {
        Ok(())
    }
}

/// Polls the connection of a place, where one is open. Tells whether it has come to its end.
fn poll_at<
    W: World,
    S: Sitting<W>,
    B: Backend<W, Session = S>,
    D: Door<W, S>,
    A: EdgeAccept,
    C: Clock,
>(
    alloc: Global,
    route: &Route,
    place: &mut Place<W, S, A>,
    door: &mut D,
    backend: &mut B,
    clock: &mut C,
    targets_are_due: bool,
) -> bool
    requires of { IfSome place.old (λ task.
        IsConnOf W.World S.Sitting route.now (D.counts door.old).most task.conn) }
    ensures keeps { (now : FrontView A.In A.Out)
        → ServesOn W.World S.Sitting A.In.EdgeSource A.Out.EdgeSink route.now
        place.old place.new now now
        (outside_of D.Door B.Watched door.old backend.old)
        (outside_of D.Door B.Watched door.new backend.new) }
    ensures open { IsSome place.new → IsSome place.old }
    ensures ended { IsTrue result → HasEndedAt place.new }
{
    steps_keep_seats::<W, S>();
    connections_give_back::<W, S>();
    match place {
        Some(task) => poll_task(alloc, route, task, door, backend, clock, targets_are_due),
        None => false,
    }
}

/// Hands back the connection of a place, which has come to its end, and lists what came of it. Without memory
/// to list it, it stays.
fn end_at<W: World, S: Sitting<W>, D: Door<W, S>, A: EdgeAccept>(
    route: &Route,
    place: &mut Place<W, S, A>,
    served: &mut Listed,
    door: &mut D,
    accept: &mut A,
) -> Result<(), Memory>
    requires ended { HasEndedAt place.old }
    requires out { IfSome (A.out accept.old) (λ count. 0 < count) }
    ensures keeps { (backend : BackendView)
        → ServesOn W.World S.Sitting A.In.EdgeSource A.Out.EdgeSink route.now
        place.old place.new
        (front_view A.EdgeAccept served.old accept.old)
        (front_view A.EdgeAccept served.new accept.new)
        (outside_with D.Door door.old backend) (outside_with D.Door door.new backend) }
    ensures left { A.left accept.new ≡ A.left accept.old }
    ensures faults { A.faults accept.new ≡ A.faults accept.old }
{
    served.make_room()?;
    hand_back::<W, S, D, A>(route, place, served, door, accept);
    Ok(())
}

/// Hands back the connection of a place, which has come to its end, and lists what came of it.
fn hand_back<W: World, S: Sitting<W>, D: Door<W, S>, A: EdgeAccept>(
    route: &Route,
    place: &mut Place<W, S, A>,
    served: &mut Listed,
    door: &mut D,
    accept: &mut A,
)
    requires ended { HasEndedAt place.old }
    requires room { length served.old < last64 }
    requires out { IfSome (A.out accept.old) (λ count. 0 < count) }
    ensures keeps { (backend : BackendView)
        → ServesOn W.World S.Sitting A.In.EdgeSource A.Out.EdgeSink route.now
        place.old place.new
        (front_view A.EdgeAccept served.old accept.old)
        (front_view A.EdgeAccept served.new accept.new)
        (outside_with D.Door door.old backend) (outside_with D.Door door.new backend) }
    ensures left { A.left accept.new ≡ A.left accept.old }
    ensures faults { A.faults accept.new ≡ A.faults accept.old }
{
    marks_are_met::<W, S>();
    connections_give_back::<W, S>();
    if let Some(task) = place.take() {
        let (whose, cached) = (task.whose(route), task.cached());
        let (came, input, output) = task.into_parts(door);
        accept.close(
            input,
            output,
            Came {
                marks: came.marks.as_slice(),
                end: Some(came.end),
                whose,
                cached,
            },
        );
        served.push(came);
    }
}

/// Puts the next connection at a place where none is open, if one has come. Tells where connections come from, if
/// none came.
pub(crate) fn accept_at<W: World, S: Sitting<W>, A: EdgeAccept>(
    alloc: Global,
    place: &mut Place<W, S, A>,
    accept: &mut A,
) -> Option<Coming>
    ensures keeps { (route : Route) (served : List Served) (here : Outside S)
        → ServesOn W.World S.Sitting A.In.EdgeSource A.Out.EdgeSink route
        place.old place.new
        (front_view A.EdgeAccept served accept.old)
        (front_view A.EdgeAccept served accept.new) here here }
    ensures comes { IfSome result (λ coming.
        ComesTo coming (A.faults accept.old) (A.faults accept.new) (A.left accept.new)) }
    ensures faults { A.faults accept.old ≤ A.faults accept.new }
{
    if place.is_some() {
        return None;
    }
    match accept_one::<W, S, A>(alloc, accept) {
        Ok(task) => {
            put::<W, S, A>(place, task);
            None
        }
        Err(coming) => Some(coming),
    }
}

/// The next connection, or where connections come from, if none came. A place where none is open may be filled
/// with what is given.
fn accept_one<W: World, S: Sitting<W>, A: EdgeAccept>(
    alloc: Global,
    accept: &mut A,
) -> Result<ConnTask<W, S, A::In, A::Out>, Coming>
    ensures keeps { (route : Route) (served : List Served) (here : Outside S)
        → ServesOn W.World S.Sitting A.In.EdgeSource A.Out.EdgeSink route
        None (result_ok result)
        (front_view A.EdgeAccept served accept.old)
        (front_view A.EdgeAccept served accept.new) here here }
    ensures comes { IfErr result (λ coming.
        ComesTo coming (A.faults accept.old) (A.faults accept.new) (A.left accept.new)) }
    ensures faults { A.faults accept.old ≤ A.faults accept.new }
{
    starts_costless::<W, S>();
    match accept.accept() {
        EdgeAccepted::Connection(input, output) => Ok(ConnTask::new(alloc, input, output)),
        EdgeAccepted::NotReady => Err(Coming::On),
        EdgeAccepted::Ended => Err(Coming::Ended),
        EdgeAccepted::Failed => Err(Coming::Failed),
    }
}

/// Puts a connection at a place.
fn put<W: World, S: Sitting<W>, A: EdgeAccept>(
    place: &mut Place<W, S, A>,
    task: ConnTask<W, S, A::In, A::Out>,
)
    ensures { place.new ≡ Some task }
{
    drop(place.replace(task));
}

/// Gives up the connection of a place, if one is open, and hands it back.
pub(crate) fn abandon_at<W: World, S: Sitting<W>, D: Door<W, S>, A: EdgeAccept>(
    route: &Route,
    place: &mut Place<W, S, A>,
    door: &mut D,
    accept: &mut A,
)
    requires out { IsSome place.old → IfSome (A.out accept.old) (λ count. 0 < count) }
    ensures gives { (served : List Served) (backend : BackendView)
        → GivesUp W.World S.Sitting A.In.EdgeSource A.Out.EdgeSink route.now place.old
        (front_view A.EdgeAccept served accept.old)
        (front_view A.EdgeAccept served accept.new)
        (outside_with D.Door door.old backend) (outside_with D.Door door.new backend) }
    ensures none { place.new ≡ None }
    ensures left { A.left accept.new ≡ A.left accept.old }
    ensures faults { A.faults accept.new ≡ A.faults accept.old }
{
    connections_give_back::<W, S>();
    if let Some(task) = place.take() {
        let (whose, cached) = (task.whose(route), task.cached());
        let (input, output) = task.abandon(door);
        accept.close(
            input,
            output,
            Came {
                marks: &[],
                end: None,
                whose,
                cached,
            },
        );
    }
}
