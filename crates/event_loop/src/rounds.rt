//! The rounds of a front: each connection is polled, more are accepted, and the front waits.

ghost use Rattle.std.specs.Prelude.{◌≡◌, ◌≤◌, ℕ, List, IfOk, IfSome, IsTrue, Option, length};
ghost use Rattle.std.specs.List.{sum_by};
ghost use Rattle.z_types.specs.Counts.{Rose};
ghost use Rattle.route_config.specs.declared.route.Route.{Route};
ghost use Rattle.event_front.specs.conn_served.declared.served.Served.{Served};
ghost use Rattle.event_front.specs.conn_served.front_conn.steps.Answering.{Outside};
ghost use Rattle.event_front.specs.conn_served.front_conn.steps.Drives.{outside_of};
ghost use Rattle.event_front.specs.conn_served.leg.Deeds.{BackendView};
ghost use Rattle.event_loop.specs.Fronts.{IsFrontCaused, front_view};
ghost use Rattle.event_loop.specs.steps.Places.{AreNone, ComesTo, EndsSo, GivesAllUp, GoesOnWith, IsOver, IsSomeFront, end_by, open_at, outside_with};

use crate::Fronted;
use crate::places::{Coming, Place, abandon_at, accept_at, serve_at};
use event_front::Awaits;
use event_front::conn_served::Listed;
use event_outside::{EdgeAccept, Poller, Waited};
use gw_outside::{Backend, Clock};
use pool_sets::Door;
use route_config::Route;
use std::alloc::Global;
use z_types::{Memory, Sitting, World};

/// So many places, at which no connection is open.
pub(crate) fn empty_places<W: World, S: Sitting<W>, A: EdgeAccept>(
    alloc: Global,
    most: usize,
) -> Result<Vec<Place<W, S, A>>, Memory>
    ensures most { IfOk result (λ places. length places.items ≡ most) }
    ensures none { IfOk result (λ places. AreNone places.items) }
{
    let mut places = Vec::new(alloc);
    'empty: while places.len() < most {
        places.push(None)?;
    }
    Ok(places)
}

/// Rounds, until no connection is left or something fails.
pub(crate) fn make_rounds<
    W: World,
    S: Sitting<W>,
    B: Backend<W, Session = S>,
    D: Door<W, S>,
    A: EdgeAccept,
    P: Poller,
    C: Clock,
>(
    alloc: Global,
    route: &Route,
    places: &mut [Place<W, S, A>],
    served: &mut Listed,
    door: &mut D,
    accept: &mut A,
    poller: &mut P,
    backend: &mut B,
    clock: &mut C,
) -> Fronted
    requires front { IsSomeFront W.World S.Sitting A.In.EdgeSource A.Out.EdgeSink route.now
        places.old (front_view A.EdgeAccept served.old accept.old)
        (outside_of D.Door B.Watched door.old backend.old) }
    ensures keeps { GoesOnWith W.World S.Sitting A.In.EdgeSource A.Out.EdgeSink route.now
        places.old places.new
        (front_view A.EdgeAccept served.old accept.old)
        (front_view A.EdgeAccept served.new accept.new)
        (outside_of D.Door B.Watched door.old backend.old)
        (outside_of D.Door B.Watched door.new backend.new) }
    ensures over { IsOver result places.new (A.left accept.new) }
    ensures cause { IsFrontCaused result (A.faults accept.old) (A.faults accept.new)
        (P.faults poller.old) (P.faults poller.new) }
{
    let mut coming = Coming::On;
    // A bound that no front reaches, so that rounds end.
    for _round in 0..u64::MAX {
        let targets_are_due = poller.targets_are_due();
        if let Some(how) = make_round::<W, S, B, D, A, P, C>(
            alloc,
            route,
            places,
            served,
            door,
            accept,
            poller,
            backend,
            clock,
            &mut coming,
            targets_are_due,
        ) {
            return how;
        }
    }
    Fronted::Memory
}

/// One round: connections are served on, more are accepted, and the front waits. Tells how it ends, if it does.
fn make_round<
    W: World,
    S: Sitting<W>,
    B: Backend<W, Session = S>,
    D: Door<W, S>,
    A: EdgeAccept,
    P: Poller,
    C: Clock,
>(
    alloc: Global,
    route: &Route,
    places: &mut [Place<W, S, A>],
    served: &mut Listed,
    door: &mut D,
    accept: &mut A,
    poller: &mut P,
    backend: &mut B,
    clock: &mut C,
    coming: &mut Coming,
    targets_are_due: bool,
) -> Option<Fronted>
    requires front { IsSomeFront W.World S.Sitting A.In.EdgeSource A.Out.EdgeSink route.now
        places.old (front_view A.EdgeAccept served.old accept.old)
        (outside_of D.Door B.Watched door.old backend.old) }
    ensures keeps { GoesOnWith W.World S.Sitting A.In.EdgeSource A.Out.EdgeSink route.now
        places.old places.new
        (front_view A.EdgeAccept served.old accept.old)
        (front_view A.EdgeAccept served.new accept.new)
        (outside_of D.Door B.Watched door.old backend.old)
        (outside_of D.Door B.Watched door.new backend.new) }
    ensures comes { (from : ℕ) → from ≤ A.faults accept.old
        → ComesTo coming.old from (A.faults accept.old) (A.left accept.old)
        → ComesTo coming.new from (A.faults accept.new) (A.left accept.new) }
    ensures ends { (from : ℕ) → ComesTo coming.new from (A.faults accept.new) (A.left accept.new)
        → IfSome result (λ how. EndsSo how places.new from (A.faults accept.new)
        (P.faults poller.old) (P.faults poller.new) (A.left accept.new)) }
    ensures faults { A.faults accept.old ≤ A.faults accept.new }
    ensures polls { P.faults poller.old ≤ P.faults poller.new }
{
    if serve_all::<W, S, B, D, A, C>(
        alloc,
        route,
        places,
        served,
        door,
        accept,
        backend,
        clock,
        targets_are_due,
    )
    .is_err()
    {
        return Some(Fronted::Memory);
    }
    *coming = come_on::<W, S, A>(alloc, places, accept, *coming);
    end_or_wait::<W, S, A, P>(places, poller, *coming)
}

/// How a front ends where no more connections come and none is open. Else it waits, and ends where that fails.
fn end_or_wait<W: World, S: Sitting<W>, A: EdgeAccept, P: Poller>(
    places: &[Place<W, S, A>],
    poller: &mut P,
    coming: Coming,
) -> Option<Fronted>
    ensures ends { (from then : ℕ) (left : Option ℕ) → ComesTo coming from then left
        → IfSome result (λ how. EndsSo how places.now from then
        (P.faults poller.old) (P.faults poller.new) left) }
    ensures polls { P.faults poller.old ≤ P.faults poller.new }
{
    match end_of::<W, S, A>(places, coming) {
        Some(how) => Some(how),
        None => match wait_on::<W, S, A, P>(places, poller) {
            Waited::Ready => None,
            Waited::Failed => Some(Fronted::PollFailed),
        },
    }
}

/// How a front ends where no more connections come and none is open.
fn end_of<W: World, S: Sitting<W>, A: EdgeAccept>(
    places: &[Place<W, S, A>],
    coming: Coming,
) -> Option<Fronted>
    ensures { (from then polls polled : ℕ) (left : Option ℕ) → ComesTo coming from then left
        → IfSome result (λ how. EndsSo how places.now from then polls polled left) }
{
    if coming == Coming::On {
        return None;
    }
    if none_is_open::<W, S, A>(places) {
        end_by(coming)
    } else {
        None
    }
}

/// How a front ends once no connection is open, where no more come.
fn end_by(coming: Coming) -> Option<Fronted>
    ensures { result ≡ end_by coming }
{
    match coming {
        Coming::On => None,
        Coming::Ended => Some(Fronted::Ended),
        Coming::Failed => Some(Fronted::AcceptFailed),
    }
}

/// Serves each connection on. Each that has come to its end is handed back, and what came of it is listed.
fn serve_all<
    W: World,
    S: Sitting<W>,
    B: Backend<W, Session = S>,
    D: Door<W, S>,
    A: EdgeAccept,
    C: Clock,
>(
    alloc: Global,
    route: &Route,
    places: &mut [Place<W, S, A>],
    served: &mut Listed,
    door: &mut D,
    accept: &mut A,
    backend: &mut B,
    clock: &mut C,
    targets_are_due: bool,
) -> Result<(), Memory>
    requires front { IsSomeFront W.World S.Sitting A.In.EdgeSource A.Out.EdgeSink route.now
        places.old (front_view A.EdgeAccept served.old accept.old)
        (outside_of D.Door B.Watched door.old backend.old) }
    ensures keeps { GoesOnWith W.World S.Sitting A.In.EdgeSource A.Out.EdgeSink route.now
        places.old places.new
        (front_view A.EdgeAccept served.old accept.old)
        (front_view A.EdgeAccept served.new accept.new)
        (outside_of D.Door B.Watched door.old backend.old)
        (outside_of D.Door B.Watched door.new backend.new) }
    ensures left { A.left accept.new ≡ A.left accept.old }
    ensures faults { A.faults accept.new ≡ A.faults accept.old }
{
    for place in 0..places.len() {
        serve_at::<W, S, B, D, A, C>(
            alloc,
            route,
            &mut places[place],
            served,
            door,
            accept,
            backend,
            clock,
            targets_are_due,
        )?;
    }
    Ok(())
}

/// Accepts more, where more may come.
fn come_on<W: World, S: Sitting<W>, A: EdgeAccept>(
    alloc: Global,
    places: &mut [Place<W, S, A>],
    accept: &mut A,
    coming: Coming,
) -> Coming
    ensures keeps { (route : Route) (served : List Served) (here : Outside S)
        → GoesOnWith W.World S.Sitting A.In.EdgeSource A.Out.EdgeSink route
        places.old places.new
        (front_view A.EdgeAccept served accept.old)
        (front_view A.EdgeAccept served accept.new) here here }
    ensures comes { (from : ℕ) → from ≤ A.faults accept.old
        → ComesTo coming from (A.faults accept.old) (A.left accept.old)
        → ComesTo result from (A.faults accept.new) (A.left accept.new) }
    ensures faults { A.faults accept.old ≤ A.faults accept.new }
{
    match coming {
        Coming::On => accept_more::<W, S, A>(alloc, places, accept),
        _ => coming,
    }
}

/// Accepts until none has come yet, or a connection is open at each place.
fn accept_more<W: World, S: Sitting<W>, A: EdgeAccept>(
    alloc: Global,
    places: &mut [Place<W, S, A>],
    accept: &mut A,
) -> Coming
    ensures keeps { (route : Route) (served : List Served) (here : Outside S)
        → GoesOnWith W.World S.Sitting A.In.EdgeSource A.Out.EdgeSink route
        places.old places.new
        (front_view A.EdgeAccept served accept.old)
        (front_view A.EdgeAccept served accept.new) here here }
    ensures comes { ComesTo result (A.faults accept.old) (A.faults accept.new)
        (A.left accept.new) }
    ensures faults { A.faults accept.old ≤ A.faults accept.new }
{
    for place in 0..places.len() {
        if let Some(coming) = accept_at::<W, S, A>(alloc, &mut places[place], accept) {
            return coming;
        }
    }
    Coming::On
}

/// Whether no connection is open.
fn none_is_open<W: World, S: Sitting<W>, A: EdgeAccept>(places: &[Place<W, S, A>]) -> bool
    ensures { IsTrue result → sum_by open_at places.now ≡ 0 }
{
    for place in 0..places.len() {
        if places[place].is_some() {
            return false;
        }
    }
    true
}

/// Waits, unless some connection can go on at once.
fn wait_on<W: World, S: Sitting<W>, A: EdgeAccept, P: Poller>(
    places: &[Place<W, S, A>],
    poller: &mut P,
) -> Waited
    ensures failed { result ≡ Waited.Failed → Rose (P.faults poller.old) (P.faults poller.new) }
    ensures faults { P.faults poller.old ≤ P.faults poller.new }
{
    if goes_on_at_once::<W, S, A>(places) {
        return Waited::Ready;
    }
    poller.wait(is_busy::<W, S, A>(places))
}

/// Whether some connection awaits nothing, since its last poll stopped at a bound, or it was not polled yet.
fn goes_on_at_once<W: World, S: Sitting<W>, A: EdgeAccept>(places: &[Place<W, S, A>]) -> bool {
    places.iter().any(|place| {
        place
            .as_ref()
            .is_some_and(|task| task.awaits() == Awaits::Nothing)
    })
}

/// Whether some connection goes on though no client does anything.
fn is_busy<W: World, S: Sitting<W>, A: EdgeAccept>(places: &[Place<W, S, A>]) -> bool {
    places
        .iter()
        .any(|place| place.as_ref().is_some_and(|task| task.is_busy()))
}

/// Gives up each connection that is open, and hands it back.
pub(crate) fn abandon_all<W: World, S: Sitting<W>, D: Door<W, S>, A: EdgeAccept>(
    route: &Route,
    places: &mut [Place<W, S, A>],
    door: &mut D,
    accept: &mut A,
)
    requires front { (served : List Served) × (backend : BackendView)
        × IsSomeFront W.World S.Sitting A.In.EdgeSource A.Out.EdgeSink route.now
        places.old (front_view A.EdgeAccept served accept.old)
        (outside_with D.Door door.old backend) }
    ensures gives { (served : List Served) (backend : BackendView)
        → GivesAllUp W.World S.Sitting A.In.EdgeSource A.Out.EdgeSink route.now places.old
        (front_view A.EdgeAccept served accept.old)
        (front_view A.EdgeAccept served accept.new)
        (outside_with D.Door door.old backend) (outside_with D.Door door.new backend) }
    ensures left { A.left accept.new ≡ A.left accept.old }
    ensures faults { A.faults accept.new ≡ A.faults accept.old }
{
    for place in 0..places.len() {
        abandon_at::<W, S, D, A>(route, &mut places[place], door, accept);
    }
}
