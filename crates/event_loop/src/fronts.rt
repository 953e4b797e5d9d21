//! A front over all its connections.

ghost use Rattle.std.specs.Prelude.{◌≡◌};
ghost use Rattle.event_front.specs.conn_served.Costs.{tally_of};
ghost use Rattle.event_front.specs.conn_served.Seats.{AreGivenBack};
ghost use Rattle.event_loop.specs.Fronts.{HasServedTo, IsFrontCaused, front_view};
ghost use Rattle.event_loop.specs.steps.Places.{AreNone};

use crate::Fronted;
use crate::places::Place;
use crate::rounds::{abandon_all, empty_places, make_rounds};
use event_front::conn_served::{Ascending, Listed};
use event_outside::{EdgeAccept, Poller};
use gw_outside::{Backend, Clock};
use pool_sets::Door;
use route_config::Route;
use std::alloc::Global;
use z_types::{Sitting, World};

/// A front: where its connections come from, what it waits by, its sessions with targets, its clock, and
/// what came of the connections that it served.
#[derive(Drop)]
pub struct EventFront<A, P, B, C> {
    /// Where connections come from.
    pub accept: A,
    /// What waits until something may be ready.
    pub poller: P,
    /// Sessions with targets.
    pub backend: B,
    /// The moments by which sessions with targets age.
    pub clock: C,
    /// What came of each connection, in the order in which they ended.
    pub served: Listed,
}

/// Serves connections on one thread, at most so many at a time, until none is left (`Ended`) or, after an
/// accept that failed, until each that is open has ended (`AcceptFailed`). Each round polls every connection
/// of which a poll may find something once, hands back each that has come to its end and lists what came of
/// it, accepts until none has come yet or so many are open, and waits, unless some connection can go on at
/// once. Where a wait fails (`PollFailed`), or no memory can be had to list what comes of one more connection
/// (`Memory`), those that are open are given up and handed back, and nothing is listed of them. A connection
/// that ends without memory does not end the front.
pub fn run_front<
    W: World,
    B: Backend<W>,
    D: Door<W, B::Session>,
    A: EdgeAccept,
    P: Poller,
    C: Clock,
>(
    alloc: Global,
    route: &Route,
    door: &mut D,
    most: usize,
    front: &mut EventFront<A, P, B, C>,
) -> Fronted
    // Each connection that was taken was served, handed back and listed, or given up behind them; the marks
    // of all that are listed have their causes, and what they cost is paid for.
    ensures served { HasServedTo W.World A.In.EdgeSource A.Out.EdgeSink route.now result
        (front_view A.EdgeAccept front.old.served front.old.accept)
        (front_view A.EdgeAccept front.new.served front.new.accept)
        (tally_of D.Door B.Watched door.old front.old.backend)
        (tally_of D.Door B.Watched door.new front.new.backend) }

    // Over a told pool the sessions that are out are those that were out before, whatever the ends.
    ensures seats { AreGivenBack (D.pool door.old) (D.pool door.new) }
    ensures cause { IsFrontCaused result
        (A.faults front.old.accept) (A.faults front.new.accept)
        (P.faults front.old.poller) (P.faults front.new.poller) }
    ensures most { (D.counts door.new).most ≡ (D.counts door.old).most }
{
    serve_places::<W, B::Session, B, D, A, P, C>(
        alloc,
        route,
        door,
        most,
        &mut front.accept,
        &mut front.poller,
        &mut front.backend,
        &mut front.clock,
        &mut front.served,
    )
}

/// Serves connections at so many places.
fn serve_places<
    W: World,
    S: Sitting<W>,
    B: Backend<W, Session = S>,
    D: Door<W, S>,
    A: EdgeAccept,
    P: Poller,
    C: Clock,
>(
    alloc: Global,
    route: &Route,
    door: &mut D,
    most: usize,
    accept: &mut A,
    poller: &mut P,
    backend: &mut B,
    clock: &mut C,
    served: &mut Listed,
) -> Fronted
    ensures served { HasServedTo W.World A.In.EdgeSource A.Out.EdgeSink route.now result
        (front_view A.EdgeAccept served.old accept.old)
        (front_view A.EdgeAccept served.new accept.new)
        (tally_of D.Door B.Watched door.old backend.old)
        (tally_of D.Door B.Watched door.new backend.new) }
    ensures seats { AreGivenBack (D.pool door.old) (D.pool door.new) }
    ensures cause { IsFrontCaused result (A.faults accept.old) (A.faults accept.new)
        (P.faults poller.old) (P.faults poller.new) }
    ensures most { (D.counts door.new).most ≡ (D.counts door.old).most }
{
    match empty_places::<W, S, A>(alloc, most) {
        Ok(mut places) => serve_empty::<W, S, B, D, A, P, Ascending<'_, C>>(
            alloc,
            route,
            places.as_mut_slice(),
            served,
            door,
            accept,
            poller,
            backend,
            &mut Ascending::new(clock),
        ),
        Err(_) => Fronted::Memory,
    }
}

/// Serves connections at places where none is open, and gives up at the end those that are open then.
fn serve_empty<
    W: World,
    S: Sitting<W>,
    B: Backend<W, Session = S>,
    D: Door<W, S>,
    A: EdgeAccept,
    P: Poller,
    C: Clock,
>(
    alloc: Global,
    route: &Route,
    places: &mut [Place<W, S, A>],
    served: &mut Listed,
    door: &mut D,
    accept: &mut A,
    poller: &mut P,
    backend: &mut B,
    clock: &mut C,
) -> Fronted
    requires none { AreNone places.old }
    ensures served { HasServedTo W.World A.In.EdgeSource A.Out.EdgeSink route.now result
        (front_view A.EdgeAccept served.old accept.old)
        (front_view A.EdgeAccept served.new accept.new)
        (tally_of D.Door B.Watched door.old backend.old)
        (tally_of D.Door B.Watched door.new backend.new) }
    ensures seats { AreGivenBack (D.pool door.old) (D.pool door.new) }
    ensures cause { IsFrontCaused result (A.faults accept.old) (A.faults accept.new)
        (P.faults poller.old) (P.faults poller.new) }
    ensures most { (D.counts door.new).most ≡ (D.counts door.old).most }
{
    let fronted = make_rounds::<W, S, B, D, A, P, C>(
        alloc, route, places, served, door, accept, poller, backend, clock,
    );
    abandon_all::<W, S, D, A>(route, places, door, accept);
    fronted
}
