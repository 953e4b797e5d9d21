//! The legs of a request as a future.

ghost use Rattle.std.specs.Prelude.{◌≡◌, All, map};
ghost use Rattle.futures.specs.Poll.{IfReady, OnPending};
ghost use Rattle.futures.specs.Task.{Covers, Keeps};
ghost use Rattle.leg.specs.Turns.{IsLegOf};
ghost use Rattle.package.specs.steps.Packages.{asked_of};
ghost use Rattle.package.specs.steps.Flights.{Gives, IsPoll};

use crate::answers::take_answers;
use crate::rounds::turn_all;
use crate::turning::all_done;
use futures::Future;
use futures::task::{Context, Poll};
use gw_outside::{Backend, Clock};
use leg::{Account, Leg, LegAnswer};
use pool_sets::Door;
use route_config::Route;
use std::alloc::Global;
use z_types::{List, Memory, Sitting, World};

/// All legs of a request in flight. A poll reads the clock and turns each leg that is not done once, in
/// their order; while some are not done it asks to be polled again. It is ready once all are done: with
/// their answers in their order, and the list that was lent is then empty. Where a turn lacked memory,
/// or there is none for the answers, it is ready with `Memory`: the legs stand in the list that was
/// lent, and are to be given up.
#[derive(Drop)]
pub struct AllLegs<'a, W: World, B: Backend<W>, D: Door<W, B::Session>, C: Clock> {
    alloc: Global,
    legs: &'a mut List<Leg<W, B::Session>>,
    route: &'a Route,
    backend: &'a mut B,
    door: &'a mut D,
    clock: &'a mut C,
}

impl<'a, W: World, B: Backend<W>, D: Door<W, B::Session>, C: Clock> AllLegs<'a, W, B, D, C> {
    /// The legs, and what their turns are given.
    pub fn new(
        alloc: Global,
        legs: &'a mut List<Leg<W, B::Session>>,
        route: &'a Route,
        backend: &'a mut B,
        door: &'a mut D,
        clock: &'a mut C,
    ) -> AllLegs<'a, W, B, D, C>
        ensures legs { result.legs.now ≡ legs.entry.now }
        ensures same_legs { result.legs.ghost_name ≡ legs.entry.ghost_name }
        ensures route { result.route.now ≡ route.now }
        ensures backend { result.backend.now ≡ backend.entry.now }
        ensures same_backend { result.backend.ghost_name ≡ backend.entry.ghost_name }
        ensures door { result.door.now ≡ door.entry.now }
        ensures same_door { result.door.ghost_name ≡ door.entry.ghost_name }
    {
        AllLegs {
            alloc,
            legs,
            route,
            backend,
            door,
            clock,
        }
    }
}

impl<W: World, B: Backend<W>, D: Door<W, B::Session>, C: Clock> Future for AllLegs<'_, W, B, D, C> {
    type Output = Result<List<(LegAnswer, Account)>, Memory>;

    ghost can_poll = { λ all. All (IsLegOf W.World B.Session.Sitting
        all.route.now (D.counts all.door.now).most) all.legs.now };

    ghost gives = { λ all out. Gives W.World B.Session.Sitting
        all.route.now (D.counts all.door.now).most (map asked_of all.legs.now) out };

    fn poll(&mut self, cx: &mut Context<'_>) -> Poll<Result<List<(LegAnswer, Account)>, Memory>>
        requires of { All (IsLegOf W.World B.Session.Sitting
            self.old.route.now (D.counts self.old.door.now).most) self.old.legs.now }
        ensures value { IfReady result (Gives W.World B.Session.Sitting
            self.old.route.now (D.counts self.old.door.now).most (map asked_of self.old.legs.now)) }
        ensures again { OnPending result (All (IsLegOf W.World B.Session.Sitting
            self.new.route.now (D.counts self.new.door.now).most) self.new.legs.now) }
        ensures same { OnPending result ((out : _)
            → Gives W.World B.Session.Sitting self.new.route.now
            (D.counts self.new.door.now).most (map asked_of self.new.legs.now) out
            → Gives W.World B.Session.Sitting self.old.route.now
            (D.counts self.old.door.now).most (map asked_of self.old.legs.now) out) }
        ensures registered { OnPending result (Covers cx.new (λ source. ⊥)) }
        ensures kept { Keeps cx.old cx.new }
        ensures poll { IsPoll W.World B.Session.Sitting B.exact self.old.route.now
            self.old.legs.now self.new.legs.now result
            (record { pool = D.pool self.old.door.now; counts = D.counts self.old.door.now })
            (record { pool = D.pool self.new.door.now; counts = D.counts self.new.door.now })
            (record {
              counts = B.counts self.old.backend.now;
              happened = B.happened self.old.backend.now;
            })
            (record {
              counts = B.counts self.new.backend.now;
              happened = B.happened self.new.backend.now;
            }) }
        ensures most { (D.counts self.new.door.now).most ≡ (D.counts self.old.door.now).most }
        ensures route { self.new.route.now ≡ self.old.route.now }
        ensures same_legs { self.new.legs.ghost_name ≡ self.old.legs.ghost_name }
        ensures same_backend { self.new.backend.ghost_name ≡ self.old.backend.ghost_name }
        ensures same_door { self.new.door.ghost_name ≡ self.old.door.ghost_name }
    {
        let now = self.clock.now();
        let round = turn_all(
            self.alloc,
            self.route,
            self.legs,
            self.backend,
            self.door,
            now,
        );
        if round.lacks {
            return Poll::Ready(Err(Memory));
        }
        if !all_done(self.legs.as_slice()) {
            return cx.yield_now();
        }
        Poll::Ready(take_answers(self.alloc, self.legs))
    }
}
