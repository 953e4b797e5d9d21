//! A connection that is driven until its request is answered.

ghost use Rattle.std.specs.Prelude.{◌≡◌, None, OnOk};
ghost use Rattle.front_conn.specs.steps.Drives.{HasDriven, IsDriven, IsInWork, conn_at, last_step};
ghost use Rattle.front_conn.specs.steps.States.{IsConnOf};
ghost use Rattle.front_conn.specs.steps.Steps.{KeepsState};

use crate::{Conn, Stepped};
use gw_outside::{Backend, Clock};
use pool_sets::Door;
use route_config::Route;
use std::alloc::Global;
use std::sync::Wait;
use z_types::{Memory, Sitting, World};

impl<W: World, S: Sitting<W>> Conn<W, S> {
    /// Drives the request in work until it is answered: each of its legs is turned until all are done, and
    /// where the search of a GET is followed by its fetch, so is each leg of that. It does what steps do, at
    /// the moments that the clock tells. Without memory the connection has ended so, and is given up.
    pub fn drive<R: Wait, B: Backend<W, Session = S>, D: Door<W, S>, C: Clock>(
        &mut self,
        rt: &R,
        alloc: Global,
        route: &Route,
        backend: &mut B,
        door: &mut D,
        clock: &mut C,
    ) -> Result<(), Memory>
        requires in_work { IsInWork self.old }
        requires of { IsConnOf W.World S.Sitting route.now (D.counts door.old).most self.old }
        ensures of { IsConnOf W.World S.Sitting route.now (D.counts door.new).most self.new }
        ensures most { (D.counts door.new).most ≡ (D.counts door.old).most }
        ensures driven { IsDriven W.World S.Sitting B.exact route.now
            (conn_at D.Door B.Watched self.old door.old backend.old)
            (conn_at D.Door B.Watched self.new door.new backend.new) result }
        ensures keeps { OnOk result (KeepsState W.World route.now self.old self.new) }
    {
        match self.drive_on(rt, alloc, route, backend, door, clock) {
            Ok(()) => Ok(()),
            Err(memory) => {
                self.give_up(door);
                Err(memory)
            }
        }
    }

    /// Drives one package after another until none is in work.
    fn drive_on<R: Wait, B: Backend<W, Session = S>, D: Door<W, S>, C: Clock>(
        &mut self,
        rt: &R,
        alloc: Global,
        route: &Route,
        backend: &mut B,
        door: &mut D,
        clock: &mut C,
    ) -> Result<(), Memory>
        requires in_work { IsInWork self.old }
        requires of { IsConnOf W.World S.Sitting route.now (D.counts door.old).most self.old }
        ensures of { IsConnOf W.World S.Sitting route.now (D.counts door.new).most self.new }
        ensures most { (D.counts door.new).most ≡ (D.counts door.old).most }
        ensures answered { OnOk result (self.new.in_work ≡ None) }
        ensures driven { HasDriven W.World S.Sitting B.exact route.now
            (conn_at D.Door B.Watched self.old door.old backend.old)
            (conn_at D.Door B.Watched self.new door.new backend.new) (last_step result) }
        ensures keeps { OnOk result (KeepsState W.World route.now self.old self.new) }
    {
        for _package in rt.forever() {
            if let Stepped::Memory = self.drive_package(rt, alloc, route, backend, door, clock) {
                return Err(Memory);
            }
            if !self.is_in_work() {
                return Ok(());
            }
        }
        unreachable!()
    }
}
