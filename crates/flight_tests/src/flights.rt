//! Legs that are waited for.

ghost use Rattle.std.specs.Prelude.{All, IfOk, map};
ghost use Rattle.package.specs.leg.Turns.{IsLegOf};
ghost use Rattle.package.specs.steps.Flights.{Gives};
ghost use Rattle.package.specs.steps.Packages.{asked_of};

use futures::executor::block_on;
use gw_outside::{Backend, Clock};
use package::AllLegs;
use package::leg::{Account, Leg, LegAnswer};
use pool_sets::Door;
use route_config::Route;
use std::alloc::{Alloc, Global};
use std::io;
use std::random::RandomSource;
use std::sync::Wait;
use z_types::{List, Memory, World};

/// A handle that waits as another does, and has an allocator. Its octets are no random ones.
struct Waits<'a, R: Wait> {
    rt: &'a R,
    alloc: Global,
}

impl<R: Wait> Wait for Waits<'_, R> {}

impl<R: Wait> Alloc for Waits<'_, R> {
    type A = Global;

    fn alloc(&self) -> Global {
        self.alloc
    }
}

impl<R: Wait> RandomSource for Waits<'_, R> {
    fn fill_bytes(&self, buf: &mut [u8]) -> io::Result<()> {
        buf.fill(7);
        Ok(())
    }
}

/// Waits until all legs are done: one answer of each leg, in their order, whichever was done first. The
/// outer error is that of the executor itself.
pub(crate) fn wait_for_all<R: Wait, W: World, B: Backend<W>, D: Door<W, B::Session>, C: Clock>(
    rt: &R,
    alloc: Global,
    route: &Route,
    legs: &mut List<Leg<W, B::Session>>,
    backend: &mut B,
    door: &mut D,
    clock: &mut C,
) -> io::Result<Result<List<(LegAnswer, Account)>, Memory>>
    requires of { All (IsLegOf W.World B.Session.Sitting
        route.now (D.counts door.old).most) legs.old }
    ensures answers { IfOk result (Gives W.World B.Session.Sitting
        route.now (D.counts door.old).most (map asked_of legs.old)) }
{
    let waits = Waits { rt, alloc };
    let all = block_on(
        &waits,
        AllLegs::new(alloc, legs, route, backend, door, clock),
    );
    let Waits { rt: _, alloc: _ } = waits;
    all
}
