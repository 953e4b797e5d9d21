//! One turn of each leg that is not done.

ghost use Rattle.std.specs.Prelude.{◌≡◌, All, map};
ghost use Rattle.leg.specs.Turns.{IsLegOf};
ghost use Rattle.package.specs.steps.Packages.{asked_of};
ghost use Rattle.package.specs.steps.Turns.{HaveTurned, no_round};

use crate::turning::{Round, turn_each};
use gw_outside::Backend;
use leg::Leg;
use pool_sets::Door;
use route_config::Route;
use std::alloc::Global;
use std::mem;
use z_types::{List, Sitting, World};

/// Turns each leg of a list that is not done once, one after another.
pub(crate) fn turn_all<W: World, S: Sitting<W>, B: Backend<W, Session = S>, D: Door<W, S>>(
    alloc: Global,
    route: &Route,
    legs: &mut List<Leg<W, S>>,
    backend: &mut B,
    door: &mut D,
    now: u64,
) -> Round
    requires of { All (IsLegOf W.World S.Sitting route.now (D.counts door.old).most) legs.old }
    ensures of { All (IsLegOf W.World S.Sitting route.now (D.counts door.new).most) legs.new }
    ensures most { (D.counts door.new).most ≡ (D.counts door.old).most }
    ensures asked { map asked_of legs.new ≡ map asked_of legs.old }
    ensures turned { HaveTurned W.World S.Sitting B.exact route.now now
        legs.old legs.new no_round result
        (record { pool = D.pool door.old; counts = D.counts door.old })
        (record { pool = D.pool door.new; counts = D.counts door.new })
        (record { counts = B.counts backend.old; happened = B.happened backend.old })
        (record { counts = B.counts backend.new; happened = B.happened backend.new }) }
{
    let mut turned = mem::replace(legs, List::new(alloc)).into_vec();
    let round = turn_each(alloc, route, turned.as_mut_slice(), backend, door, now);
    *legs = List::from_vec(turned);
    round
}
