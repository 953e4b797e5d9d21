//! A package that is driven to its end.

ghost use Rattle.std.specs.Prelude.{◌≡◌, MatchOption};
ghost use Rattle.package.specs.steps.Drives.{IsAwaited, last_answer};

use crate::package::Package;
use gw_outside::{Backend, Clock};
use leg::Turned;
use pool_sets::Door;
use route_config::Route;
use std::alloc::Global;
use std::sync::Wait;
use z_types::{Memory, Sitting, World};

impl<W: World, S: Sitting<W>> Package<W, S> {
    ghost use Rattle.std.specs.Prelude.{◌≡◌, OnOk};
    ghost use Rattle.package.specs.steps.Drives.{IsDriven, package_at};
    ghost use Rattle.package.specs.steps.Packages.{IsOver, IsPackageOf};

    /// Turns the package until all its legs are done, those for what is asked first and then those for what
    /// is asked then, or until one lacks memory; the clock is read before each turn. After `Memory` its legs
    /// stand as they are, and it is to be given up.
    pub fn drive<R: Wait, B: Backend<W, Session = S>, D: Door<W, S>, C: Clock>(
        &mut self,
        rt: &R,
        alloc: Global,
        route: &Route,
        backend: &mut B,
        door: &mut D,
        clock: &mut C,
    ) -> Result<(), Memory>
        requires of { IsPackageOf W.World S.Sitting route.now (D.counts door.old).most self.old }
        ensures of { IsPackageOf W.World S.Sitting route.now (D.counts door.new).most self.new }
        ensures most { (D.counts door.new).most ≡ (D.counts door.old).most }
        ensures over { OnOk result (IsOver self.new) }
        ensures driven { IsDriven W.World S.Sitting B.exact route.now
            (package_at D.Door B.Watched self.old door.old backend.old)
            (package_at D.Door B.Watched self.new door.new backend.new) result }
    {
        for _turn in rt.forever() {
            let now = clock.now();
            let turned = self.turn(alloc, route, backend, door, now);
            if let Some(out) = ended(turned) {
                return out;
            }
        }
        unreachable!()
    }
}

/// What a package that is driven answers behind a turn, where no other one is due.
fn ended(turned: Turned) -> Option<Result<(), Memory>>
    ensures { MatchOption result (IsAwaited turned) (λ out. turned ≡ last_answer out) }
{
    match turned {
        Turned::Went | Turned::NotYet => None,
        Turned::Done => Some(Ok(())),
        Turned::Memory => Some(Err(Memory)),
    }
}
