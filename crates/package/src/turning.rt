//! One turn of legs.

ghost use Rattle.std.specs.Prelude.{◌≡◌, All, IsTrue, true, map};
ghost use Rattle.leg.specs.Phases.{is_done};
ghost use Rattle.leg.specs.Turns.{IsLegOf};
ghost use Rattle.package.specs.steps.Packages.{AreDone, asked_of};
ghost use Rattle.package.specs.steps.Turns.{HasTurned, HaveTurned, all_done, done_or_went, no_round, round_after, round_answer};

use gw_outside::Backend;
use leg::{Leg, Turned};
use pool_sets::Door;
use route_config::Route;
use std::alloc::Global;
use z_types::{Sitting, World};

/// What legs answered to their turns.
#[derive(Clone, Copy)]
pub struct Round {
    /// Whether some leg was turned.
    pub some: bool,
    /// Whether each that was turned heard nothing.
    pub waits: bool,
    /// Whether one that was turned had no memory.
    pub lacks: bool,
}

impl Round {
    /// Where no leg was turned.
    fn new() -> Round
        ensures { result ≡ no_round }
    {
        Round {
            some: false,
            waits: true,
            lacks: false,
        }
    }

    /// Where one more was turned.
    fn and(self, answer: Turned) -> Round
        ensures { result ≡ round_after self answer }
    {
        Round {
            some: true,
            waits: self.waits && matches!(answer, Turned::NotYet),
            lacks: self.lacks || matches!(answer, Turned::Memory),
        }
    }

    /// What the turn of the package answers, by whether all is over.
    pub(crate) fn answer(self, over: bool) -> Turned
        ensures { result ≡ round_answer over self }
    {
        if self.lacks {
            Turned::Memory
        } else if over {
            Turned::Done
        } else if self.some && self.waits {
            Turned::NotYet
        } else {
            Turned::Went
        }
    }
}

/// What the turn of a package answers that begins the legs for what is asked then.
pub(crate) fn done_or_went(over: bool) -> Turned
    ensures { result ≡ done_or_went over }
{
    if over { Turned::Done } else { Turned::Went }
}

/// Turns a leg where it is not done.
fn turn_one<W: World, S: Sitting<W>, B: Backend<W, Session = S>, D: Door<W, S>>(
    alloc: Global,
    route: &Route,
    leg: &mut Leg<W, S>,
    round: Round,
    backend: &mut B,
    door: &mut D,
    now: u64,
) -> Round
    requires of { IsLegOf W.World S.Sitting route.now (D.counts door.old).most leg.old }
    ensures of { IsLegOf W.World S.Sitting route.now (D.counts door.new).most leg.new }
    ensures most { (D.counts door.new).most ≡ (D.counts door.old).most }
    ensures asked { asked_of leg.new ≡ asked_of leg.old }
    ensures turned { HasTurned W.World S.Sitting B.exact route.now now
        (is_done leg.old.phase) leg.old leg.new round result
        (record { pool = D.pool door.old; counts = D.counts door.old })
        (record { pool = D.pool door.new; counts = D.counts door.new })
        (record { counts = B.counts backend.old; happened = B.happened backend.old })
        (record { counts = B.counts backend.new; happened = B.happened backend.new }) }
{
    if leg.is_done() {
        return round;
    }
    round.and(leg.turn(alloc, route, backend, door, now))
}

/// Turns each leg that is not done once, one after another, and says what they answered. Legs go on behind
/// one that has no memory.
pub(crate) fn turn_each<W: World, S: Sitting<W>, B: Backend<W, Session = S>, D: Door<W, S>>(
    alloc: Global,
    route: &Route,
    legs: &mut [Leg<W, S>],
    backend: &mut B,
    door: &mut D,
    now: u64,
) -> Round
    requires of { All (IsLegOf W.World S.Sitting route.now (D.counts door.old).most) legs.old }
    ensures of { All (IsLegOf W.World S.Sitting route.now (D.counts door.new).most) legs.new }
    ensures most { (D.counts door.new).most ≡ (D.counts door.old).most }
    ensures asked { map asked_of legs.new ≡ map asked_of legs.old }
    ensures turned { HaveTurned W.World S.Sitting B.exact route.now now
        legs.old legs.new no_round result
        (record { pool = D.pool door.old; counts = D.counts door.old })
        (record { pool = D.pool door.new; counts = D.counts door.new })
        (record { counts = B.counts backend.old; happened = B.happened backend.old })
        (record { counts = B.counts backend.new; happened = B.happened backend.new }) }
{
    let mut round = Round::new();
    for leg in legs {
        round = turn_one(alloc, route, leg, round, backend, door, now);
    }
    round
}

/// Whether all legs are done.
pub(crate) fn all_done<W: World, S: Sitting<W>>(legs: &[Leg<W, S>]) -> bool
    ensures done { result ≡ all_done legs.now }
    ensures fits { IsTrue result → AreDone legs.now }
{
    for leg in legs {
        if leg.answered().is_none() {
            return false;
        }
    }
    true
}
