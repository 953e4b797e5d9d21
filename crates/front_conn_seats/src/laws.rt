//! Each seat that a connection held is given back. These functions do nothing; what they ensure is the law. A pool
//! that is not told is outside of it.

ghost use Rattle.front_conn_seats.specs.steps.Laws.{BegunHoldsNone, ConnectionsGiveBack, GoesParted, LegsGiveBack, PackagesGiveBack, PackagesKeepSeats, RunsAloneGiveBack, RunsGiveBack, StepsKeepSeats, StepsLeaveOthers, TurnsKeepSeats};
ghost use Rattle.front_conn_seats.specs.steps.Ways.{CallsAreWays, WaysGoOn};

use z_types::{Sitting, World};

/// A turn of a leg, at want of memory too: each seat that is out behind it is the leg's own, or is out
/// for others as before.
pub fn turns_keep_seats<W: World, S: Sitting<W>>()
    ensures { TurnsKeepSeats W.World S.Sitting }
{}

/// A leg that is given up has no seat, and its own is not out.
pub fn legs_give_back<W: World, S: Sitting<W>>()
    ensures { LegsGiveBack S }
{}

/// A package that is begun holds no seat.
pub fn begun_holds_none<W: World, S: Sitting<W>>()
    ensures { BegunHoldsNone S }
{}

/// A turn of a package, at want of memory too: each seat that is out behind it is held by one of its
/// legs, or is out for others as before.
pub fn packages_keep_seats<W: World, S: Sitting<W>>()
    ensures { PackagesKeepSeats W.World S.Sitting }
{}

/// A package that is given up holds no seat, and none is out that its legs held.
pub fn packages_give_back<W: World, S: Sitting<W>>()
    ensures { PackagesGiveBack S }
{}

/// A step of a connection, at want of memory too: each seat that is out behind it is held by a leg of its
/// request in work, or is out for others as before.
pub fn steps_keep_seats<W: World, S: Sitting<W>>()
    ensures { StepsKeepSeats W.World S.Sitting }
{}

/// So what other connections hold stays out over a step, for them.
pub fn steps_leave_others<W: World, S: Sitting<W>>()
    ensures { StepsLeaveOthers W.World S.Sitting }
{}

/// A connection that is given up holds no seat, and none is out that it held.
pub fn connections_give_back<W: World, S: Sitting<W>>()
    ensures { ConnectionsGiveBack S }
{}

/// Whatever a connection goes through, among others over one pool: each seat that is out behind it is
/// held by it, or is out for others.
pub fn goes_parted<W: World, S: Sitting<W>>()
    ensures { GoesParted W.World S.Sitting }
{}

/// Whatever a new connection goes through, among others over one pool: once it is given up, the seats
/// that are out are those that are out for others.
pub fn runs_give_back<W: World, S: Sitting<W>>()
    ensures { RunsGiveBack W.World S.Sitting }
{}

/// Whatever a new connection goes through alone: once it is given up, the seats that are out are those
/// that were out before it.
pub fn runs_alone_give_back<W: World, S: Sitting<W>>()
    ensures { RunsAloneGiveBack W.World S.Sitting }
{}

/// Each call of a connection, at whatever point, is among what it goes through, and so is what others do
/// that leaves it the seats that it holds.
pub fn calls_are_ways<W: World, S: Sitting<W>>()
    ensures { CallsAreWays W.World S.Sitting }
{}

/// From wherever a connection has come it goes on, by each of these, to one point more.
pub fn ways_go_on<W: World, S: Sitting<W>>()
    ensures { WaysGoOn W.World S.Sitting }
{}
