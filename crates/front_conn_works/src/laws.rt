//! Which works a connection begins. These functions do nothing; what they ensure is the law. HTTP
//! connections are left out: a GET begins a search and then a fetch, under one mark.

ghost use Rattle.front_conn_works.specs.steps.Laws.{BegunIsOne, BeginsNone, EndedIsWhole, GoesBegin, LacksAndBeginsNone, LastIsInWork, MarksDecide, RestsThenBegins, RunsBegin, StaysSoBegun, StepsBegin};

use front_conn::{stands_at_start, stands_when_ended, stands_when_fed, stands_when_written};
use z_types::{Sitting, World};

/// The works of a course follow from the marks of its causes.
pub fn marks_decide<W: World>()
    ensures { MarksDecide W.World }
{}

/// What a connection has begun is one list of works: those that its units ask under its marks, in
/// their order.
pub fn begun_is_one<W: World, S: Sitting<W>>()
    ensures { BegunIsOne W.World S }
{}

/// A new connection has begun none.
pub fn begins_none<W: World, S: Sitting<W>>()
    ensures { BeginsNone W.World S }
{}

/// A step of a connection of units that had memory, on a fair route: what was begun behind it is what
/// was begun before it, and then what the step begins.
pub fn steps_begin<W: World, S: Sitting<W>>()
    ensures { StepsBegin W.World S.Sitting }
{}

/// A step without memory begins nothing.
pub fn lacking_begins_none<W: World, S: Sitting<W>>()
    ensures { LacksAndBeginsNone W.World S.Sitting }
{}

/// Where a request of a connection of units is in work, its work is the last that was begun.
pub fn last_is_in_work<W: World, S: Sitting<W>>()
    ensures { LastIsInWork W.World S }
{}

/// Where a connection of units has ended, it has begun the works of the course of all its octets.
pub fn ended_is_whole<W: World, S: Sitting<W>>()
    ensures { EndedIsWhole W.World S }
{}

/// What comes, the end of the input and what is written begin nothing.
pub fn stays_begun<W: World, S: Sitting<W>>()
    ensures { StaysSoBegun W.World S }
{}

/// Whatever a connection of units goes through on a fair route: what was begun behind it is what was
/// begun before it, and then what its steps begin.
pub fn goes_begin<W: World, S: Sitting<W>>()
    ensures { GoesBegin W.World S.Sitting }
{
    stands_when_fed::<W, S>();
    stands_when_ended::<W, S>();
    stands_when_written::<W, S>();
}

/// Whatever a new connection of units goes through on a fair route, its steps have begun the works that
/// its units ask, in their order, no other and none twice.
pub fn runs_begin<W: World, S: Sitting<W>>()
    ensures { RunsBegin W.World S.Sitting }
{
    stands_at_start::<W, S>();
    goes_begin::<W, S>();
}

/// From where a connection of units rests on a fair route to where it has not ended: the works that its
/// steps begin are those that the units which they take ask, in their order, no other and none twice.
pub fn rests_then_begins<W: World, S: Sitting<W>>()
    ensures { RestsThenBegins W.World S.Sitting }
{
    goes_begin::<W, S>();
}
