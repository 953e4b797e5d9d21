//! What the state of a connection is of. These functions do nothing; what they ensure is the law.

ghost use Rattle.front_conn.specs.steps.Feeding.{EndsAnswered, StandsAtStart, StandsWhenEnded, StandsWhenFed, StandsWhenWritten, StaysOfRoute};

use front_http::gets_go_on;
use z_types::{Sitting, World};

/// A new connection stands at the start: nothing was fed, and nothing written.
pub fn stands_at_start<W: World, S: Sitting<W>>()
    ensures { StandsAtStart W.World S.Sitting }
{}

/// A connection that is fed a piece stands where it stood, of these octets more.
pub fn stands_when_fed<W: World, S: Sitting<W>>()
    ensures { StandsWhenFed W.World S.Sitting }
{
    gets_go_on::<W>();
}

/// A connection whose input has ended stands where it stood.
pub fn stands_when_ended<W: World, S: Sitting<W>>()
    ensures { StandsWhenEnded W.World S.Sitting }
{}

/// A connection whose output was written stands where it stood, with this output written before.
pub fn stands_when_written<W: World, S: Sitting<W>>()
    ensures { StandsWhenWritten W.World S.Sitting }
{}

/// A connection of a route stays so when it is fed, when its input has ended and when its output was
/// written.
pub fn stays_of_route<W: World, S: Sitting<W>>()
    ensures { StaysOfRoute W.World S.Sitting }
{}

/// Where a connection has ended, and so has its input, what was written is the answer to what was fed.
pub fn ends_answered<W: World, S: Sitting<W>>()
    ensures { EndsAnswered W.World S.Sitting }
{}
