//! What is true of every answer. These functions do nothing; what they ensure is the law.

ghost use Rattle.gateway_rules.specs.Access.{AccessIsKept, CoursesAskOpen};
ghost use Rattle.gateway_rules.specs.Fair.{MembersAnswer};
ghost use Rattle.gateway_rules.specs.OneAnswer.{HasOneReading, HasSomeAnswer, HasOneAnswer, HasOneEnd};
ghost use Rattle.gateway_rules.specs.Runs.{RunsGoOn, UnitsEndIt, RestEndsIt};

use z_types::World;

/// A client's octets are read as one request, or as none.
pub fn one_reading()
    ensures { HasOneReading }
{}

/// No client's octets are without an answer where every mark is Plain.
pub fn some_answer<W: World>()
    ensures { HasSomeAnswer W.World }
{}

/// The answers to a client's octets are one where every mark is Plain: one list of marks, the same
/// octets written, and one end.
pub fn one_answer<W: World>()
    ensures { HasOneAnswer W.World }
{}

/// How a client's connection ends follows from its octets and its route, whatever the targets and
/// the marks.
pub fn one_end<V: World, W: World>()
    ensures { HasOneEnd V.World W.World }
{}

/// Units, and others that come where the session stands behind them, are answered in one run.
pub fn runs_go_on<W: World>()
    ensures { RunsGoOn W.World }
{}

/// Where units end the session, their replies are the answers to a connection, whatever follows them.
pub fn units_end<W: World>()
    ensures { UnitsEndIt W.World }
{}

/// Where the session stands, and the rest of the octets ends it, these are the answers to the
/// connection: the replies so far, and the last one if there is any.
pub fn rest_ends<W: World>()
    ensures { RestEndsIt W.World }
{}

/// On a fair route, every member of the class that a leg goes to is told, and means what the leg's
/// first member means: each by itself, and inside every login.
pub fn fair_legs<W: World>()
    ensures { MembersAnswer W.World }
{}

/// The targets are asked only of databases that the route opens to the client: at each request of a
/// client whose sets are of such databases, and these stay so.
pub fn access_is_kept<W: World>()
    ensures { AccessIsKept W.World }
{}

/// Whatever units a client sends, the targets are asked only of databases that the route opens to
/// it, at each of its requests and under any causes.
pub fn courses_ask_open<W: World>()
    ensures { CoursesAskOpen W.World }
{}
