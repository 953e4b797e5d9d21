//! What is true of the answers to clients of either kind. These functions state laws: what they ensure
//! holds of the octets, the route and what the targets mean, whatever answers.

ghost use Rattle.sru_rules.specs.Laws.{
  AnswersEndSo,
  FetchAsksNoMore,
  GetIsAnswered,
  GetStays,
  HasOneAnswer,
  HasOneCourse,
  HasOneEnd,
  HasOneReading,
  HasSomeAnswer,
  HeadIsCut,
  HeadIsRefused,
};

use z_types::World;

/// A GET is read in one way, and the octets of an HTTP connection have one course.
pub fn one_reading()
    ensures reading { HasOneReading }
    ensures course { HasOneCourse }
{}

/// No client's octets are without an answer where every mark is Plain.
pub fn some_answer<W: World>()
    ensures { HasSomeAnswer W.World }
{
    cql_lex::one_reading();
}

/// The answers to a client's octets are one where every mark is Plain: one list of marks, the same
/// octets written, and one end.
pub fn one_answer<W: World>()
    ensures { HasOneAnswer W.World }
{}

/// How a client's connection ends follows from its octets and its route, whatever the targets and the
/// marks, and is its ending.
pub fn one_end<V: World, W: World>()
    ensures one { HasOneEnd V.World W.World }
    ensures ending { AnswersEndSo V.World }
{}

/// The answer to a GET under a cause that may come answers its connection, whatever follows it.
pub fn get_is_answered<W: World>()
    ensures answered { GetIsAnswered W.World }
    ensures stays { GetStays }
{
    sru_request::head_stays();
}

/// A head that is refused answers its connection, whatever follows it, and one that does not end
/// leaves it without an answer.
pub fn head_is_refused<W: World>()
    ensures refused { HeadIsRefused W.World }
    ensures cut { HeadIsCut W.World }
{
    sru_request::head_stays();
}

/// The fetch of a GET asks only classes that its search has asked.
pub fn fetch_asks_no_more()
    ensures { FetchAsksNoMore }
{}
