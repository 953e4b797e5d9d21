//! What is true of the two works of a GET. These functions state laws.

ghost use Rattle.sru_rules.specs.Laws.{
  FetchAnswers,
  FetchCanBegin,
  FoundIsMeant,
  GetIsOpen,
  GetIsRetrieval,
  MarkIsKept,
  SearchAnswers,
  SearchCanBegin,
};

use z_types::World;

/// Both works of a GET lead to its one answer, whichever of them is marked.
pub fn works_answer<W: World>()
    ensures search { SearchAnswers W.World }
    ensures fetch { FetchAnswers W.World }
    ensures hits { FoundIsMeant W.World }
    ensures mark { MarkIsKept W.World }
{}

/// What a GET searches for is within the bounds of works, and both its works can begin.
pub fn works_can_begin()
    ensures retrieval { GetIsRetrieval }
    ensures search { SearchCanBegin }
    ensures fetch { FetchCanBegin }
{}

/// The targets are asked for a GET only of a database that the route opens to anyone.
pub fn get_is_open()
    ensures { GetIsOpen }
{}
