//! That a session may be asked for what a work asks of it; that what comes of a request by its legs'
//! answers is what its targets mean, and that its cause is allowed. These functions do nothing; what
//! they ensure is the law.

ghost use Rattle.package_rules.specs.steps.Asking.{FetchesMayBeAsked, ScansMayBeAsked, SearchesMayBeAsked};
ghost use Rattle.package_rules.specs.Truth.{CauseIsAllowed, FinishedFits, FinishedHasMark, FinishedIsOutcome, FirstMarkDecides, OthersDecide};

use z_types::World;

/// A session may be asked for the search of a Search, or of records, at each leg of the route, under
/// any short name.
pub fn searches_may_be_asked()
    ensures { SearchesMayBeAsked }
{}

/// A session may be asked for records of a set that it made, within its hits, with the element set name
/// of a work.
pub fn fetches_may_be_asked()
    ensures { FetchesMayBeAsked }
{}

/// A session may be asked for the scan of a work at its leg.
pub fn scans_may_be_asked()
    ensures { ScansMayBeAsked }
{}

/// On a fair route, what comes of a work by its legs' answers is what comes of it under the cause: the
/// mark of the first leg that is marked, with its class, or else what the targets mean under its login.
pub fn finished_is_outcome<W: World>()
    ensures { FinishedIsOutcome W.World }
{}

/// What comes of a work by its legs' answers has the mark of their cause.
pub fn finished_has_mark()
    ensures { FinishedHasMark }
{}

/// What comes of a work by its legs' answers fits the work.
pub fn finished_fits<W: World>()
    ensures { FinishedFits W.World }
{}

/// The cause of a work by its legs' answers is allowed: its mark is Plain, or names the class of a
/// leg that the work asks.
pub fn cause_is_allowed<W: World>()
    ensures { CauseIsAllowed W.World }
{}

/// The cause of a work's legs is the mark of the first that is marked, with the name of its class.
pub fn first_mark_decides()
    ensures marked { FirstMarkDecides }
    ensures others { OthersDecide }
{}
