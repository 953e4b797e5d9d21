//! What holds of whole replays.

ghost use Rattle.replay_laws.specs.Borne.{BorneIsPlain, BorneIsPlainOrFull};
ghost use Rattle.replay_laws.specs.Pages.{SumsLeaveMarks};
ghost use Rattle.replay_laws.specs.Quiet.{QuietDisturbsNobody};
ghost use Rattle.replay_laws.specs.Requests.{UncausedRequestIsPlain};

use replay::package_quiet::{bearing_stays, packages_bear, packages_dial_on};
use z_types::{Sitting, World};

/// Where each client that took a step was run since, whenever links are cut or result sets deleted,
/// no request is in work then.
pub fn quiet_disturbs_nobody<W: World, S: Sitting<W>>()
    ensures { QuietDisturbsNobody W.World S.Sitting }
{}

/// Over a wire that is exact, the sums of a report, and how many looks were in vain, bound the marks
/// of each kind; and where they are less than any mark needs, every mark is Plain.
pub fn sums_leave_marks<W: World>()
    ensures { SumsLeaveMarks W.World }
{}

/// A request has the mark Plain where no leg of it counted a cause of another.
pub fn uncaused_request_is_plain<W: World, S: Sitting<W>>()
    ensures { UncausedRequestIsPlain W.World S.Sitting }
{}

/// Where no request is in work at a cut or a deletion, and each number of a deletion or a delay is
/// one that a request bears, each mark is Plain or Full, whatever the pool and the clients do.
pub fn borne_is_plain_or_full<W: World, S: Sitting<W>>()
    ensures { BorneIsPlainOrFull W.World S.Sitting }
{
    packages_bear::<W, S>();
    packages_dial_on::<W, S>();
    bearing_stays::<W, S>();
}

/// Each is Plain where, besides, the pool was never full.
pub fn borne_is_plain<W: World, S: Sitting<W>>()
    ensures { BorneIsPlain W.World S.Sitting }
{
    borne_is_plain_or_full::<W, S>();
}
