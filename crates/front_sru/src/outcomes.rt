//! What came of a work.

ghost use Rattle.std.specs.Prelude.{◌≡◌, IfOk};
ghost use Rattle.front_sru.specs.Kept.{IsCameOf, nothing_came};

use sru_rules::gateway_rules::marked_diag;
use std::alloc::Global;
use z_types::{Diag, Fetched, List, Memory, Outcome};

/// What came of a work.
#[derive(Drop)]
pub(crate) enum Came {
    /// A diagnostic, of a target or of a mark.
    Failed(Diag),
    /// Hits and records, each empty where there are none.
    Good(List<u32>, Fetched),
}

/// What came of a work, in its parts.
pub(crate) fn came_of(alloc: Global, outcome: Outcome) -> Result<Came, Memory>
    ensures { IfOk result (IsCameOf outcome) }
{
    match outcome {
        Outcome::Found { hits, fetched } => Ok(Came::Good(hits, fetched)),
        Outcome::Fetched(fetched) => Ok(Came::Good(List::new(alloc), fetched)),
        Outcome::Scanned(_) => Ok(nothing(alloc)),
        Outcome::Refused(diag) => Ok(Came::Failed(diag)),
        Outcome::Marked { mark, class } => match marked_diag(alloc, mark, class)? {
            Some(diag) => Ok(Came::Failed(diag)),
            None => Ok(nothing(alloc)),
        },
    }
}

/// Neither hits nor records.
fn nothing(alloc: Global) -> Came
    ensures { result ≡ nothing_came }
{
    Came::Good(List::new(alloc), Fetched::None)
}
