//! What came of a work (this project's own).

ghost use Rattle.z_types.specs.equality.Outcome.{fetched, outcome_exact, outcome_cloned};

use crate::{Diag, Exact, List, Mark, NamedRecord, ScanAnswer, Text};

/// The records that were fetched for a request.
#[derive(PartialEq, Eq, Clone, Drop)]
pub enum Fetched {
    /// None were to be given.
    None,
    /// These, in the order of their positions.
    Records(List<NamedRecord>),
    /// A diagnostic in place of all of them.
    Whole(Diag),
}

/// What came of a work.
#[derive(PartialEq, Eq, Clone, Drop)]
pub enum Outcome {
    /// Of a search.
    Found {
        /// The hits of each leg, in the order of the legs, 0 to 2147483647 each.
        hits: List<u32>,
        /// The records that the search shows.
        fetched: Fetched,
    },
    /// Of a fetch.
    Fetched(Fetched),
    /// Of a scan.
    Scanned(ScanAnswer),
    /// The diagnostic of a target.
    Refused(Diag),
    /// A mark other than Plain.
    Marked {
        /// The mark.
        mark: Mark,
        /// The name of the class whose leg was marked first.
        class: Text,
    },
}

impl Exact for Fetched {
    ghost exact_eq = { fetched.eq_is_exact };

    ghost exact_clone = { fetched.clone_is_exact };
}

impl Exact for Outcome {
    ghost exact_eq = { outcome_exact };

    ghost exact_clone = { outcome_cloned };
}
