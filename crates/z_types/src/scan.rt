//! What a scan asks and answers (ANSI/NISO Z39.50-2003, ScanRequest and ListEntries).

ghost use Rattle.z_types.specs.equality.Scan.{scan_ask, scan_entry, scan_answer};

use crate::{Attr, Exact, List, Oid, Term};

/// What a scan asks for.
#[derive(PartialEq, Eq, Clone, Drop)]
pub struct ScanAsk {
    /// The attribute set of the attributes that name none.
    pub attr_set: Option<Oid>,
    /// The attributes of the index.
    pub attrs: List<Attr>,
    /// The term to begin at.
    pub term: Term,
    /// How many terms are passed over between two entries, 0 to 2147483647.
    pub step: Option<u32>,
    /// How many entries are asked for, 0 to 2147483647.
    pub number: u32,
    /// The place that the asked term is to have, 0 to 2147483647.
    pub position: Option<u32>,
}

/// A term of an index (TermInfo).
#[derive(PartialEq, Eq, Clone, Drop)]
pub struct ScanEntry {
    /// The term.
    pub term: Term,
    /// In how many records it occurs, 0 to 2147483647.
    pub occurrences: Option<u32>,
}

/// The entries that a scan found.
#[derive(PartialEq, Eq, Clone, Drop)]
pub struct ScanAnswer {
    /// The place of the asked term among the entries, from 1.
    pub position: Option<u32>,
    /// The entries in order.
    pub entries: List<ScanEntry>,
}

impl Exact for ScanAsk {
    ghost exact_eq = { scan_ask.eq_is_exact };

    ghost exact_clone = { scan_ask.clone_is_exact };
}

impl Exact for ScanEntry {
    ghost exact_eq = { scan_entry.eq_is_exact };

    ghost exact_clone = { scan_entry.clone_is_exact };
}

impl Exact for ScanAnswer {
    ghost exact_eq = { scan_answer.eq_is_exact };

    ghost exact_clone = { scan_answer.clone_is_exact };
}
