//! What a session is asked for, one thing at a time.

ghost use Rattle.z_types.specs.equality.Ask.{ask};

use crate::{Exact, List, Oid, ScanAsk, SetKey, Text};

/// What a session is asked for (ANSI/NISO Z39.50-2003, 3.2.2, 3.2.3 and 3.2.8).
#[derive(PartialEq, Eq, Clone, Drop)]
pub enum Ask {
    /// A search of a key, whose result set the target keeps under a name.
    Search {
        /// The result set's name.
        name: Text,
        /// The databases and the query.
        key: SetKey,
    },
    /// Records of the result set under a name.
    Present {
        /// The result set's name.
        name: Text,
        /// The position of the first record, counted from 1.
        first: u32,
        /// How many records are asked for, at least 1.
        count: u32,
        /// The record syntax.
        syntax: Option<Oid>,
        /// The element set name.
        element: Option<Text>,
    },
    /// Terms of the indexes of databases.
    Scan {
        /// The databases, in the order named.
        dbs: List<Text>,
        /// The index, the term to begin at and how many terms.
        ask: ScanAsk,
    },
}

impl Exact for Ask {
    ghost exact_eq = { ask.eq_is_exact };

    ghost exact_clone = { ask.clone_is_exact };
}
