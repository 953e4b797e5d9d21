//! What a result set is of: databases and a query.

ghost use Rattle.z_types.specs.equality.Key.{key};

use crate::{Exact, List, RpnQuery, Text};

/// The databases and the query of a result set. Two searches with one key find the same records.
#[derive(PartialEq, Eq, Clone, Drop)]
pub struct SetKey {
    /// The databases, in the order named.
    pub dbs: List<Text>,
    /// The query.
    pub query: RpnQuery,
}

impl Exact for SetKey {
    ghost exact_eq = { key.eq_is_exact };

    ghost exact_clone = { key.clone_is_exact };
}
