//! The result sets of a client (ANSI/NISO Z39.50-2003, 3.2.2 Search).

ghost use Rattle.z_types.specs.equality.KnownSet.{known_set};

use crate::{Exact, List, RpnQuery, Text};

/// A result set that a client made and can present from or search in.
#[derive(PartialEq, Eq, Clone, Drop)]
pub struct KnownSet {
    /// Its name.
    pub name: Text,
    /// The legs that it is of, by their places in the route, counted from 0.
    pub legs: List<u32>,
    /// Its query, without operands that are result sets.
    pub query: RpnQuery,
    /// The hits of each leg, in the order of the legs, 0 to 2147483647 each.
    pub hits: List<u32>,
}

impl Exact for KnownSet {
    ghost exact_eq = { known_set.eq_is_exact };

    ghost exact_clone = { known_set.clone_is_exact };
}
