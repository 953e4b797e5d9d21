//! What one connection of Z39.50 may use (this project's own).

ghost use Rattle.z_types.specs.equality.Limits.{limits};

use crate::Exact;

/// The most that one connection may use.
#[derive(Clone, Copy, PartialEq, Eq, Debug)]
pub struct Limits {
    /// Units, 1 to 1000000.
    pub units: u32,
    /// Searches, 1 to 1000000.
    pub searches: u32,
    /// Records, 1 to 1000000.
    pub records: u32,
    /// Result sets at a time, 1 to 1000.
    pub sets: u32,
}

impl Exact for Limits {
    ghost exact_eq = { limits.eq_is_exact };

    ghost exact_clone = { λ a b h. h };
}
