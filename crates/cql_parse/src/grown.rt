//! A query so far, with the levels of its tree.

ghost use Rattle.std.specs.Prelude.{◌≡◌, ◌≤◌};
ghost use Rattle.cql_parse.specs.Tree.{depth};
ghost use Rattle.z_types.specs.Bounds.{most_query_depth};

use crate::Cql;

/// A query and how many levels it has, at most 48.
#[derive(Drop)]
pub struct Grown {
    /// The query.
    pub tree: Cql,
    /// How many levels its tree has.
    pub levels: u32,
    ghost counted: { levels ≡ depth tree },
    ghost shallow: { levels ≤ most_query_depth },
}
