//! What is true of queries, whatever maps them. These functions do nothing; what they ensure is the law.

ghost use Rattle.std.specs.Prelude.{List};
ghost use Rattle.cql_parse.specs.Tree.{Tree};
ghost use Rattle.route_config.specs.declared.route.Index.{Index};
ghost use Rattle.cql_map.specs.Laws.{IsMappedUnlessFaulty};
ghost use Rattle.cql_map.specs.Long.{IsTooDeepIfLong};

/// A query has a mapping, or a fault.
pub fn mapped_or_faulty()
    ensures { (indexes : List Index) (q : Tree) → IsMappedUnlessFaulty indexes q }
{}

/// The mapping of a query that has a term of too many words has too many levels.
pub fn long_is_too_deep()
    ensures { (indexes : List Index) (q : Tree) → IsTooDeepIfLong indexes q }
{}
