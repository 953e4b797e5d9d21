//! How queries are put together, at most 48 levels high.

ghost use Rattle.std.specs.Prelude.{◌≡◌, option_map, max};
ghost use Rattle.cql_parse.specs.Tree.{clause, joined, assigned, sorted};
ghost use Rattle.cql_parse.specs.Grammar.{join};
ghost use Rattle.cql_parse.specs.ParserState.{left_of, Makes};

use crate::fault::Stop;
use crate::frame::LeftOperand;
use crate::grown::Grown;
use crate::{Cql, Head, SortKey};
use std::alloc::Global;
use z_types::{List, MOST_QUERY_DEPTH, Text};

/// A clause.
pub fn clause(head: Option<Head>, term: Text) -> Grown
    ensures { result.tree ≡ clause head term }
{
    Grown {
        tree: Cql::clause(head, term),
        levels: 1,
    }
}

/// A query behind what stands left of it.
pub fn join(alloc: Global, left: Option<LeftOperand>, right: Grown) -> Result<Grown, Stop>
    ensures { Makes result (join (option_map left_of left) right.tree) }
{
    match left {
        None => Ok(right),
        Some(left) => join_to(alloc, left, right),
    }
}

/// Two queries under a boolean.
fn join_to(alloc: Global, left: LeftOperand, right: Grown) -> Result<Grown, Stop>
    ensures { Makes result (joined left.boolean left.modifiers left.query.tree right.tree) }
{
    let levels = left.query.levels.max(right.levels);
    if levels >= MOST_QUERY_DEPTH {
        drop((left, right));
        return Err(Stop::Deep);
    }
    let LeftOperand {
        query,
        boolean,
        modifiers,
    } = left;
    Ok(Grown {
        tree: Cql::joined(alloc, boolean, modifiers, query.tree, right.tree)?,
        levels: levels + 1,
    })
}

/// A query under a prefix assignment.
pub fn assign(alloc: Global, name: Option<Text>, uri: Text, query: Grown) -> Result<Grown, Stop>
    ensures { Makes result (assigned name uri query.tree) }
{
    let levels = query.levels;
    if levels >= MOST_QUERY_DEPTH {
        return Err(Stop::Deep);
    }
    Ok(Grown {
        tree: Cql::prefix(alloc, name, uri, query.tree)?,
        levels: levels + 1,
    })
}

/// A query with its sort keys.
pub fn sort(alloc: Global, query: Grown, keys: List<SortKey>) -> Result<Grown, Stop>
    ensures { Makes result (sorted query.tree keys) }
{
    let levels = query.levels;
    if levels >= MOST_QUERY_DEPTH {
        return Err(Stop::Deep);
    }
    Ok(Grown {
        tree: Cql::sorted(alloc, query.tree, keys)?,
        levels: levels + 1,
    })
}
