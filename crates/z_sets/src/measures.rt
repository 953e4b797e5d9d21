//! How large, how deep and how costly a query's expansion would be, before it is built. A number that
//! would pass its type's end is given as that end.

ghost use Rattle.std.specs.Prelude.{◌≡◌, IfOk, slice_get};
ghost use Rattle.z_types.specs.Tree.{operand};
ghost use Rattle.z_sets.specs.Measured.{IsOrMemory, measures_of_sets, measures_named, expansion_measures, names_a_set, tested};

use crate::ExpandFault;
use crate::sets::{place_of, set_for};
use std::alloc::Global;
use z_types::{
    KnownSet, List, MOST_QUERY_COST, MOST_QUERY_DEPTH, MOST_QUERY_NODES, Measures, Memory, Node,
    Rpn, Text,
};

/// Whether some operand is a result set. It calls itself as deep as the structure is.
pub(crate) fn names_a_set(query: &Rpn) -> bool
    ensures { result ≡ names_a_set query.now }
{
    match &query.node {
        Node::Leaf(_, _) => false,
        Node::Set(_) => true,
        Node::And(left, right) => names_a_set(left) || names_a_set(right),
        Node::Or(left, right) => names_a_set(left) || names_a_set(right),
        Node::AndNot(left, right) => names_a_set(left) || names_a_set(right),
    }
}

/// The measures of the queries that sets stand for.
pub(crate) fn measure_sets(alloc: Global, sets: &[KnownSet]) -> Result<List<Measures>, Memory>
    ensures { IfOk result (λ measures. measures ≡ measures_of_sets sets.now) }
{
    let mut measures = List::new(alloc);
    for set in sets {
        measures.push(Measures::of(&set.query.root))?;
    }
    Ok(measures)
}

/// The measures of a structure with stored queries in place of its operand sets, or the fault of the
/// first operand from the left. The measures of the stored queries are given, in the order of the sets.
/// It calls itself as deep as the structure is.
pub(crate) fn measure_expansion(
    query: &Rpn,
    legs: &List<u32>,
    sets: &[KnownSet],
    sizes: &[Measures],
) -> Result<Measures, ExpandFault>
    requires sizes { sizes.now ≡ measures_of_sets sets.now }
    ensures { IsOrMemory (expansion_measures legs.now sets.now query.now) result }
{
    match &query.node {
        Node::Leaf(attrs, term) => Ok(Measures::of_leaf(attrs, term)),
        Node::Set(name) => measure_operand(name, legs, sets, sizes),
        Node::And(left, right) | Node::Or(left, right) | Node::AndNot(left, right) => {
            let left = measure_expansion(left, legs, sets, sizes)?;
            let right = measure_expansion(right, legs, sets, sizes)?;
            Ok(left.join(right))
        }
    }
}

/// The measures of the query that a result set stands for, where it is one of these legs.
fn measure_operand(
    name: &Text,
    legs: &List<u32>,
    sets: &[KnownSet],
    sizes: &[Measures],
) -> Result<Measures, ExpandFault>
    requires sizes { sizes.now ≡ measures_of_sets sets.now }
    ensures { IsOrMemory (expansion_measures legs.now sets.now (operand name.now)) result }
{
    let set = set_for(name, legs, sets)?;
    match measures_named(name, sets, sizes) {
        Some(measures) => Ok(measures),
        None => Ok(Measures::of(&set.query.root)),
    }
}

/// The measures of the query of the first of the sets that has this name.
fn measures_named(name: &Text, sets: &[KnownSet], sizes: &[Measures]) -> Option<Measures>
    requires sizes { sizes.now ≡ measures_of_sets sets.now }
    ensures { result ≡ measures_named name.now sets.now }
{
    let place = place_of(sets, name)?;
    item_at(sizes, place)
}

/// The measures at a place.
fn item_at(sizes: &[Measures], place: usize) -> Option<Measures>
    ensures { result ≡ slice_get sizes.now place }
{
    sizes.get(place).copied()
}

/// Tests measures against the bounds of a query: its nodes first, then its levels, then its cost.
pub(crate) fn test_bounds(measures: Measures) -> Result<(), ExpandFault>
    ensures { result ≡ tested measures }
{
    if measures.nodes > MOST_QUERY_NODES {
        Err(ExpandFault::TooLarge(measures.nodes))
    } else if measures.levels > MOST_QUERY_DEPTH {
        Err(ExpandFault::TooDeep(measures.levels))
    } else if measures.cost > MOST_QUERY_COST {
        Err(ExpandFault::TooCostly(measures.cost))
    } else {
        Ok(())
    }
}
