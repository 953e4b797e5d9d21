//! A query with the client's result sets put in place of its operands.

ghost use Rattle.std.specs.Prelude.{◌≡◌, IfOk, map};
ghost use Rattle.z_types.specs.Tree.{operand};
ghost use Rattle.z_sets.specs.Askable.{HasAskableExpansion};
ghost use Rattle.z_sets.specs.Expansion.{IsExpansion, all_in_set, in_set, inside, substituted_among};
ghost use Rattle.z_sets.specs.Measured.{IsOrMemory, tested_expansion};

use crate::ExpandFault;
use crate::measures::{measure_expansion, measure_sets, names_a_set, test_bounds};
use crate::sets::set_for;
use std::alloc::Global;
use z_types::{Attr, KnownSet, List, Memory, Node, Oid, Rpn, RpnQuery, Text, copy};

/// The query with each operand that names a result set replaced by the query that the set stands for,
/// where that set is one of these legs. An attribute of a stored query that names no attribute set
/// gets that query's own, where the two queries' differ. It fails with the fault of the first operand
/// from the left that has no such set; else where the whole would have more than 4096 nodes, then
/// more than 48 levels, then a cost above 900000. Nothing is built before these tests are passed. Targets
/// may be asked for an expansion where no operand of a stored query is a result set, and all numbers are
/// within their range.
pub fn expand(
    alloc: Global,
    query: &RpnQuery,
    legs: &List<u32>,
    sets: &List<KnownSet>,
) -> Result<RpnQuery, ExpandFault>
    ensures expansion { IsExpansion query.now legs.now sets.now result }
    ensures askable { HasAskableExpansion query.now sets.now result }
{
    if names_a_set(&query.root) {
        expand_among(alloc, query, legs, sets.as_slice())
    } else {
        expand_among(alloc, query, legs, &[])
    }
}

/// `expand` among these sets.
fn expand_among(
    alloc: Global,
    query: &RpnQuery,
    legs: &List<u32>,
    sets: &[KnownSet],
) -> Result<RpnQuery, ExpandFault>
    ensures { IsExpansion query.now legs.now sets.now result }
{
    test_measures(alloc, &query.root, legs, sets)?;
    let root = build(alloc, &query.root, &query.attr_set, legs, sets)?;
    Ok(RpnQuery {
        attr_set: copy(&query.attr_set)?,
        root,
    })
}

/// Tests the measures of an expansion: all operands first, then the bounds.
fn test_measures(
    alloc: Global,
    query: &Rpn,
    legs: &List<u32>,
    sets: &[KnownSet],
) -> Result<(), ExpandFault>
    ensures { IsOrMemory (tested_expansion legs.now sets.now query.now) result }
{
    let sizes = measure_sets(alloc, sets)?;
    let measures = measure_expansion(query, legs, sets, sizes.as_slice())?;
    test_bounds(measures)
}

/// A structure of this attribute set with stored queries in place of its operand sets, or the fault of
/// the first operand from the left. It calls itself as deep as the structure is.
fn build(
    alloc: Global,
    query: &Rpn,
    arcs: &Oid,
    legs: &List<u32>,
    sets: &[KnownSet],
) -> Result<Rpn, ExpandFault>
    ensures { IsOrMemory (substituted_among arcs.now legs.now sets.now query.now) result }
{
    match &query.node {
        Node::Leaf(attrs, term) => Ok(Rpn::leaf(copy(attrs)?, copy(term)?)),
        Node::Set(name) => build_operand(alloc, name, arcs, legs, sets),
        Node::And(left, right) => {
            let left = build(alloc, left, arcs, legs, sets)?;
            let right = build(alloc, right, arcs, legs, sets)?;
            Ok(Rpn::and(alloc, left, right)?)
        }
        Node::Or(left, right) => {
            let left = build(alloc, left, arcs, legs, sets)?;
            let right = build(alloc, right, arcs, legs, sets)?;
            Ok(Rpn::or(alloc, left, right)?)
        }
        Node::AndNot(left, right) => {
            let left = build(alloc, left, arcs, legs, sets)?;
            let right = build(alloc, right, arcs, legs, sets)?;
            Ok(Rpn::and_not(alloc, left, right)?)
        }
    }
}

/// What stands for the result set of a name.
fn build_operand(
    alloc: Global,
    name: &Text,
    arcs: &Oid,
    legs: &List<u32>,
    sets: &[KnownSet],
) -> Result<Rpn, ExpandFault>
    ensures { IsOrMemory (substituted_among arcs.now legs.now sets.now (operand name.now)) result }
{
    let set = set_for(name, legs, sets)?;
    Ok(tree_inside(alloc, &set.query, arcs)?)
}

/// The structure of a stored query inside a query of this attribute set.
fn tree_inside(alloc: Global, query: &RpnQuery, arcs: &Oid) -> Result<Rpn, Memory>
    ensures { IfOk result (λ root. root ≡ inside arcs.now query.now) }
{
    if query.attr_set == *arcs {
        copy(&query.root)
    } else {
        tree_in_set(alloc, &query.root, &query.attr_set)
    }
}

/// The structure, in which each attribute that names no attribute set gets this one. It calls itself
/// as deep as the structure is.
fn tree_in_set(alloc: Global, query: &Rpn, arcs: &Oid) -> Result<Rpn, Memory>
    ensures { IfOk result (λ root. root ≡ all_in_set arcs.now query.now) }
{
    match &query.node {
        Node::Leaf(attrs, term) => {
            let attrs = attributes_in_set(alloc, attrs, arcs)?;
            Ok(Rpn::leaf(attrs, copy(term)?))
        }
        Node::Set(name) => Ok(Rpn::operand(copy(name)?)),
        Node::And(left, right) => {
            let left = tree_in_set(alloc, left, arcs)?;
            let right = tree_in_set(alloc, right, arcs)?;
            Rpn::and(alloc, left, right)
        }
        Node::Or(left, right) => {
            let left = tree_in_set(alloc, left, arcs)?;
            let right = tree_in_set(alloc, right, arcs)?;
            Rpn::or(alloc, left, right)
        }
        Node::AndNot(left, right) => {
            let left = tree_in_set(alloc, left, arcs)?;
            let right = tree_in_set(alloc, right, arcs)?;
            Rpn::and_not(alloc, left, right)
        }
    }
}

/// The attributes, of which each that names no attribute set gets this one.
fn attributes_in_set(alloc: Global, attrs: &List<Attr>, arcs: &Oid) -> Result<List<Attr>, Memory>
    ensures { IfOk result (λ list. list ≡ map (in_set arcs.now) attrs.now) }
{
    let mut list = List::new(alloc);
    for attr in attrs.as_slice() {
        list.push(attribute_in_set(attr, arcs)?)?;
    }
    Ok(list)
}

/// The attribute, which gets this attribute set where it names none.
fn attribute_in_set(attr: &Attr, arcs: &Oid) -> Result<Attr, Memory>
    ensures { IfOk result (λ own. own ≡ in_set arcs.now attr.now) }
{
    let set = match &attr.set {
        Some(own) => copy(own)?,
        None => copy(arcs)?,
    };
    Ok(Attr {
        set: Some(set),
        kind: attr.kind,
        value: attr.value,
    })
}
