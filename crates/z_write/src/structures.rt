//! The structures of queries in their written form (ANSI/NISO Z39.50-2003, RPNStructure). The
//! lengths of operators are computed in one pass and kept in a list, from which the next pass takes
//! them, so that the work is linear however deep a query is.

ghost use Rattle.std.specs.Prelude.{◌≡◌, List, ◌++◌, ◌<◌, ◌^◌, length, IfOk, OnOk, OnErr};
ghost use Rattle.unit_forms.specs.Fields.{tree_field, octets_field};
ghost use Rattle.unit_forms.specs.Query.{leaf_octets, operator_octets, tree_octets, rpn_fields, query_octets, asked_octets};
ghost use Rattle.unit_forms.specs.Tags.{operand, result_set_id};
ghost use Rattle.z_write.specs.Kept.{StillBegins};
ghost use Rattle.z_write.specs.Operators.{operator_lens, IsOperatorLength, KeepsOperator, PutsStructure, OpensOperator};

use crate::fields::{
    object_identifier_len, octets_len, put_header, put_object_identifier, put_octets,
};
use crate::lengths::{element_len, sum_of};
use crate::queries::{operand_len, put_operand};
use std::alloc::Global;
use unit_forms::tags;
use z_ber::Tag;
use z_types::{Asked, Attr, List, Memory, Node, Rpn, RpnQuery, Term, Text};

/// An operand of attributes and a term.
#[tactic(auto, using(crate::proofs::KeptFront::kept), unfolding(unit_forms::specs::Query::leaf_octets))]
fn put_leaf(out: &mut Text, attrs: &List<Attr>, term: &Term) -> Result<(), Memory>
    ensures ok { OnOk result (out.new ≡ out.old ++ leaf_octets attrs.now term.now) }
    ensures front { StillBegins out.old out.new }
{
    put_header(
        out,
        Tag::constructed_context(tags::OPERAND),
        operand_len(attrs, term)?,
    )?;
    put_operand(out, attrs, term)
}

#[tactic(auto, unfolding(unit_forms::specs::Query::leaf_octets))]
fn leaf_len(attrs: &List<Attr>, term: &Term) -> Result<usize, Memory>
    ensures { IfOk result (λ len. len ≡ length (leaf_octets attrs.now term.now)) }
{
    element_len(
        Tag::constructed_context(tags::OPERAND),
        operand_len(attrs, term)?,
    )
}

/// A result set, as an operand.
#[tactic(auto, using(crate::proofs::KeptFront::kept))]
fn put_set(out: &mut Text, name: &Text) -> Result<(), Memory>
    ensures ok { OnOk result (out.new ≡ out.old
        ++ tree_field operand (octets_field result_set_id name.now)) }
    ensures front { StillBegins out.old out.new }
{
    let len = octets_len(tags::RESULT_SET_ID, name.as_slice())?;
    put_header(out, Tag::constructed_context(tags::OPERAND), len)?;
    put_octets(out, tags::RESULT_SET_ID, name.as_slice())
}

fn set_len(name: &Text) -> Result<usize, Memory>
    ensures { IfOk result (λ len. len ≡
        length (tree_field operand (octets_field result_set_id name.now))) }
{
    let len = octets_len(tags::RESULT_SET_ID, name.as_slice())?;
    element_len(Tag::constructed_context(tags::OPERAND), len)
}

/// An operator, behind its operands.
#[tactic(auto, using(crate::proofs::KeptFront::kept))]
fn put_operator(out: &mut Text, operator: u32) -> Result<(), Memory>
    requires { operator < 2 ^ 31 }
    ensures ok { OnOk result (out.new ≡ out.old ++ operator_octets operator) }
    ensures front { StillBegins out.old out.new }
{
    put_header(
        out,
        Tag::constructed_context(tags::OPERATOR),
        octets_len(operator, &[])?,
    )?;
    put_octets(out, operator, &[])
}

fn operator_len(operator: u32) -> Result<usize, Memory>
    requires { operator < 2 ^ 31 }
    ensures { IfOk result (λ len. len ≡ length (operator_octets operator)) }
{
    element_len(
        Tag::constructed_context(tags::OPERATOR),
        octets_len(operator, &[])?,
    )
}

/// The length of two structures of these lengths under an operator, whose contents' length is kept.
fn keep_operator(
    lens: &mut Vec<usize>,
    first: usize,
    second: usize,
    operator: u32,
) -> Result<usize, Memory>
    requires { operator < 2 ^ 31 }
    ensures len { IfOk result (IsOperatorLength first second operator) }
    ensures kept { OnOk result (KeepsOperator first second operator lens.old.items lens.new.items) }
{
    let len = sum_of(&[first, second, operator_len(operator)?])?;
    lens.push(len)?;
    element_len(Tag::constructed_context(tags::RPN_RPN_OP), len)
}

/// The length of a structure, with the lengths of its operators' contents kept.
#[tactic(auto, unfolding(unit_forms::specs::Query::tree_octets))]
fn structure_len(lens: &mut Vec<usize>, query: &Rpn) -> Result<usize, Memory>
    ensures len { IfOk result (λ len. len ≡ length (tree_octets query.now)) }
    ensures kept { OnOk result (lens.new.items ≡ lens.old.items ++ operator_lens query.now) }
{
    match &query.node {
        Node::Leaf(attrs, term) => leaf_len(attrs, term),
        Node::Set(name) => set_len(name),
        Node::And(left, right) => {
            let second = structure_len(lens, &**right)?;
            let first = structure_len(lens, &**left)?;
            keep_operator(lens, first, second, tags::AND_OPERATOR)
        }
        Node::Or(left, right) => {
            let second = structure_len(lens, &**right)?;
            let first = structure_len(lens, &**left)?;
            keep_operator(lens, first, second, tags::OR_OPERATOR)
        }
        Node::AndNot(left, right) => {
            let second = structure_len(lens, &**right)?;
            let first = structure_len(lens, &**left)?;
            keep_operator(lens, first, second, tags::AND_NOT_OPERATOR)
        }
    }
}

/// The identifier and length octets of two structures under an operator, whose contents' length
/// was kept last.
#[tactic(auto, using(crate::proofs::KeptFront::kept_either))]
fn open_operator(out: &mut Text, lens: &mut Vec<usize>) -> Result<(), Memory>
    ensures ok { OnOk result (OpensOperator lens.old.items lens.new.items out.old out.new) }
    ensures front { StillBegins out.old out.new }
{
    let len = lens.pop().unwrap_or(0);
    put_header(out, Tag::constructed_context(tags::RPN_RPN_OP), len)
}

/// A structure, whose operators' lengths were kept last.
#[tactic(auto, using(crate::proofs::KeptFront::kept), unfolding(unit_forms::specs::Query::tree_octets))]
fn put_structure(out: &mut Text, lens: &mut Vec<usize>, query: &Rpn) -> Result<(), Memory>
    ensures ok { OnOk result
        (PutsStructure query.now lens.old.items lens.new.items out.old out.new) }
    ensures front { StillBegins out.old out.new }
{
    match &query.node {
        Node::Leaf(attrs, term) => put_leaf(out, attrs, term),
        Node::Set(name) => put_set(out, name),
        Node::And(left, right) => {
            open_operator(out, lens)?;
            put_structure(out, lens, &**left)?;
            put_structure(out, lens, &**right)?;
            put_operator(out, tags::AND_OPERATOR)
        }
        Node::Or(left, right) => {
            open_operator(out, lens)?;
            put_structure(out, lens, &**left)?;
            put_structure(out, lens, &**right)?;
            put_operator(out, tags::OR_OPERATOR)
        }
        Node::AndNot(left, right) => {
            open_operator(out, lens)?;
            put_structure(out, lens, &**left)?;
            put_structure(out, lens, &**right)?;
            put_operator(out, tags::AND_NOT_OPERATOR)
        }
    }
}

/// The structure of a query, of whose operators the lengths are these.
fn put_root(out: &mut Text, lens: &mut Vec<usize>, root: &Rpn) -> Result<(), Memory>
    requires { lens.old.items ≡ operator_lens root.now }
    ensures ok { OnOk result (out.new ≡ out.old ++ tree_octets root.now) }
    ensures front { StillBegins out.old out.new }
{
    put_structure(out, lens, root)
}

/// The attribute set and the structure of a query.
fn rpn_fields_len(lens: &mut Vec<usize>, query: &RpnQuery) -> Result<usize, Memory>
    ensures len { IfOk result (λ len. len ≡ length (rpn_fields query.now)) }
    ensures kept { OnOk result (lens.new.items ≡ lens.old.items ++ operator_lens query.now.root) }
{
    let root = structure_len(lens, &query.root)?;
    sum_of(&[object_identifier_len(&query.attr_set)?, root])
}

/// A query of type 1.
#[tactic(auto, using(crate::proofs::KeptFront::kept_on), unfolding(unit_forms::specs::Query::query_octets))]
fn put_query(alloc: Global, out: &mut Text, query: &RpnQuery) -> Result<(), Memory>
    ensures ok { OnOk result (out.new ≡ out.old ++ query_octets query.now) }
    ensures err { OnErr result (StillBegins out.old out.new) }
{
    let mut lens = Vec::new(alloc);
    let len = rpn_fields_len(&mut lens, query)?;
    put_header(out, Tag::constructed_context(tags::TYPE_1_QUERY), len)?;
    put_object_identifier(out, &query.attr_set)?;
    put_root(out, &mut lens, &query.root)
}

#[tactic(auto, unfolding(unit_forms::specs::Query::query_octets))]
fn query_len(alloc: Global, query: &RpnQuery) -> Result<usize, Memory>
    ensures { IfOk result (λ len. len ≡ length (query_octets query.now)) }
{
    let len = rpn_fields_len(&mut Vec::new(alloc), query)?;
    element_len(Tag::constructed_context(tags::TYPE_1_QUERY), len)
}

/// A query, where it is not refused.
pub(crate) fn put_asked(
    alloc: Global,
    out: &mut Text,
    asked: &Asked<RpnQuery>,
) -> Result<(), Memory>
    ensures ok { OnOk result (out.new ≡ out.old ++ asked_octets asked.now) }
    ensures err { OnErr result (StillBegins out.old out.new) }
{
    match asked {
        Asked::Good(query) => put_query(alloc, out, query),
        Asked::Bad(_) => Ok(()),
    }
}

pub(crate) fn asked_len(alloc: Global, asked: &Asked<RpnQuery>) -> Result<usize, Memory>
    ensures { IfOk result (λ len. len ≡ length (asked_octets asked.now)) }
{
    match asked {
        Asked::Good(query) => query_len(alloc, query),
        Asked::Bad(_) => Ok(0),
    }
}
