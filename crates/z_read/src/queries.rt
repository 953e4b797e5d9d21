//! Queries (ANSI/NISO Z39.50-2003, Query, RPNQuery, RPNStructure).

ghost use Rattle.std.specs.Prelude.{◌≡◌, ◌||◌, IfOk};
ghost use Rattle.unit_forms.specs.Tags as numbers;
ghost use Rattle.unit_forms.specs.Reading.Elements.{has_tag};
ghost use Rattle.unit_forms.specs.Reading.Rows.{context as context_tag};
ghost use Rattle.unit_forms.specs.Reading.Queries.{operand_of, operand_in, operator_of, operator_in, joined, join_asked, set_of, rpn_query_in, query_of, query_in};
ghost use Rattle.z_read.specs.Structures.{structure_of};
ghost use Rattle.z_fields.specs.Answers.{IsOrMemory};

use crate::attributes::attrs_and_term_in;
use crate::diagnostics::{other_form, other_query_type, proximity};
use std::alloc::Global;
use unit_forms::{Operator, tags};
use z_ber::Tag;
use z_fields::{
    Elements, Field, FieldFault, Fields, both, context, has_tag, octets_of, oid_of, universal,
};
use z_types::{Asked, Memory, Oid, Rpn, RpnQuery};

/// An operand: attributes and a term, the name of a result set, or a form that is not served.
fn operand_of(alloc: Global, field: &Field<'_>) -> Result<Asked<Rpn>, FieldFault>
    ensures { IsOrMemory (operand_of field.now) result }
{
    let tag = field.tag();
    if tag.number == tags::ATTRIBUTES_PLUS_TERM {
        if !tag.constructed {
            return Err(FieldFault::bad_value(tag.number));
        }
        return match attrs_and_term_in(alloc, &Fields::of(alloc, field))? {
            Asked::Good((attrs, term)) => Ok(Asked::Good(Rpn::leaf(attrs, term))),
            Asked::Bad(diag) => Ok(Asked::Bad(diag)),
        };
    }
    if tag.number == tags::RESULT_SET_ID {
        return Ok(Asked::Good(Rpn::operand(octets_of(alloc, field)?)));
    }
    Ok(Asked::Bad(other_form(alloc, tag.number)?))
}

/// The operand among elements.
#[tactic(auto, unfolding(unit_forms::specs::Reading::Queries::operand_in))]
fn operand_in(alloc: Global, elements: Elements<'_>) -> Result<Asked<Rpn>, FieldFault>
    ensures { IsOrMemory (operand_in elements.entry) result }
{
    let choice = [
        context(tags::ATTRIBUTES_PLUS_TERM),
        context(tags::RESULT_SET_ID),
        context(tags::RESULT_SET_PLUS_ATTRIBUTES),
    ];
    match elements.first_of(&choice) {
        Some(field) => operand_of(alloc, &field),
        None => Err(FieldFault::missing(tags::ATTRIBUTES_PLUS_TERM)),
    }
}

/// An operator; prox is not served.
fn operator_of(alloc: Global, field: &Field<'_>) -> Result<Asked<Operator>, FieldFault>
    ensures { IsOrMemory (operator_of field.now) result }
{
    match field.tag().number {
        tags::AND_OPERATOR => Ok(Asked::Good(Operator::And)),
        tags::OR_OPERATOR => Ok(Asked::Good(Operator::Or)),
        tags::AND_NOT_OPERATOR => Ok(Asked::Good(Operator::AndNot)),
        _ => Ok(Asked::Bad(proximity(alloc)?)),
    }
}

/// The operator among the elements of a structure.
#[tactic(auto, unfolding(unit_forms::specs::Reading::Queries::operator_in))]
fn operator_in(alloc: Global, elements: Elements<'_>) -> Result<Asked<Operator>, FieldFault>
    ensures { IsOrMemory (operator_in elements.entry) result }
{
    let Some(field) = elements.first_of(&[context(tags::OPERATOR)]) else {
        return Err(FieldFault::missing(tags::OPERATOR));
    };
    if !field.tag().constructed {
        return Err(FieldFault::bad_value(field.tag().number));
    }
    let choice = [
        context(tags::AND_OPERATOR),
        context(tags::OR_OPERATOR),
        context(tags::AND_NOT_OPERATOR),
        context(tags::PROXIMITY_OPERATOR),
    ];
    match field.elements().first_of(&choice) {
        Some(operator) => operator_of(alloc, &operator),
        None => Err(FieldFault::missing(tags::AND_OPERATOR)),
    }
}

/// Two structures that an operator joins.
fn join(alloc: Global, left: Rpn, right: Rpn, operator: Operator) -> Result<Rpn, Memory>
    ensures { IfOk result (λ query. query ≡ joined (left, (right, operator))) }
{
    match operator {
        Operator::And => Rpn::and(alloc, left, right),
        Operator::Or => Rpn::or(alloc, left, right),
        Operator::AndNot => Rpn::and_not(alloc, left, right),
    }
}

/// Two structures and an operator, or the first from the left that is not served.
fn join_asked(
    alloc: Global,
    left: Asked<Rpn>,
    right: Asked<Rpn>,
    operator: Asked<Operator>,
) -> Result<Asked<Rpn>, Memory>
    ensures { IfOk result (λ asked. asked ≡ join_asked (left, (right, operator))) }
{
    match left {
        Asked::Good(left) => match right {
            Asked::Good(right) => match operator {
                Asked::Good(operator) => Ok(Asked::Good(join(alloc, left, right, operator)?)),
                Asked::Bad(diag) => Ok(Asked::Bad(diag)),
            },
            Asked::Bad(diag) => Ok(Asked::Bad(diag)),
        },
        Asked::Bad(diag) => Ok(Asked::Bad(diag)),
    }
}

/// Whether a tag is one that a structure has.
fn is_structure(tag: Tag) -> bool
    ensures { result ≡ has_tag tag (context_tag numbers.operand)
        || has_tag tag (context_tag numbers.rpn_rpn_op) }
{
    has_tag(tag, context(tags::OPERAND)) || has_tag(tag, context(tags::RPN_RPN_OP))
}

/// The structure that an element is: an operand, or two structures and an operator.
#[tactic(auto, using(z_fields::proofs::AnswerLemmas::rows, crate::proofs::StructureLemmas::structure_steps))]
fn structure_of(alloc: Global, found: Option<Field<'_>>) -> Result<Asked<Rpn>, FieldFault>
    ensures { IsOrMemory (structure_of found.entry) result }
{
    let Some(field) = found else {
        return Err(FieldFault::missing(tags::OPERAND));
    };
    let tag = field.tag();
    if !is_structure(tag) {
        return Err(FieldFault::bad_value(tag.number));
    }
    if !tag.constructed {
        return Err(FieldFault::bad_value(tag.number));
    }
    if tag.number == tags::OPERAND {
        return operand_in(alloc, field.elements());
    }
    let mut elements = field.elements();
    let first = elements.next();
    let second = elements.next();
    let left = structure_of(alloc, first);
    let right = structure_of(alloc, second);
    let operator = operator_in(alloc, field.elements());
    let (left, (right, operator)) = both(left, both(right, operator))?;
    Ok(join_asked(alloc, left, right, operator)?)
}

/// The attribute set that the first element of a query is.
fn set_of(alloc: Global, found: Option<Field<'_>>) -> Result<Oid, FieldFault>
    ensures { IsOrMemory (set_of found.entry) result }
{
    match found {
        Some(field) => {
            if has_tag(field.tag(), universal(tags::OBJECT_IDENTIFIER)) {
                oid_of(alloc, &field)
            } else {
                Err(FieldFault::bad_value(field.tag().number))
            }
        }
        None => Err(FieldFault::missing(tags::OBJECT_IDENTIFIER)),
    }
}

/// A query of type 1 or 101, by the places of its elements.
#[tactic(auto, using(z_fields::proofs::AnswerLemmas::rows, crate::proofs::StructureLemmas::second_structure), unfolding(unit_forms::specs::Reading::Queries::rpn_query_in))]
fn rpn_query_in(alloc: Global, mut elements: Elements<'_>) -> Result<Asked<RpnQuery>, FieldFault>
    ensures { IsOrMemory (rpn_query_in elements.entry) result }
{
    let first = elements.next();
    let second = elements.next();
    let set = set_of(alloc, first);
    let root = structure_of(alloc, second);
    let (attr_set, root) = both(set, root)?;
    match root {
        Asked::Good(root) => Ok(Asked::Good(RpnQuery { attr_set, root })),
        Asked::Bad(diag) => Ok(Asked::Bad(diag)),
    }
}

/// A query of some type; those other than 1 and 101 are not served.
fn query_of(alloc: Global, field: &Field<'_>) -> Result<Asked<RpnQuery>, FieldFault>
    ensures { IsOrMemory (query_of field.now) result }
{
    let tag = field.tag();
    if tag.number != tags::TYPE_1_QUERY && tag.number != tags::TYPE_101_QUERY {
        return Ok(Asked::Bad(other_query_type(alloc, tag.number)?));
    }
    if tag.constructed {
        rpn_query_in(alloc, field.elements())
    } else {
        Err(FieldFault::bad_value(tag.number))
    }
}

/// The query among elements: the first of the context class.
#[tactic(auto, unfolding(unit_forms::specs::Reading::Queries::query_in))]
pub fn query_in(alloc: Global, elements: Elements<'_>) -> Result<Asked<RpnQuery>, FieldFault>
    ensures { IsOrMemory (query_in elements.entry) result }
{
    match elements.first_context() {
        Some(field) => query_of(alloc, &field),
        None => Err(FieldFault::missing(tags::TYPE_1_QUERY)),
    }
}
