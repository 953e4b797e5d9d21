//! Attributes and terms (ANSI/NISO Z39.50-2003, AttributesPlusTerm, AttributeElement, Term).

ghost use Rattle.std.specs.Prelude.{◌≡◌, ◌∷◌, true, IfOk};
ghost use Rattle.unit_forms.specs.Tags as numbers;
ghost use Rattle.unit_forms.specs.Reading.Answers.{read_as, each, all_asked};
ghost use Rattle.unit_forms.specs.Reading.Elements.{first_of};
ghost use Rattle.unit_forms.specs.Reading.Rows.{context as context_tag, required, required_of};
ghost use Rattle.unit_forms.specs.Reading.Attributes.{value_of, value_choice, attr_in, attr_of, attrs_of, term_of, term_choice, is_attributes_first, operand_asked, attrs_and_term_in};
ghost use Rattle.z_read.specs.Parts.{served_behind, asked_behind, IsBehind};
ghost use Rattle.z_fields.specs.Answers.{IsOrMemory};

use crate::diagnostics::other_form;
use std::alloc::Global;
use unit_forms::tags;
use z_ber::Tag;
use z_fields::{
    Elements, Field, FieldFault, Fields, both, context, has_tag, integer_of, number_of, octets_of,
    optional_oid, required_number, universal,
};
use z_types::{Asked, Attr, List, Memory, Term};

/// A numeric value, or a complex one, which is not served.
fn value_of(alloc: Global, field: &Field<'_>) -> Result<Asked<u32>, FieldFault>
    ensures { IsOrMemory (value_of field.now) result }
{
    if field.tag().number == tags::ATTRIBUTE_VALUE_COMPLEX {
        return Ok(Asked::Bad(other_form(alloc, tags::ATTRIBUTE_VALUE_COMPLEX)?));
    }
    Ok(Asked::Good(number_of(field)?))
}

/// The value of an attribute.
fn value_in(alloc: Global, fields: &Fields<'_>) -> Result<Asked<u32>, FieldFault>
    ensures { IsOrMemory
        (required_of numbers.attribute_value_numeric value_choice value_of fields.now) result }
{
    match fields.first_of(&[
        context(tags::ATTRIBUTE_VALUE_NUMERIC),
        context(tags::ATTRIBUTE_VALUE_COMPLEX),
    ]) {
        Some(field) => value_of(alloc, &field),
        None => Err(FieldFault::missing(tags::ATTRIBUTE_VALUE_NUMERIC)),
    }
}

/// The attribute of these fields.
#[tactic(auto, using(z_fields::proofs::AnswerLemmas::rows), unfolding(unit_forms::specs::Reading::Attributes::attr_in))]
fn attr_in(alloc: Global, fields: &Fields<'_>) -> Result<Asked<Attr>, FieldFault>
    ensures { IsOrMemory (attr_in fields.now) result }
{
    let set = optional_oid(alloc, fields, context(tags::ATTRIBUTE_SET));
    let kind = required_number(fields, tags::ATTRIBUTE_TYPE);
    let value = value_in(alloc, fields);
    let (set, (kind, value)) = both(set, both(kind, value))?;
    match value {
        Asked::Good(value) => Ok(Asked::Good(Attr { set, kind, value })),
        Asked::Bad(diag) => Ok(Asked::Bad(diag)),
    }
}

/// An attribute, which is a SEQUENCE.
fn attr_of(alloc: Global, field: &Field<'_>) -> Result<Asked<Attr>, FieldFault>
    ensures { IsOrMemory (attr_of field.now) result }
{
    let tag = field.tag();
    if has_tag(tag, universal(tags::SEQUENCE)) && tag.constructed {
        attr_in(alloc, &Fields::of(alloc, field))
    } else {
        Err(FieldFault::bad_value(tag.number))
    }
}

/// An attribute behind others, where all are served.
fn served_behind(attrs: Asked<List<Attr>>, attr: Asked<Attr>) -> Result<Asked<List<Attr>>, Memory>
    ensures { IfOk result (λ asked. asked ≡ served_behind (attrs, attr)) }
{
    match attrs {
        Asked::Good(mut attrs) => match attr {
            Asked::Good(attr) => {
                attrs.push(attr)?;
                Ok(Asked::Good(attrs))
            }
            Asked::Bad(diag) => Ok(Asked::Bad(diag)),
        },
        Asked::Bad(diag) => Ok(Asked::Bad(diag)),
    }
}

/// An attribute behind others, where all are read.
#[tactic(auto, using(z_fields::proofs::AnswerLemmas::rows))]
fn attr_behind(
    attrs: Result<Asked<List<Attr>>, FieldFault>,
    attr: Result<Asked<Attr>, FieldFault>,
) -> Result<Asked<List<Attr>>, FieldFault>
    ensures { IsBehind asked_behind attrs attr result }
{
    let (attrs, attr) = both(attrs, attr)?;
    Ok(served_behind(attrs, attr)?)
}

/// The attributes that elements are, each of them.
#[tactic(auto, using(crate::proofs::EachLemmas::asked_steps))]
fn every_attr(alloc: Global, mut elements: Elements<'_>) -> Result<Asked<List<Attr>>, FieldFault>
    ensures { IsOrMemory (read_as all_asked (each (λ field. true) attr_of elements.entry)) result }
{
    let mut attrs = Ok(Asked::Good(List::new(alloc)));
    loop {
        match elements.next() {
            None => return attrs,
            Some(field) => {
                let attr = attr_of(alloc, &field);
                attrs = attr_behind(attrs, attr);
            }
        }
    }
}

/// A list of attributes, which has to be there.
#[tactic(auto, unfolding(unit_forms::specs::Reading::Attributes::attrs_in))]
fn required_attrs(alloc: Global, fields: &Fields<'_>) -> Result<Asked<List<Attr>>, FieldFault>
    ensures { IsOrMemory (required numbers.attribute_list attrs_of fields.now) result }
{
    match fields.first_of(&[context(tags::ATTRIBUTE_LIST)]) {
        Some(field) => {
            if field.tag().constructed {
                every_attr(alloc, field.elements())
            } else {
                Err(FieldFault::bad_value(field.tag().number))
            }
        }
        None => Err(FieldFault::missing(tags::ATTRIBUTE_LIST)),
    }
}

/// The tags of terms.
pub fn term_choice() -> [Tag; 8]
    ensures { result ≡ term_choice }
{
    [
        context(tags::GENERAL_TERM),
        context(tags::NUMERIC_TERM),
        context(tags::CHARACTER_STRING_TERM),
        context(tags::OBJECT_IDENTIFIER_TERM),
        context(tags::DATE_TIME_TERM),
        context(tags::EXTERNAL_TERM),
        context(tags::INTEGER_AND_UNIT_TERM),
        context(tags::NULL_TERM),
    ]
}

/// A term, of a form that is served or another.
fn term_of(alloc: Global, field: &Field<'_>) -> Result<Asked<Term>, FieldFault>
    ensures { IsOrMemory (term_of field.now) result }
{
    let number = field.tag().number;
    if number == tags::GENERAL_TERM {
        return Ok(Asked::Good(Term::General(octets_of(alloc, field)?)));
    }
    if number == tags::NUMERIC_TERM {
        return Ok(Asked::Good(Term::Number(integer_of(field)?)));
    }
    if number == tags::CHARACTER_STRING_TERM {
        return Ok(Asked::Good(Term::Words(octets_of(alloc, field)?)));
    }
    Ok(Asked::Bad(other_form(alloc, number)?))
}

/// A term, which has to be there.
fn required_term(alloc: Global, fields: &Fields<'_>) -> Result<Asked<Term>, FieldFault>
    ensures { IsOrMemory (required_of numbers.general_term term_choice term_of fields.now) result }
{
    match fields.first_of(&term_choice()) {
        Some(field) => term_of(alloc, &field),
        None => Err(FieldFault::missing(tags::GENERAL_TERM)),
    }
}

/// Whether attributes stand before a term among these fields, where one of the two is there.
fn are_attributes_first(fields: &Fields<'_>) -> bool
    ensures { result ≡ is_attributes_first
        (first_of (context_tag numbers.attribute_list ∷ term_choice) fields.now) }
{
    let [general, numeric, words, a, b, c, d, e] = term_choice();
    let list = context(tags::ATTRIBUTE_LIST);
    match fields.first_of(&[list, general, numeric, words, a, b, c, d, e]) {
        Some(field) => field.tag().number == tags::ATTRIBUTE_LIST,
        None => true,
    }
}

/// Attributes and a term of these fields, or the first from the left that is not served.
fn operand_asked(
    fields: &Fields<'_>,
    attrs: Asked<List<Attr>>,
    term: Asked<Term>,
) -> Asked<(List<Attr>, Term)>
    ensures { result ≡ operand_asked (is_attributes_first
        (first_of (context_tag numbers.attribute_list ∷ term_choice) fields.now)) (attrs, term) }
{
    match attrs {
        Asked::Good(attrs) => match term {
            Asked::Good(term) => Asked::Good((attrs, term)),
            Asked::Bad(diag) => Asked::Bad(diag),
        },
        Asked::Bad(diag) => match term {
            Asked::Good(_) => Asked::Bad(diag),
            Asked::Bad(other) => {
                if are_attributes_first(fields) {
                    Asked::Bad(diag)
                } else {
                    Asked::Bad(other)
                }
            }
        },
    }
}

/// The attributes and the term of these fields.
#[tactic(auto, using(z_fields::proofs::AnswerLemmas::rows), unfolding(unit_forms::specs::Reading::Attributes::attrs_and_term_in))]
pub fn attrs_and_term_in(
    alloc: Global,
    fields: &Fields<'_>,
) -> Result<Asked<(List<Attr>, Term)>, FieldFault>
    ensures { IsOrMemory (attrs_and_term_in fields.now) result }
{
    let attrs = required_attrs(alloc, fields);
    let term = required_term(alloc, fields);
    let (attrs, term) = both(attrs, term)?;
    Ok(operand_asked(fields, attrs, term))
}
