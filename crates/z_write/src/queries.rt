//! Queries in their written form (ANSI/NISO Z39.50-2003, Query and RPNQuery).

ghost use Rattle.std.specs.Prelude.{◌≡◌, ◌++◌, ◌<◌, length, IfOk, OnOk, OnErr};
ghost use Rattle.std.specs.List.{flat_map};
ghost use Rattle.unit_forms.specs.Query.{term_octets, attr_fields, attr_octets, attributes_plus_term};
ghost use Rattle.unit_forms.specs.Fields.{tree_field};
ghost use Rattle.unit_forms.specs.Tags.{attributes_plus_term as attributes_plus_term_tag};
ghost use Rattle.z_write.specs.Kept.{StillBegins};

use crate::fields::{
    SEQUENCE, integer_len, number_len, octets_len, optional_identifier_len, put_header,
    put_integer, put_number, put_octets, put_optional_identifier,
};
use crate::lengths::{element_len, sum_of};
use unit_forms::tags;
use z_ber::Tag;
use z_types::{Attr, List, Memory, Term, Text};

/// A term.
#[tactic(auto, using(crate::proofs::KeptFront::kept_on))]
pub(crate) fn put_term(out: &mut Text, term: &Term) -> Result<(), Memory>
    ensures ok { OnOk result (out.new ≡ out.old ++ term_octets term.now) }
    ensures err { OnErr result (StillBegins out.old out.new) }
{
    match term {
        Term::General(octets) => put_octets(out, tags::GENERAL_TERM, octets.as_slice()),
        Term::Number(value) => put_integer(out, tags::NUMERIC_TERM, *value),
        Term::Words(octets) => put_octets(out, tags::CHARACTER_STRING_TERM, octets.as_slice()),
    }
}

pub(crate) fn term_len(term: &Term) -> Result<usize, Memory>
    ensures { IfOk result (λ len. len ≡ length (term_octets term.now)) }
{
    match term {
        Term::General(octets) => octets_len(tags::GENERAL_TERM, octets.as_slice()),
        Term::Number(value) => integer_len(tags::NUMERIC_TERM, *value),
        Term::Words(octets) => octets_len(tags::CHARACTER_STRING_TERM, octets.as_slice()),
    }
}

/// The fields of an AttributeElement.
#[tactic(auto, using(crate::proofs::KeptFront::kept_on), unfolding(unit_forms::specs::Query::attr_fields))]
fn put_attr_fields(out: &mut Text, attr: &Attr) -> Result<(), Memory>
    ensures ok { OnOk result (out.new ≡ out.old ++ attr_fields attr.now) }
    ensures err { OnErr result (StillBegins out.old out.new) }
{
    put_optional_identifier(out, tags::ATTRIBUTE_SET, &attr.set)?;
    put_number(out, tags::ATTRIBUTE_TYPE, attr.kind)?;
    put_number(out, tags::ATTRIBUTE_VALUE_NUMERIC, attr.value)
}

#[tactic(auto, unfolding(unit_forms::specs::Query::attr_fields))]
fn attr_fields_len(attr: &Attr) -> Result<usize, Memory>
    ensures { IfOk result (λ len. len ≡ length (attr_fields attr.now)) }
{
    sum_of(&[
        optional_identifier_len(tags::ATTRIBUTE_SET, &attr.set)?,
        number_len(tags::ATTRIBUTE_TYPE, attr.kind)?,
        number_len(tags::ATTRIBUTE_VALUE_NUMERIC, attr.value)?,
    ])
}

/// An AttributeElement.
#[tactic(auto, using(crate::proofs::KeptFront::kept_on))]
fn put_attr(out: &mut Text, attr: &Attr) -> Result<(), Memory>
    ensures ok { OnOk result (out.new ≡ out.old ++ attr_octets attr.now) }
    ensures err { OnErr result (StillBegins out.old out.new) }
{
    put_header(out, SEQUENCE, attr_fields_len(attr)?)?;
    put_attr_fields(out, attr)
}

fn attr_len(attr: &Attr) -> Result<usize, Memory>
    ensures { IfOk result (λ len. len ≡ length (attr_octets attr.now)) }
{
    element_len(SEQUENCE, attr_fields_len(attr)?)
}

/// Attributes one after another.
fn put_attrs(out: &mut Text, attrs: &[Attr]) -> Result<(), Memory>
    ensures ok { OnOk result (out.new ≡ out.old ++ flat_map attr_octets attrs.now) }
    ensures err { OnErr result (StillBegins out.old out.new) }
{
    for attr in attrs {
        put_attr(out, attr)?;
    }
    Ok(())
}

fn attrs_len(attrs: &[Attr]) -> Result<usize, Memory>
    ensures { IfOk result (λ len. len ≡ length (flat_map attr_octets attrs.now)) }
{
    let mut len = 0;
    for attr in attrs {
        len = sum_of(&[len, attr_len(attr)?])?;
    }
    Ok(len)
}

/// The attributes of an operand and its term.
#[tactic(auto, using(crate::proofs::KeptFront::kept_on))]
fn put_attributes_plus_term(out: &mut Text, attrs: &List<Attr>, term: &Term) -> Result<(), Memory>
    ensures ok { OnOk result (out.new ≡ out.old ++ attributes_plus_term attrs.now term.now) }
    ensures err { OnErr result (StillBegins out.old out.new) }
{
    let tag = Tag::constructed_context(tags::ATTRIBUTE_LIST);
    put_header(out, tag, attrs_len(attrs.as_slice())?)?;
    put_attrs(out, attrs.as_slice())?;
    put_term(out, term)
}

fn attributes_plus_term_len(attrs: &List<Attr>, term: &Term) -> Result<usize, Memory>
    ensures { IfOk result (λ len. len ≡ length (attributes_plus_term attrs.now term.now)) }
{
    let tag = Tag::constructed_context(tags::ATTRIBUTE_LIST);
    let attrs = element_len(tag, attrs_len(attrs.as_slice())?)?;
    sum_of(&[attrs, term_len(term)?])
}

/// Attributes and a term, with their tag.
#[tactic(auto, using(crate::proofs::KeptFront::kept_on))]
pub(crate) fn put_operand(out: &mut Text, attrs: &List<Attr>, term: &Term) -> Result<(), Memory>
    ensures ok { OnOk result (out.new ≡ out.old
        ++ tree_field attributes_plus_term_tag (attributes_plus_term attrs.now term.now)) }
    ensures err { OnErr result (StillBegins out.old out.new) }
{
    let tag = Tag::constructed_context(tags::ATTRIBUTES_PLUS_TERM);
    put_header(out, tag, attributes_plus_term_len(attrs, term)?)?;
    put_attributes_plus_term(out, attrs, term)
}

pub(crate) fn operand_len(attrs: &List<Attr>, term: &Term) -> Result<usize, Memory>
    ensures { IfOk result (λ len. len ≡
        length (tree_field attributes_plus_term_tag (attributes_plus_term attrs.now term.now))) }
{
    let tag = Tag::constructed_context(tags::ATTRIBUTES_PLUS_TERM);
    element_len(tag, attributes_plus_term_len(attrs, term)?)
}
