//! Kinds of fields (X.690:2021, 8.2 to 8.9, 8.19, 8.23), and rows of a table of fields.

ghost use Rattle.std.specs.Prelude.{◌≡◌, [], ◌∷◌};
ghost use Rattle.unit_forms.specs.Tags as numbers;
ghost use Rattle.unit_forms.specs.Reading.Rows.{context as context_tag, universal as universal_tag, octets_of as octets_in_field, bits_of as bits_in_field, truth_of as truth_in_field, integer_of as integer_in_field, number_of as number_in_field, oid_of as oid_in_field, required, optional, optional_of, required_universal};
ghost use Rattle.z_fields.specs.Answers.{as_fault, IsOrMemory};

use crate::answers::FieldFault;
use crate::bits::bits_in;
use crate::elements::Field;
use crate::fields::Fields;
use crate::integers::{integer_in, number_in, truth_in};
use crate::oids::oid_in;
use std::alloc::Global;
use unit_forms::tags;
use z_ber::Tag;
use z_types::{Oid, Text};

/// The context tag of a number.
#[inline(always)]
pub fn context(number: u32) -> Tag
    ensures { result ≡ context_tag number }
{
    Tag {
        class: 2,
        constructed: false,
        number,
    }
}

/// The universal tag of a number.
#[inline(always)]
pub fn universal(number: u32) -> Tag
    ensures { result ≡ universal_tag number }
{
    Tag {
        class: 0,
        constructed: false,
        number,
    }
}

/// A string, in primitive form alone.
#[inline(always)]
pub fn octets_of(alloc: Global, field: &Field<'_>) -> Result<Text, FieldFault>
    ensures { IsOrMemory (octets_in_field field.now) result }
{
    let tag = field.tag();
    if tag.constructed {
        return Err(FieldFault::left_out(tag.number));
    }
    Ok(Text::copy_of(alloc, field.contents())?)
}

/// A BIT STRING, in primitive form alone.
#[inline(always)]
pub fn bits_of(field: &Field<'_>) -> Result<u32, FieldFault>
    ensures { result ≡ as_fault (bits_in_field field.now) }
{
    let tag = field.tag();
    if tag.constructed {
        return Err(FieldFault::left_out(tag.number));
    }
    match bits_in(field.contents()) {
        Some(bits) => Ok(bits),
        None => Err(FieldFault::bad_value(tag.number)),
    }
}

/// A BOOLEAN.
#[inline(always)]
pub fn flag_of(field: &Field<'_>) -> Result<bool, FieldFault>
    ensures { result ≡ as_fault (truth_in_field field.now) }
{
    let tag = field.tag();
    if tag.constructed {
        return Err(FieldFault::bad_value(tag.number));
    }
    match truth_in(field.contents()) {
        Some(flag) => Ok(flag),
        None => Err(FieldFault::bad_value(tag.number)),
    }
}

/// An INTEGER of up to 8 octets.
#[inline(always)]
pub fn integer_of(field: &Field<'_>) -> Result<i64, FieldFault>
    ensures { result ≡ as_fault (integer_in_field field.now) }
{
    let tag = field.tag();
    if tag.constructed {
        return Err(FieldFault::bad_value(tag.number));
    }
    match integer_in(field.contents()) {
        Some(value) => Ok(value),
        None => Err(FieldFault::bad_value(tag.number)),
    }
}

/// An INTEGER from 0 to 2147483647.
#[inline(always)]
pub fn number_of(field: &Field<'_>) -> Result<u32, FieldFault>
    ensures { result ≡ as_fault (number_in_field field.now) }
{
    let tag = field.tag();
    if tag.constructed {
        return Err(FieldFault::bad_value(tag.number));
    }
    match number_in(field.contents()) {
        Some(value) => Ok(value),
        None => Err(FieldFault::bad_value(tag.number)),
    }
}

/// An OBJECT IDENTIFIER.
#[inline(always)]
pub fn oid_of(alloc: Global, field: &Field<'_>) -> Result<Oid, FieldFault>
    ensures { IsOrMemory (oid_in_field field.now) result }
{
    let tag = field.tag();
    if tag.constructed {
        return Err(FieldFault::bad_value(tag.number));
    }
    match oid_in(alloc, field.contents())? {
        Some(oid) => Ok(oid),
        None => Err(FieldFault::bad_value(tag.number)),
    }
}

/// The string of this number, which has to be there.
#[inline(always)]
pub fn required_octets(alloc: Global, fields: &Fields<'_>, number: u32) -> Result<Text, FieldFault>
    ensures { IsOrMemory (required number octets_in_field fields.now) result }
{
    match fields.first_of(&[context(number)]) {
        Some(field) => octets_of(alloc, &field),
        None => Err(FieldFault::missing(number)),
    }
}

/// The string of this number, where it is there.
#[inline(always)]
pub fn optional_octets(
    alloc: Global,
    fields: &Fields<'_>,
    number: u32,
) -> Result<Option<Text>, FieldFault>
    ensures { IsOrMemory (optional number octets_in_field fields.now) result }
{
    match fields.first_of(&[context(number)]) {
        Some(field) => Ok(Some(octets_of(alloc, &field)?)),
        None => Ok(None),
    }
}

/// The OBJECT IDENTIFIER with one of these tags, where it is there.
#[inline(always)]
pub fn optional_oid(alloc: Global, fields: &Fields<'_>, tag: Tag) -> Result<Option<Oid>, FieldFault>
    ensures { IsOrMemory (optional_of (tag ∷ []) oid_in_field fields.now) result }
{
    match fields.first_of(&[tag]) {
        Some(field) => Ok(Some(oid_of(alloc, &field)?)),
        None => Ok(None),
    }
}

/// The OBJECT IDENTIFIER with the universal tag, which has to be there.
#[inline(always)]
pub fn required_oid(alloc: Global, fields: &Fields<'_>) -> Result<Oid, FieldFault>
    ensures { IsOrMemory
        (required_universal numbers.object_identifier oid_in_field fields.now) result }
{
    match fields.first_of(&[universal(tags::OBJECT_IDENTIFIER)]) {
        Some(field) => oid_of(alloc, &field),
        None => Err(FieldFault::missing(tags::OBJECT_IDENTIFIER)),
    }
}

/// The bits of this number, which have to be there.
#[inline(always)]
pub fn required_bits(fields: &Fields<'_>, number: u32) -> Result<u32, FieldFault>
    ensures { result ≡ as_fault (required number bits_in_field fields.now) }
{
    match fields.first_of(&[context(number)]) {
        Some(field) => bits_of(&field),
        None => Err(FieldFault::missing(number)),
    }
}

/// The truth value of this number, which has to be there.
#[inline(always)]
pub fn required_flag(fields: &Fields<'_>, number: u32) -> Result<bool, FieldFault>
    ensures { result ≡ as_fault (required number truth_in_field fields.now) }
{
    match fields.first_of(&[context(number)]) {
        Some(field) => flag_of(&field),
        None => Err(FieldFault::missing(number)),
    }
}

/// The INTEGER of this number, which has to be there.
#[inline(always)]
pub fn required_integer(fields: &Fields<'_>, number: u32) -> Result<i64, FieldFault>
    ensures { result ≡ as_fault (required number integer_in_field fields.now) }
{
    match fields.first_of(&[context(number)]) {
        Some(field) => integer_of(&field),
        None => Err(FieldFault::missing(number)),
    }
}

/// The number of this tag, which has to be there.
#[inline(always)]
pub fn required_number(fields: &Fields<'_>, number: u32) -> Result<u32, FieldFault>
    ensures { result ≡ as_fault (required number number_in_field fields.now) }
{
    match fields.first_of(&[context(number)]) {
        Some(field) => number_of(&field),
        None => Err(FieldFault::missing(number)),
    }
}

/// The number of this tag, where it is there.
#[inline(always)]
pub fn optional_number(fields: &Fields<'_>, number: u32) -> Result<Option<u32>, FieldFault>
    ensures { result ≡ as_fault (optional number number_in_field fields.now) }
{
    match fields.first_of(&[context(number)]) {
        Some(field) => {
            let value = number_of(&field)?;
            Ok(Some(value))
        },
        None => Ok(None),
    }
}
