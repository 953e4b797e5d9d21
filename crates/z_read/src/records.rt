//! Records, and what a response has in their place (ANSI/NISO Z39.50-2003, Records, NamePlusRecord;
//! X.690:2021, 8.18).

ghost use Rattle.std.specs.Prelude.{◌≡◌, ◌≢◌, ℕ, List, Some, None, if◌then◌else◌};
ghost use Rattle.unit_forms.specs.Tags as numbers;
ghost use Rattle.unit_forms.specs.Reading.Rows.{required, required_of, within, required_universal};
ghost use Rattle.unit_forms.specs.Reading.Diagnostics.{diag_of};
ghost use Rattle.unit_forms.specs.Reading.Records.{is_single, encoding_choice, encoding_of, external_in, item_of, item_in, named_in, records_in, diags_in, body_of, body_in};
ghost use Rattle.z_fields.specs.Answers.{IsOrMemory};

use crate::diagnostics::diag_of;
use crate::each::{Part, read_each};
use std::alloc::Global;
use unit_forms::tags;
use z_fields::{
    Elements, Field, FieldFault, Fields, bits_in, both, context, octets_of, optional_octets,
    required_oid, universal,
};
use z_types::{Body, Diag, Form, Item, List, NamedRecord, Text};

/// Whether elements are one.
fn is_one(mut elements: Elements<'_>) -> bool
    ensures { (octets : List ℕ)
        → (if result then Some octets else None) ≡ is_single elements.entry octets }
{
    let first = elements.next();
    first.is_some() && elements.next().is_none()
}

/// The octets of one whole element in a field.
fn single_in(alloc: Global, field: &Field<'_>) -> Result<(Form, Text), FieldFault>
    requires { field.now.tag.number ≡ numbers.single_asn1_type }
    ensures { IsOrMemory (encoding_of field.now) result }
{
    if !field.tag().constructed {
        return Err(FieldFault::bad_value(tags::SINGLE_ASN1_TYPE));
    }
    if is_one(field.elements()) {
        Ok((Form::Single, Text::copy_of(alloc, field.contents())?))
    } else {
        Err(FieldFault::bad_value(tags::SINGLE_ASN1_TYPE))
    }
}

/// The contents octets of a BIT STRING in a field.
fn arbitrary_in(alloc: Global, field: &Field<'_>) -> Result<(Form, Text), FieldFault>
    requires other { field.now.tag.number ≢ numbers.single_asn1_type }
    requires another { field.now.tag.number ≢ numbers.octet_aligned }
    ensures { IsOrMemory (encoding_of field.now) result }
{
    if field.tag().constructed {
        return Err(FieldFault::left_out(tags::ARBITRARY));
    }
    match bits_in(field.contents()) {
        Some(_) => Ok((Form::Arbitrary, Text::copy_of(alloc, field.contents())?)),
        None => Err(FieldFault::bad_value(tags::ARBITRARY)),
    }
}

/// The encoding of a record: one whole element, octets, or the contents octets of a BIT STRING.
fn encoding_of(alloc: Global, field: &Field<'_>) -> Result<(Form, Text), FieldFault>
    ensures { IsOrMemory (encoding_of field.now) result }
{
    let number = field.tag().number;
    if number == tags::SINGLE_ASN1_TYPE {
        return single_in(alloc, field);
    }
    if number == tags::OCTET_ALIGNED {
        return Ok((Form::Octets, octets_of(alloc, field)?));
    }
    arbitrary_in(alloc, field)
}

/// The encoding of an EXTERNAL, which has to be there.
fn required_encoding(alloc: Global, fields: &Fields<'_>) -> Result<(Form, Text), FieldFault>
    ensures { IsOrMemory
        (required_of numbers.single_asn1_type encoding_choice encoding_of fields.now) result }
{
    let choice = [
        context(tags::SINGLE_ASN1_TYPE),
        context(tags::OCTET_ALIGNED),
        context(tags::ARBITRARY),
    ];
    match fields.first_of(&choice) {
        Some(field) => encoding_of(alloc, &field),
        None => Err(FieldFault::missing(tags::SINGLE_ASN1_TYPE)),
    }
}

/// The record that an EXTERNAL of these fields is.
#[tactic(auto, using(z_fields::proofs::AnswerLemmas::rows), unfolding(unit_forms::specs::Reading::Records::external_in))]
fn external_in(alloc: Global, fields: &Fields<'_>) -> Result<Item, FieldFault>
    ensures { IsOrMemory (external_in fields.now) result }
{
    let syntax = required_oid(alloc, fields);
    let encoding = required_encoding(alloc, fields);
    let (syntax, (form, bytes)) = both(syntax, encoding)?;
    Ok(Item::Record {
        syntax,
        form,
        bytes,
    })
}

/// The record that an EXTERNAL is.
fn external_of(alloc: Global, field: &Field<'_>) -> Result<Item, FieldFault>
    ensures { IsOrMemory (within external_in field.now) result }
{
    let tag = field.tag();
    if tag.constructed {
        external_in(alloc, &Fields::of(alloc, field))
    } else {
        Err(FieldFault::bad_value(tag.number))
    }
}

/// The record in a field, an EXTERNAL.
fn retrieved_of(alloc: Global, field: &Field<'_>) -> Result<Item, FieldFault>
    ensures { IsOrMemory
        (within (required_universal numbers.external (within external_in)) field.now) result }
{
    let tag = field.tag();
    if !tag.constructed {
        return Err(FieldFault::bad_value(tag.number));
    }
    match field.elements().first_of(&[universal(tags::EXTERNAL)]) {
        Some(external) => external_of(alloc, &external),
        None => Err(FieldFault::missing(tags::EXTERNAL)),
    }
}

/// The diagnostic in a field.
fn surrogate_of(alloc: Global, field: &Field<'_>) -> Result<Diag, FieldFault>
    ensures { IsOrMemory (within (required_universal numbers.sequence diag_of) field.now) result }
{
    let tag = field.tag();
    if !tag.constructed {
        return Err(FieldFault::bad_value(tag.number));
    }
    match field.elements().first_of(&[universal(tags::SEQUENCE)]) {
        Some(sequence) => diag_of(alloc, &sequence),
        None => Err(FieldFault::missing(tags::SEQUENCE)),
    }
}

/// A record, or the diagnostic in its place.
fn item_of(alloc: Global, field: &Field<'_>) -> Result<Item, FieldFault>
    ensures { IsOrMemory (item_of field.now) result }
{
    if field.tag().number == tags::RETRIEVAL_RECORD {
        return retrieved_of(alloc, field);
    }
    Ok(Item::Surrogate(surrogate_of(alloc, field)?))
}

/// What stands in a record's field, which has to be there.
#[tactic(auto, unfolding(unit_forms::specs::Reading::Records::item_in))]
fn required_item(alloc: Global, fields: &Fields<'_>) -> Result<Item, FieldFault>
    ensures { IsOrMemory
        (required numbers.record_of_name_plus_record (within item_in) fields.now) result }
{
    let Some(record) = fields.first_of(&[context(tags::RECORD_OF_NAME_PLUS_RECORD)]) else {
        return Err(FieldFault::missing(tags::RECORD_OF_NAME_PLUS_RECORD));
    };
    if !record.tag().constructed {
        return Err(FieldFault::bad_value(record.tag().number));
    }
    let choice = [
        context(tags::RETRIEVAL_RECORD),
        context(tags::SURROGATE_DIAGNOSTIC),
    ];
    match record.elements().first_of(&choice) {
        Some(field) => item_of(alloc, &field),
        None => Err(FieldFault::missing(tags::RETRIEVAL_RECORD)),
    }
}

/// The record of these fields, with the name of its database.
#[tactic(auto, using(z_fields::proofs::AnswerLemmas::rows), unfolding(unit_forms::specs::Reading::Records::named_in))]
fn named_in(alloc: Global, fields: &Fields<'_>) -> Result<NamedRecord, FieldFault>
    ensures { IsOrMemory (named_in fields.now) result }
{
    let name = optional_octets(alloc, fields, tags::NAME_OF_NAME_PLUS_RECORD);
    let item = required_item(alloc, fields);
    let (name, item) = both(name, item)?;
    Ok(NamedRecord { name, item })
}

impl Part for NamedRecord {
    ghost use Rattle.unit_forms.specs.Reading.Records.{named_of as named_of_field};

    ghost reading = { named_of_field };

    fn read(alloc: Global, field: &Field<'_>) -> Result<NamedRecord, FieldFault> {
        let tag = field.tag();
        if tag.constructed {
            named_in(alloc, &Fields::of(alloc, field))
        } else {
            Err(FieldFault::bad_value(tag.number))
        }
    }
}

/// Diagnostics one after another.
#[tactic(auto, unfolding(unit_forms::specs::Reading::Records::diags_in))]
pub fn diags_of(alloc: Global, field: &Field<'_>) -> Result<List<Diag>, FieldFault>
    ensures { IsOrMemory (within diags_in field.now) result }
{
    let tag = field.tag();
    if tag.constructed {
        read_each(alloc, field.elements(), universal(tags::SEQUENCE))
    } else {
        Err(FieldFault::bad_value(tag.number))
    }
}

/// Records one after another.
#[tactic(auto, unfolding(unit_forms::specs::Reading::Records::records_in))]
fn records_of(alloc: Global, field: &Field<'_>) -> Result<List<NamedRecord>, FieldFault>
    ensures { IsOrMemory (within records_in field.now) result }
{
    let tag = field.tag();
    if tag.constructed {
        read_each(alloc, field.elements(), universal(tags::SEQUENCE))
    } else {
        Err(FieldFault::bad_value(tag.number))
    }
}

/// Records, one diagnostic, or several.
fn body_of(alloc: Global, field: &Field<'_>) -> Result<Body, FieldFault>
    ensures { IsOrMemory (body_of field.now) result }
{
    let number = field.tag().number;
    if number == tags::RESPONSE_RECORDS {
        return Ok(Body::Records(records_of(alloc, field)?));
    }
    if number == tags::NON_SURROGATE_DIAGNOSTIC {
        return Ok(Body::Diag(diag_of(alloc, field)?));
    }
    Ok(Body::Diags(diags_of(alloc, field)?))
}

/// What a response has for records.
#[tactic(auto, unfolding(unit_forms::specs::Reading::Records::body_in))]
pub fn body_in(alloc: Global, fields: &Fields<'_>) -> Result<Body, FieldFault>
    ensures { IsOrMemory (body_in fields.now) result }
{
    let choice = [
        context(tags::RESPONSE_RECORDS),
        context(tags::NON_SURROGATE_DIAGNOSTIC),
        context(tags::MULTIPLE_NON_SURROGATE_DIAGNOSTICS),
    ];
    match fields.first_of(&choice) {
        Some(field) => body_of(alloc, &field),
        None => Ok(Body::None),
    }
}
