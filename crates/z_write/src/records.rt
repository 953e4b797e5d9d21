//! Diagnostics and records in their written form (ANSI/NISO Z39.50-2003, DefaultDiagFormat,
//! Records and NamePlusRecord).

ghost use Rattle.std.specs.Prelude.{◌≡◌, List, ◌++◌, length, IfOk, OnOk, OnErr};
ghost use Rattle.std.specs.List.{flat_map};
ghost use Rattle.unit_forms.specs.Fields.{object_identifier};
ghost use Rattle.unit_forms.specs.Records.{diag_fields, diag_octets, encoding_tag, external_octets, item_octets, named_fields, named_octets, body_octets};
ghost use Rattle.z_ber.specs.Written.{element};
ghost use Rattle.z_types.specs.declared.records.Body.TheVariants as Body;
ghost use Rattle.z_write.specs.Kept.{StillBegins};

use crate::fields::{
    EXTERNAL, SEQUENCE, general_string_len, object_identifier_len, optional_octets_len,
    plain_integer_len, put_general_string, put_header, put_object_identifier, put_optional_octets,
    put_plain_integer,
};
use crate::lengths::{element_len, sum_of};
use unit_forms::tags;
use z_ber::{Tag, put_bytes, put_tree};
use z_types::{Body, Diag, Form, Item, List, Memory, NamedRecord, Oid, Text};

/// The fields of a diagnostic.
#[tactic(auto, using(crate::proofs::KeptFront::kept_on), unfolding(unit_forms::specs::Records::diag_fields))]
fn put_diag_fields(out: &mut Text, diag: &Diag) -> Result<(), Memory>
    ensures ok { OnOk result (out.new ≡ out.old ++ diag_fields diag.now) }
    ensures err { OnErr result (StillBegins out.old out.new) }
{
    put_object_identifier(out, &diag.set)?;
    put_plain_integer(out, diag.condition)?;
    put_general_string(out, diag.addinfo.as_slice())
}

#[tactic(auto, unfolding(unit_forms::specs::Records::diag_fields))]
fn diag_fields_len(diag: &Diag) -> Result<usize, Memory>
    ensures { IfOk result (λ len. len ≡ length (diag_fields diag.now)) }
{
    sum_of(&[
        object_identifier_len(&diag.set)?,
        plain_integer_len(diag.condition)?,
        general_string_len(diag.addinfo.as_slice())?,
    ])
}

/// A diagnostic, with the tag of its sequence.
#[tactic(auto, using(crate::proofs::KeptFront::kept_on))]
fn put_diag(out: &mut Text, diag: &Diag) -> Result<(), Memory>
    ensures ok { OnOk result (out.new ≡ out.old ++ diag_octets diag.now) }
    ensures err { OnErr result (StillBegins out.old out.new) }
{
    put_header(out, SEQUENCE, diag_fields_len(diag)?)?;
    put_diag_fields(out, diag)
}

fn diag_len(diag: &Diag) -> Result<usize, Memory>
    ensures { IfOk result (λ len. len ≡ length (diag_octets diag.now)) }
{
    element_len(SEQUENCE, diag_fields_len(diag)?)
}

/// Diagnostics one after another.
pub(crate) fn put_diags(out: &mut Text, diags: &[Diag]) -> Result<(), Memory>
    ensures ok { OnOk result (out.new ≡ out.old ++ flat_map diag_octets diags.now) }
    ensures err { OnErr result (StillBegins out.old out.new) }
{
    for diag in diags {
        put_diag(out, diag)?;
    }
    Ok(())
}

pub(crate) fn diags_len(diags: &[Diag]) -> Result<usize, Memory>
    ensures { IfOk result (λ len. len ≡ length (flat_map diag_octets diags.now)) }
{
    let mut len = 0;
    for diag in diags {
        len = sum_of(&[len, diag_len(diag)?])?;
    }
    Ok(len)
}

/// The octets of a record, as they stand, with the tag of their form.
#[tactic(auto, using(crate::proofs::KeptFront::kept_on))]
fn put_encoding(out: &mut Text, form: Form, bytes: &[u8]) -> Result<(), Memory>
    ensures ok { OnOk result (out.new ≡ out.old ++ element (encoding_tag form) bytes.now) }
    ensures err { OnErr result (StillBegins out.old out.new) }
{
    match form {
        Form::Single => put_tree(out, Tag::constructed_context(tags::SINGLE_ASN1_TYPE), bytes),
        Form::Octets => put_bytes(out, Tag::context(tags::OCTET_ALIGNED), bytes),
        Form::Arbitrary => put_bytes(out, Tag::context(tags::ARBITRARY), bytes),
    }
}

fn encoding_len(form: Form, bytes: &[u8]) -> Result<usize, Memory>
    ensures { IfOk result (λ len. len ≡ length (element (encoding_tag form) bytes.now)) }
{
    match form {
        Form::Single => element_len(
            Tag::constructed_context(tags::SINGLE_ASN1_TYPE),
            bytes.len(),
        ),
        Form::Octets => element_len(Tag::context(tags::OCTET_ALIGNED), bytes.len()),
        Form::Arbitrary => element_len(Tag::context(tags::ARBITRARY), bytes.len()),
    }
}

/// What stands in an EXTERNAL.
#[tactic(auto, using(crate::proofs::KeptFront::kept_on))]
fn put_external_fields(out: &mut Text, syntax: &Oid, form: Form, bytes: &[u8]) -> Result<(), Memory>
    ensures ok { OnOk result (out.new ≡ out.old
        ++ (object_identifier syntax.now ++ element (encoding_tag form) bytes.now)) }
    ensures err { OnErr result (StillBegins out.old out.new) }
{
    put_object_identifier(out, syntax)?;
    put_encoding(out, form, bytes)
}

fn external_fields_len(syntax: &Oid, form: Form, bytes: &[u8]) -> Result<usize, Memory>
    ensures { IfOk result (λ len. len ≡
        length ((object_identifier syntax.now ++ element (encoding_tag form) bytes.now))) }
{
    sum_of(&[object_identifier_len(syntax)?, encoding_len(form, bytes)?])
}

/// An EXTERNAL.
#[tactic(auto, using(crate::proofs::KeptFront::kept_on))]
fn put_external(out: &mut Text, syntax: &Oid, form: Form, bytes: &[u8]) -> Result<(), Memory>
    ensures ok { OnOk result (out.new ≡ out.old ++ external_octets syntax.now form bytes.now) }
    ensures err { OnErr result (StillBegins out.old out.new) }
{
    put_header(out, EXTERNAL, external_fields_len(syntax, form, bytes)?)?;
    put_external_fields(out, syntax, form, bytes)
}

fn external_len(syntax: &Oid, form: Form, bytes: &[u8]) -> Result<usize, Memory>
    ensures { IfOk result (λ len. len ≡ length (external_octets syntax.now form bytes.now)) }
{
    element_len(EXTERNAL, external_fields_len(syntax, form, bytes)?)
}

/// A record, or the diagnostic in its place.
#[tactic(auto, using(crate::proofs::KeptFront::kept_on), unfolding(unit_forms::specs::Records::item_octets))]
fn put_item(out: &mut Text, item: &Item) -> Result<(), Memory>
    ensures ok { OnOk result (out.new ≡ out.old ++ item_octets item.now) }
    ensures err { OnErr result (StillBegins out.old out.new) }
{
    match item {
        Item::Record {
            syntax,
            form,
            bytes,
        } => {
            let len = external_len(syntax, *form, bytes.as_slice())?;
            put_header(out, Tag::constructed_context(tags::RETRIEVAL_RECORD), len)?;
            put_external(out, syntax, *form, bytes.as_slice())
        }
        Item::Surrogate(diag) => {
            let tag = Tag::constructed_context(tags::SURROGATE_DIAGNOSTIC);
            put_header(out, tag, diag_len(diag)?)?;
            put_diag(out, diag)
        }
    }
}

#[tactic(auto, unfolding(unit_forms::specs::Records::item_octets))]
fn item_len(item: &Item) -> Result<usize, Memory>
    ensures { IfOk result (λ len. len ≡ length (item_octets item.now)) }
{
    match item {
        Item::Record {
            syntax,
            form,
            bytes,
        } => {
            let len = external_len(syntax, *form, bytes.as_slice())?;
            element_len(Tag::constructed_context(tags::RETRIEVAL_RECORD), len)
        }
        Item::Surrogate(diag) => element_len(
            Tag::constructed_context(tags::SURROGATE_DIAGNOSTIC),
            diag_len(diag)?,
        ),
    }
}

/// The fields of a NamePlusRecord.
#[tactic(auto, using(crate::proofs::KeptFront::kept_on))]
fn put_named_fields(out: &mut Text, named: &NamedRecord) -> Result<(), Memory>
    ensures ok { OnOk result (out.new ≡ out.old ++ named_fields named.now) }
    ensures err { OnErr result (StillBegins out.old out.new) }
{
    put_optional_octets(out, tags::NAME_OF_NAME_PLUS_RECORD, &named.name)?;
    let tag = Tag::constructed_context(tags::RECORD_OF_NAME_PLUS_RECORD);
    put_header(out, tag, item_len(&named.item)?)?;
    put_item(out, &named.item)
}

fn named_fields_len(named: &NamedRecord) -> Result<usize, Memory>
    ensures { IfOk result (λ len. len ≡ length (named_fields named.now)) }
{
    let name = optional_octets_len(tags::NAME_OF_NAME_PLUS_RECORD, &named.name)?;
    let tag = Tag::constructed_context(tags::RECORD_OF_NAME_PLUS_RECORD);
    let record = element_len(tag, item_len(&named.item)?)?;
    sum_of(&[name, record])
}

/// A record with the name of its database.
#[tactic(auto, using(crate::proofs::KeptFront::kept_on), unfolding(unit_forms::specs::Records::named_octets))]
fn put_named(out: &mut Text, named: &NamedRecord) -> Result<(), Memory>
    ensures ok { OnOk result (out.new ≡ out.old ++ named_octets named.now) }
    ensures err { OnErr result (StillBegins out.old out.new) }
{
    put_header(out, SEQUENCE, named_fields_len(named)?)?;
    put_named_fields(out, named)
}

#[tactic(auto, unfolding(unit_forms::specs::Records::named_octets))]
fn named_len(named: &NamedRecord) -> Result<usize, Memory>
    ensures { IfOk result (λ len. len ≡ length (named_octets named.now)) }
{
    element_len(SEQUENCE, named_fields_len(named)?)
}

/// Records one after another.
fn put_records(out: &mut Text, records: &[NamedRecord]) -> Result<(), Memory>
    ensures ok { OnOk result (out.new ≡ out.old ++ flat_map named_octets records.now) }
    ensures err { OnErr result (StillBegins out.old out.new) }
{
    for named in records {
        put_named(out, named)?;
    }
    Ok(())
}

fn records_len(records: &[NamedRecord]) -> Result<usize, Memory>
    ensures { IfOk result (λ len. len ≡ length (flat_map named_octets records.now)) }
{
    let mut len = 0;
    for named in records {
        len = sum_of(&[len, named_len(named)?])?;
    }
    Ok(len)
}

/// The records of a response.
#[tactic(auto, using(crate::proofs::KeptFront::kept_on), unfolding(unit_forms::specs::Records::body_octets))]
pub(crate) fn put_body(out: &mut Text, body: &Body) -> Result<(), Memory>
    ensures ok { OnOk result (out.new ≡ out.old ++ body_octets body.now) }
    ensures err { OnErr result (StillBegins out.old out.new) }
{
    match body {
        Body::None => Ok(()),
        Body::Records(records) => put_response_records(out, records),
        Body::Diag(diag) => {
            let tag = Tag::constructed_context(tags::NON_SURROGATE_DIAGNOSTIC);
            put_header(out, tag, diag_fields_len(diag)?)?;
            put_diag_fields(out, diag)
        }
        Body::Diags(diags) => {
            let tag = Tag::constructed_context(tags::MULTIPLE_NON_SURROGATE_DIAGNOSTICS);
            put_header(out, tag, diags_len(diags.as_slice())?)?;
            put_diags(out, diags.as_slice())
        }
    }
}

#[tactic(auto, unfolding(unit_forms::specs::Records::body_octets))]
pub(crate) fn body_len(body: &Body) -> Result<usize, Memory>
    ensures { IfOk result (λ len. len ≡ length (body_octets body.now)) }
{
    match body {
        Body::None => Ok(0),
        Body::Records(records) => response_records_len(records),
        Body::Diag(diag) => element_len(
            Tag::constructed_context(tags::NON_SURROGATE_DIAGNOSTIC),
            diag_fields_len(diag)?,
        ),
        Body::Diags(diags) => element_len(
            Tag::constructed_context(tags::MULTIPLE_NON_SURROGATE_DIAGNOSTICS),
            diags_len(diags.as_slice())?,
        ),
    }
}

/// The records of a response, where there are some.
#[tactic(auto, using(crate::proofs::KeptFront::kept_on), unfolding(unit_forms::specs::Records::body_octets))]
fn put_response_records(out: &mut Text, records: &List<NamedRecord>) -> Result<(), Memory>
    ensures ok { OnOk result (out.new ≡ out.old ++ body_octets (Body.Records records.now)) }
    ensures err { OnErr result (StillBegins out.old out.new) }
{
    if records.is_empty() {
        return Ok(());
    }
    let tag = Tag::constructed_context(tags::RESPONSE_RECORDS);
    put_header(out, tag, records_len(records.as_slice())?)?;
    put_records(out, records.as_slice())
}

#[tactic(auto, unfolding(unit_forms::specs::Records::body_octets))]
fn response_records_len(records: &List<NamedRecord>) -> Result<usize, Memory>
    ensures { IfOk result (λ len. len ≡ length (body_octets (Body.Records records.now))) }
{
    if records.is_empty() {
        return Ok(0);
    }
    let tag = Tag::constructed_context(tags::RESPONSE_RECORDS);
    element_len(tag, records_len(records.as_slice())?)
}
