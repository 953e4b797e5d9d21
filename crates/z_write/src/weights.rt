//! The weight of a record: how many octets its written form has (ANSI/NISO Z39.50-2003,
//! NamePlusRecord). It takes no memory. A weight past the end of 64 bits is given as that end.

ghost use Rattle.std.specs.Prelude.{◌≡◌, ◌<◌, length};
ghost use Rattle.z_ber.specs.Written.{IsTag, element};
ghost use Rattle.z_types.specs.Bounds.{within64};
ghost use Rattle.unit_forms.specs.Fields.{object_identifier, integer, octets_field, optional};
ghost use Rattle.unit_forms.specs.Records.{diag_octets, encoding_tag, external_octets, item_octets, named_fields, named_octets, weight};
ghost use Rattle.unit_forms.specs.Tags.{name_of_name_plus_record};
ghost use Rattle.z_write.specs.Weights.{IsElementWeight, IsJoinedWeight};

use crate::fields::{EXTERNAL, GENERAL_STRING, INTEGER, OBJECT_IDENTIFIER, SEQUENCE};
use unit_forms::tags;
use z_ber::{Tag, header_len, int_len, oid_len};
use z_types::{Diag, Form, Item, NamedRecord, Oid, Text};

/// The weight of octets and of others behind them.
#[tactic(auto, using(crate::proofs::WeightLemmas::joined))]
fn joined_weight(first: u64, second: u64) -> u64
    ensures { IsJoinedWeight first second result }
{
    first.saturating_add(second)
}

/// The weight of an element whose contents have this weight.
#[tactic(auto, using(crate::proofs::WeightLemmas::in_element))]
fn element_weight(tag: Tag, contents: u64) -> u64
    requires { IsTag tag }
    ensures { IsElementWeight tag contents result }
{
    contents.saturating_add(header_len(tag, contents as usize) as u64)
}

/// The weight of an element of these octets.
fn octets_weight(tag: Tag, octets: &[u8]) -> u64
    requires { IsTag tag }
    ensures { result ≡ within64 (length (element tag octets.now)) }
{
    element_weight(tag, octets.len() as u64)
}

/// The weight of an OBJECT IDENTIFIER.
fn oid_weight(value: &Oid) -> u64
    ensures { result ≡ within64 (length (object_identifier value.now)) }
{
    element_weight(OBJECT_IDENTIFIER, oid_len(value.arcs()) as u64)
}

/// The weight of an INTEGER.
fn integer_weight(value: u32) -> u64
    ensures { result ≡ within64 (length (integer value)) }
{
    element_weight(INTEGER, int_len(i64::from(value)) as u64)
}

/// The weight of a diagnostic.
#[tactic(auto, unfolding(unit_forms::specs::Records::diag_fields))]
fn diag_weight(diag: &Diag) -> u64
    ensures { result ≡ within64 (length (diag_octets diag.now)) }
{
    let addinfo = octets_weight(GENERAL_STRING, diag.addinfo.as_slice());
    let behind_set = joined_weight(integer_weight(diag.condition), addinfo);
    element_weight(SEQUENCE, joined_weight(oid_weight(&diag.set), behind_set))
}

/// The weight of a record's octets, with the tag of their form.
fn encoding_weight(form: Form, bytes: &[u8]) -> u64
    ensures { result ≡ within64 (length (element (encoding_tag form) bytes.now)) }
{
    match form {
        Form::Single => octets_weight(Tag::constructed_context(tags::SINGLE_ASN1_TYPE), bytes),
        Form::Octets => octets_weight(Tag::context(tags::OCTET_ALIGNED), bytes),
        Form::Arbitrary => octets_weight(Tag::context(tags::ARBITRARY), bytes),
    }
}

/// The weight of an EXTERNAL.
fn external_weight(syntax: &Oid, form: Form, bytes: &[u8]) -> u64
    ensures { result ≡ within64 (length (external_octets syntax.now form bytes.now)) }
{
    let encoding = encoding_weight(form, bytes);
    element_weight(EXTERNAL, joined_weight(oid_weight(syntax), encoding))
}

/// The weight of what stands in a NamePlusRecord in the place of its record.
#[tactic(auto, unfolding(unit_forms::specs::Records::item_octets))]
fn item_weight(item: &Item) -> u64
    ensures { result ≡ within64 (length (item_octets item.now)) }
{
    match item {
        Item::Record {
            syntax,
            form,
            bytes,
        } => {
            let external = external_weight(syntax, *form, bytes.as_slice());
            element_weight(Tag::constructed_context(tags::RETRIEVAL_RECORD), external)
        }
        Item::Surrogate(diag) => {
            let tag = Tag::constructed_context(tags::SURROGATE_DIAGNOSTIC);
            element_weight(tag, diag_weight(diag))
        }
    }
}

/// The weight of a name, where there is one.
fn name_weight(name: &Option<Text>) -> u64
    ensures { result ≡
        within64 (length (optional (octets_field name_of_name_plus_record) name.now)) }
{
    match name {
        Some(name) => octets_weight(
            Tag::context(tags::NAME_OF_NAME_PLUS_RECORD),
            name.as_slice(),
        ),
        None => 0,
    }
}

/// The weight of the fields of a NamePlusRecord.
fn fields_weight(named: &NamedRecord) -> u64
    ensures { result ≡ within64 (length (named_fields named.now)) }
{
    let tag = Tag::constructed_context(tags::RECORD_OF_NAME_PLUS_RECORD);
    let item = element_weight(tag, item_weight(&named.item));
    joined_weight(name_weight(&named.name), item)
}

/// The weight of a record: the octets of its written form in a response, or the last number of 64 bits
/// where they are more. It takes no memory.
#[tactic(auto, unfolding(unit_forms::specs::Records::named_octets))]
pub fn weight(named: &NamedRecord) -> u64
    ensures { result ≡ weight named.now }
{
    element_weight(SEQUENCE, fields_weight(named))
}
