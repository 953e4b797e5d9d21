//! Records (SRU 1.2, Records), and what stands for them.

ghost use Rattle.std.specs.Prelude.{◌≡◌, ◌++◌, OnOk, codes};
ghost use Rattle.sru_reply.specs.Reply.{packing, packed, schema_of, data_of, record_fields, record_at, records_from, records};
ghost use Rattle.sru_reply.specs.Xml.{element};

use crate::diagnostic::put_diagnostic;
use crate::escape::put_escaped;
use crate::xml::{put_element, put_end, put_number_element, put_start};
use std::alloc::Global;
use z_types::{Memory, SruAnswer, SruDiag, SruItem, Text};

/// The name of a packing.
fn packing(escaped: bool) -> &'static [u8]
    ensures { result.now ≡ packing escaped }
{
    if escaped { b"string" } else { b"xml" }
}

/// The identifier of a record's schema.
fn schema_of<'a>(uri: &'a [u8], item: &SruItem) -> &'a [u8]
    ensures { result.now ≡ schema_of uri.now item.now }
{
    match item {
        SruItem::Data(_) => uri,
        SruItem::Fault(_) => b"info:srw/schema/1/diagnostics-v1.1",
    }
}

/// Octets of a record, packed.
fn put_packed(out: &mut Text, escaped: bool, octets: &[u8]) -> Result<(), Memory>
    ensures { OnOk result (out.new ≡ out.old ++ packed escaped octets.now) }
{
    if escaped {
        put_escaped(out, octets)
    } else {
        out.append(octets)
    }
}

/// A diagnostic, packed as a record is.
fn put_surrogate(alloc: Global, out: &mut Text, escaped: bool, diag: &SruDiag) -> Result<(), Memory>
    ensures { OnOk result (out.new ≡ out.old ++ packed escaped (data_of (SruItem.Fault diag.now))) }
{
    let mut text = Text::new(alloc);
    put_diagnostic(alloc, &mut text, diag)?;
    put_packed(out, escaped, text.as_slice())
}

/// What stands for a record, packed.
fn put_item(alloc: Global, out: &mut Text, escaped: bool, item: &SruItem) -> Result<(), Memory>
    ensures { OnOk result (out.new ≡ out.old ++ packed escaped (data_of item.now)) }
{
    match item {
        SruItem::Data(octets) => put_packed(out, escaped, octets.as_slice()),
        SruItem::Fault(diag) => put_surrogate(alloc, out, escaped, diag),
    }
}

/// The element of a record's octets.
#[tactic(auto, unfolding(crate::specs::Xml::element))]
fn put_data(alloc: Global, out: &mut Text, escaped: bool, item: &SruItem) -> Result<(), Memory>
    ensures { OnOk result (out.new ≡ out.old
        ++ element (codes "zs:recordData") (packed escaped (data_of item.now))) }
{
    put_start(out, b"zs:recordData")?;
    put_item(alloc, out, escaped, item)?;
    put_end(out, b"zs:recordData")
}

/// The element of a record's schema.
fn put_schema(out: &mut Text, answer: &SruAnswer, item: &SruItem) -> Result<(), Memory>
    ensures { OnOk result (out.new ≡ out.old
        ++ element (codes "zs:recordSchema") (schema_of answer.now.uri item.now)) }
{
    let schema = schema_of(answer.uri.as_slice(), item);
    put_element(out, b"zs:recordSchema", schema)
}

/// The element of a record's packing.
fn put_packing(out: &mut Text, escaped: bool) -> Result<(), Memory>
    ensures { OnOk result (out.new ≡ out.old
        ++ element (codes "zs:recordPacking") (packing escaped)) }
{
    put_element(out, b"zs:recordPacking", packing(escaped))
}

/// What is said of a record at a position.
fn put_fields(
    alloc: Global,
    out: &mut Text,
    answer: &SruAnswer,
    position: u128,
    item: &SruItem,
) -> Result<(), Memory>
    ensures { OnOk result (out.new ≡ out.old ++ record_fields answer.now position item.now) }
{
    put_schema(out, answer, item)?;
    put_packing(out, answer.escaped)?;
    put_data(alloc, out, answer.escaped, item)?;
    put_number_element(alloc, out, b"zs:recordPosition", position)
}

/// A record at a position.
#[tactic(auto, unfolding(crate::specs::Reply::record_at, crate::specs::Xml::element))]
fn put_record(
    alloc: Global,
    out: &mut Text,
    answer: &SruAnswer,
    position: u128,
    item: &SruItem,
) -> Result<(), Memory>
    ensures { OnOk result (out.new ≡ out.old ++ record_at answer.now position item.now) }
{
    put_start(out, b"zs:record")?;
    put_fields(alloc, out, answer, position, item)?;
    put_end(out, b"zs:record")
}

/// Records one after another.
fn put_each(
    alloc: Global,
    out: &mut Text,
    answer: &SruAnswer,
    items: &[SruItem],
) -> Result<(), Memory>
    ensures { OnOk result (out.new ≡ out.old
        ++ records_from answer.now answer.now.start items.now) }
{
    let mut position = u128::from(answer.start);
    for item in items {
        put_record(alloc, out, answer, position, item)?;
        position += 1;
    }
    Ok(())
}

/// The records, where one is given.
#[tactic(auto, unfolding(crate::specs::Reply::records, crate::specs::Xml::element))]
pub(crate) fn put_records(alloc: Global, out: &mut Text, answer: &SruAnswer) -> Result<(), Memory>
    ensures { OnOk result (out.new ≡ out.old ++ records answer.now) }
{
    if answer.items.is_empty() {
        return Ok(());
    }
    put_start(out, b"zs:records")?;
    put_each(alloc, out, answer, answer.items.as_slice())?;
    put_end(out, b"zs:records")
}
