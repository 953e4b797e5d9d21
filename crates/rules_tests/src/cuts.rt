//! Records that are cut to the sizes of an Init. A subject is the preferred and the exceptional size, how many
//! records were asked for, and behind a colon the octets of each that came, in XML and of the database `Default`.

use crate::words::numbers_of;
use case_files::{Answer, NoAnswer, number_of};
use front_session::cut_of;
use front_session::gateway_rules::Sizes;
use std::alloc::Global;
use z_types::{Fetched, Form, Item, List, NamedRecord, Oid, Text};

/// The record syntax of each record.
const XML: [u32; 7] = [1, 2, 840, 10003, 5, 109, 10];

/// Whether the call is this one. Its answer is put at the end.
pub(crate) fn is_answered(
    alloc: Global,
    call: &str,
    words: &str,
    out: &mut Answer,
) -> Result<bool, NoAnswer> {
    if call != "cut_of" {
        return Ok(false);
    }
    let Some((asked, octets)) = words.split_once(": ") else {
        return Err(NoAnswer::Misspelt);
    };
    put_cut(alloc, out, asked, records_of(alloc, octets)?)?;
    Ok(true)
}

/// What is given of records.
fn put_cut(
    alloc: Global,
    out: &mut Answer,
    words: &str,
    records: List<NamedRecord>,
) -> Result<(), NoAnswer> {
    let Some((preferred, words)) = words.split_once(' ') else {
        return Err(NoAnswer::Misspelt);
    };
    let Some((exceptional, asked)) = words.split_once(' ') else {
        return Err(NoAnswer::Misspelt);
    };
    let sizes = Sizes {
        preferred: number_of(preferred)?,
        exceptional: number_of(exceptional)?,
    };
    match cut_of(alloc, sizes, number_of(asked)?, Fetched::Records(records))? {
        Fetched::Records(given) => put_records(out, given.as_slice()),
        Fetched::None | Fetched::Whole(_) => out.put("no records"),
    }
    Ok(())
}

/// Records of so many octets each.
fn records_of(alloc: Global, words: &str) -> Result<List<NamedRecord>, NoAnswer> {
    let mut records = List::new(alloc);
    for octets in numbers_of(alloc, words)?.as_slice() {
        records.push(record_of(alloc, *octets)?)?;
    }
    Ok(records)
}

/// A record of so many octets.
fn record_of(alloc: Global, octets: u32) -> Result<NamedRecord, NoAnswer> {
    let bytes = Text::from_vec(vec![in alloc; b'a'; octets as usize]?);
    Ok(NamedRecord {
        name: Some(Text::copy_of(alloc, b"Default")?),
        item: Item::Record {
            syntax: Oid::copy_of(alloc, &XML)?,
            form: Form::Octets,
            bytes,
        },
    })
}

/// The octets of each record, or the diagnostic in its place.
fn put_records(out: &mut Answer, records: &[NamedRecord]) {
    let mut between = "";
    for record in records {
        out.put(between);
        put_item(out, &record.item);
        between = ", ";
    }
}

/// The octets of a record, or the diagnostic in its place.
fn put_item(out: &mut Answer, item: &Item) {
    match item {
        Item::Record { bytes, .. } => {
            out.print(&bytes.len());
            out.put(" octets");
        }
        Item::Surrogate(diag) => {
            out.print(&diag.condition);
            out.put(" ");
            out.put_quoted(diag.addinfo.as_slice());
        }
    }
}
