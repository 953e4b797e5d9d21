//! What is heard, as words.

use crate::octets::put_digits;
use gw_outside::Heard;
use std::alloc::Global;
use z_types::{Diag, Item, List, Memory, ScanAnswer, ScanEntry, Term, Text};

/// Puts a number behind a line, behind its words.
pub(crate) fn put_number(
    alloc: Global,
    line: &mut Text,
    words: &str,
    number: u32,
) -> Result<(), Memory> {
    line.append(format!(in alloc; "{words}{number}")?.as_bytes())
}

/// Puts what is heard behind a line; nothing where there is no reply yet.
pub(crate) fn put_heard(alloc: Global, line: &mut Text, heard: &Heard) -> Result<(), Memory> {
    match heard {
        Heard::Opened => line.append(b"opened"),
        Heard::Hits(hits) => put_number(alloc, line, "hits ", *hits),
        Heard::Refused(diag) => put_diag(alloc, line, diag),
        Heard::Items(items) => put_items(alloc, line, items),
        Heard::Gone => line.append(b"gone"),
        Heard::Scanned(answer) => put_answer(alloc, line, answer),
        Heard::NotYet => Ok(()),
        Heard::Failed => line.append(b"failed"),
        Heard::Memory => Err(Memory),
    }
}

/// Puts a diagnostic behind a line.
fn put_diag(alloc: Global, line: &mut Text, diag: &Diag) -> Result<(), Memory> {
    put_number(alloc, line, "refused ", diag.condition)?;
    line.append(b" ")?;
    line.append(diag.addinfo.as_slice())
}

/// Puts records behind a line: their octets, or their diagnostics.
fn put_items(alloc: Global, line: &mut Text, items: &List<Item>) -> Result<(), Memory> {
    for item in items.as_slice() {
        match item {
            Item::Record { bytes, .. } => put_record(alloc, line, bytes.as_slice())?,
            Item::Surrogate(diag) => put_diag(alloc, line, diag)?,
        }
    }
    Ok(())
}

/// Puts a record behind a line: as it is where all its octets are printed in ASCII, else in hexadecimal
/// digits.
pub(crate) fn put_record(alloc: Global, line: &mut Text, octets: &[u8]) -> Result<(), Memory> {
    if are_printed(octets) {
        return line.append(octets);
    }
    put_digits(alloc, line, octets)
}

/// Whether all octets are printed in ASCII.
fn are_printed(octets: &[u8]) -> bool {
    octets.iter().all(|octet| octet.is_ascii_graphic())
}

/// Puts an entry of a scan behind a line.
fn put_entry(alloc: Global, line: &mut Text, entry: &ScanEntry) -> Result<(), Memory> {
    if let Term::General(text) = &entry.term {
        line.append(text.as_slice())?;
    }
    if let Some(count) = entry.occurrences {
        put_number(alloc, line, "", count)?;
    }
    line.append(b" ")
}

/// Puts the entries of a scan behind a line, and the place of the asked term.
fn put_answer(alloc: Global, line: &mut Text, answer: &ScanAnswer) -> Result<(), Memory> {
    for entry in answer.entries.as_slice() {
        put_entry(alloc, line, entry)?;
    }
    match answer.position {
        Some(place) => put_number(alloc, line, "at ", place),
        None => line.append(b"nowhere"),
    }
}
