//! Texts, object identifiers and diagnostics.

use case_files::{Answer, NoAnswer, diag_of_words, oid_of_words};
use std::alloc::Global;
use z_types::{Condition, Diag, Text};

/// Whether a call is one of these. Its answer is put at the end.
pub(crate) fn is_answered(
    alloc: Global,
    call: &str,
    words: &str,
    out: &mut Answer,
) -> Result<bool, NoAnswer> {
    match call {
        "is_oid" => out.print(&oid_of_words(alloc, words)?.is_some()),
        "is_gone" => out.print(&diag_of_words(alloc, words)?.is_gone()),
        "bib1" => out.put_numbers(".", bib1(alloc)?.set.arcs()),
        "grow" => put_grown(alloc, out, words)?,
        _ => return Ok(false),
    }
    Ok(true)
}

/// A diagnostic of bib-1.
fn bib1(alloc: Global) -> Result<Diag, NoAnswer> {
    let addinfo = Text::copy_of(alloc, b"a")?;
    Ok(Diag::bib1(alloc, Condition::DatabaseDoesNotExist, addinfo)?)
}

/// An empty text, then one that has grown by the first octet of these and by the others: its octets, and how
/// many there are, before and behind its way through a vector.
fn put_grown(alloc: Global, out: &mut Answer, words: &str) -> Result<(), NoAnswer> {
    let mut grown = Text::new(alloc);
    out.put("empty ");
    out.print(&grown.is_empty());
    if let [first, others @ ..] = words.as_bytes() {
        grown.push(*first)?;
        grown.append(others)?;
    }
    put_text(out, &grown);
    put_text(out, &Text::from_vec(grown.into_vec()));
    Ok(())
}

/// The octets of a text, and how many there are.
fn put_text(out: &mut Answer, text: &Text) {
    out.put(" ");
    out.put_text(text.as_slice());
    out.put(" ");
    out.print(&text.len());
}
