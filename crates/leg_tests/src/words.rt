//! What legs answer and count, as words.

use leg::{Account, LegAnswer, Turned};
use std::alloc::Global;
use z_types::{Diag, Item, List, Mark, Memory, ScanAnswer, Term, Text};

/// Puts words and a number behind a line.
fn put_number(alloc: Global, line: &mut Text, words: &str, number: u32) -> Result<(), Memory> {
    line.append(format!(in alloc; "{words}{number}")?.as_bytes())
}

/// Puts what a turn answers behind a line.
pub(crate) fn put_turned(line: &mut Text, turned: Turned) -> Result<(), Memory> {
    line.append(match turned {
        Turned::Went => b"went",
        Turned::NotYet => b"not yet",
        Turned::Done => b"done",
        Turned::Memory => b"memory",
    })
}

/// Puts what a leg answers behind a line.
pub(crate) fn put_answer(alloc: Global, line: &mut Text, answer: &LegAnswer) -> Result<(), Memory> {
    match answer {
        LegAnswer::Hits(hits) => put_number(alloc, line, "hits ", *hits),
        LegAnswer::Refused(diag) => put_diag(alloc, line, diag),
        LegAnswer::Items(items) => put_items(alloc, line, items),
        LegAnswer::Broken(items, diag) => {
            put_items(alloc, line, items)?;
            put_diag(alloc, line, diag)
        }
        LegAnswer::Scanned(answer) => put_entries(alloc, line, answer),
        LegAnswer::Marked(mark) => put_mark(alloc, line, *mark),
    }
}

/// Puts a mark behind a line.
fn put_mark(alloc: Global, line: &mut Text, mark: Mark) -> Result<(), Memory> {
    match mark {
        Mark::Plain => line.append(b"plain"),
        Mark::Link => line.append(b"link"),
        Mark::Silent(looks) => put_number(alloc, line, "silent ", looks),
        Mark::Gone => line.append(b"gone"),
        Mark::Full(open) => put_number(alloc, line, "full ", open),
    }
}

/// Puts a diagnostic behind a line.
fn put_diag(alloc: Global, line: &mut Text, diag: &Diag) -> Result<(), Memory> {
    put_number(alloc, line, "refused ", diag.condition)?;
    line.append(b" ")?;
    line.append(diag.addinfo.as_slice())
}

/// Puts records behind a line: their octets, or their diagnostics; of more than 20 their number alone.
fn put_items(alloc: Global, line: &mut Text, items: &List<Item>) -> Result<(), Memory> {
    if 20 < items.len() {
        return line.append(format!(in alloc; "{} records", items.len())?.as_bytes());
    }
    for item in items.as_slice() {
        match item {
            Item::Record { bytes, .. } => line.append(bytes.as_slice())?,
            Item::Surrogate(diag) => put_diag(alloc, line, diag)?,
        }
    }
    Ok(())
}

/// Puts the terms of a scan behind a line, each with how often it occurs.
fn put_entries(alloc: Global, line: &mut Text, answer: &ScanAnswer) -> Result<(), Memory> {
    for entry in answer.entries.as_slice() {
        if let Term::General(text) = &entry.term {
            line.append(text.as_slice())?;
        }
        if let Some(count) = entry.occurrences {
            put_number(alloc, line, "", count)?;
        }
        line.append(b" ")?;
    }
    Ok(())
}

/// Puts what a leg counted behind a line, but for what is 0.
pub(crate) fn put_account(alloc: Global, line: &mut Text, account: &Account) -> Result<(), Memory> {
    for (words, count) in [
        (", dials ", account.dials),
        (", searches ", account.searches),
        (", gones ", account.gones),
        (", faults ", account.faults),
        (", spent ", account.spent),
        (", fulls ", account.fulls),
        (", booked ", account.booked),
        (", opens ", account.opens),
        (", looks ", account.looks),
    ] {
        if 0 < count {
            put_number(alloc, line, words, count)?;
        }
    }
    Ok(())
}

/// Puts how many turns it took behind a line.
pub(crate) fn put_turns(alloc: Global, line: &mut Text, turns: u32) -> Result<(), Memory> {
    put_number(alloc, line, ", turns ", turns)
}
