//! Diagnostics of targets as SRU tells them, and the texts of those of SRU.

use case_files::{Answer, NoAnswer, diag_of_words, number_of};
use std::alloc::Global;
use z_bib1::{sru_of, sru_of_diag, sru_text};

/// Whether a call is one of these. Its answer is put at the end.
pub(crate) fn is_answered(
    alloc: Global,
    call: &str,
    words: &str,
    out: &mut Answer,
) -> Result<bool, NoAnswer> {
    match call {
        "told_as" => out.print(&sru_of_diag(&diag_of_words(alloc, words)?)),
        "sru_of" => out.print(&sru_of(number_of(words)?)),
        "sru_text" => out.put_quoted(sru_text(number_of(words)?).as_bytes()),
        _ => return Ok(false),
    }
    Ok(true)
}
