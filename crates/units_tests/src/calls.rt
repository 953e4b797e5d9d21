//! The calls that the cases name. Those of `elements`, `contents`, `units` and `streams` are of octets.

use crate::{contents, copies, deep, elements, sets, streams, units, values, written};
use case_files::{Answer, Answers, NoAnswer, octets_of_hex};
use std::alloc::Global;

pub(crate) struct Calls;

impl Answers for Calls {
    fn answer(
        &self,
        alloc: Global,
        call: &str,
        subject: &str,
        out: &mut Answer,
    ) -> Result<(), NoAnswer> {
        if is_answered_of_words(alloc, call, subject, out)? {
            return Ok(());
        }
        let octets = octets_of_hex(alloc, subject)?;
        if is_answered_of_octets(alloc, call, octets.as_slice(), out)? {
            return Ok(());
        }
        Err(NoAnswer::Misspelt)
    }
}

/// Whether a call is one of a subject that is words. Its answer is put at the end.
fn is_answered_of_words(
    alloc: Global,
    call: &str,
    words: &str,
    out: &mut Answer,
) -> Result<bool, NoAnswer> {
    Ok(
        written::is_answered(alloc, call, words, out)?
            || deep::is_answered(alloc, call, words, out)?
            || sets::is_answered(alloc, call, words, out)?
            || values::is_answered(alloc, call, words, out)?
            || copies::is_answered(alloc, call, words, out)?,
    )
}

/// Whether a call is one of octets. Its answer is put at the end.
fn is_answered_of_octets(
    alloc: Global,
    call: &str,
    octets: &[u8],
    out: &mut Answer,
) -> Result<bool, NoAnswer> {
    Ok(
        elements::is_answered(call, octets, out)?
            || contents::is_answered(alloc, call, octets, out)?
            || units::is_answered(alloc, call, octets, out)?
            || streams::is_answered(alloc, call, octets, out)?,
    )
}
