//! The calls that the cases name. All but those of `replies` and `diagnostics` are of texts.

use crate::{diagnostics, heads, mapping, queries, replies, routes, scripts, trees};
use case_files::{Answer, Answers, NoAnswer, octets_of_text};
use std::alloc::Global;

pub(crate) struct Calls;

impl Answers for Calls {
    fn answer(
        &self,
        alloc: Global,
        call: &str,
        subject: &str,
        out: &mut Answer,
    ) -> Result<(), NoAnswer> {
        if replies::is_answered(alloc, call, subject, out)?
            || diagnostics::is_answered(alloc, call, subject, out)?
        {
            return Ok(());
        }
        let text = octets_of_text(alloc, subject)?;
        if is_answered_of_text(alloc, call, text.as_slice(), out)? {
            return Ok(());
        }
        Err(NoAnswer::Misspelt)
    }
}

/// Whether a call is one of texts. Its answer is put at the end.
fn is_answered_of_text(
    alloc: Global,
    call: &str,
    text: &[u8],
    out: &mut Answer,
) -> Result<bool, NoAnswer> {
    Ok(
        trees::is_answered(alloc, call, text, out)?
            || mapping::is_answered(alloc, call, text, out)?
            || heads::is_answered(alloc, call, text, out)?
            || queries::is_answered(alloc, call, text, out)?
            || routes::is_answered(alloc, call, text, out)?
            || scripts::is_answered(alloc, call, text, out)?,
    )
}
