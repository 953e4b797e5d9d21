//! Replies octet for octet. An answer is its version, its packing and the position of its first record, and
//! then, each behind ` | `, its records (`record` and octets), diagnostics in their place (`diagnostic`, its
//! number and details) and the one in place of all (`refused`, its number and details). It has three hits and
//! the schema of Dublin Core.

use case_files::{Answer, NoAnswer, number_of};
use sru_reply::{Refusal, bare_text, reply_text};
use std::alloc::Global;
use z_types::{List, SruAnswer, SruDiag, SruItem, Text};

/// Whether a call is one of these. Its answer is put at the end.
pub(crate) fn is_answered(
    alloc: Global,
    call: &str,
    words: &str,
    out: &mut Answer,
) -> Result<bool, NoAnswer> {
    match call {
        "reply" => put_reply(alloc, out, words)?,
        "bare" => out.put_text(bare_text(alloc, refusal_of(words)?)?.as_slice()),
        _ => return Ok(false),
    }
    Ok(true)
}

/// The reply that an answer is.
fn put_reply(alloc: Global, out: &mut Answer, words: &str) -> Result<(), NoAnswer> {
    let answer = answer_of(alloc, words)?;
    out.put_text(reply_text(alloc, &answer)?.as_slice());
    Ok(())
}

/// A reply without a body.
fn refusal_of(words: &str) -> Result<Refusal, NoAnswer> {
    match words {
        "400" => Ok(Refusal::BadRequest),
        "404" => Ok(Refusal::NotFound),
        "405" => Ok(Refusal::MethodNotAllowed),
        _ => Err(NoAnswer::Misspelt),
    }
}

/// An answer.
fn answer_of(alloc: Global, words: &str) -> Result<SruAnswer, NoAnswer> {
    let mut parts = words.split(" | ");
    let mut answer = empty_answer(alloc, parts.next().unwrap_or(""))?;
    for part in parts {
        put_part(alloc, &mut answer, part)?;
    }
    Ok(answer)
}

/// An answer without records, of its version, its packing and the position of its first record.
fn empty_answer(alloc: Global, words: &str) -> Result<SruAnswer, NoAnswer> {
    let Some((version, words)) = words.split_once(' ') else {
        return Err(NoAnswer::Misspelt);
    };
    let Some((packing, start)) = words.split_once(' ') else {
        return Err(NoAnswer::Misspelt);
    };
    Ok(SruAnswer {
        version: Text::copy_of(alloc, version.as_bytes())?,
        escaped: is_escaped(packing)?,
        count: 3,
        start: number_of(start)?,
        uri: Text::copy_of(alloc, b"info:srw/schema/1/dc-v1.1")?,
        items: List::new(alloc),
        refused: None,
    })
}

/// Whether records are escaped under a packing.
fn is_escaped(packing: &str) -> Result<bool, NoAnswer> {
    match packing {
        "xml" => Ok(false),
        "string" => Ok(true),
        _ => Err(NoAnswer::Misspelt),
    }
}

/// Puts a record or a diagnostic into an answer.
fn put_part(alloc: Global, answer: &mut SruAnswer, part: &str) -> Result<(), NoAnswer> {
    let Some((kind, words)) = part.split_once(' ') else {
        return Err(NoAnswer::Misspelt);
    };
    match kind {
        "record" => {
            let octets = Text::copy_of(alloc, words.as_bytes())?;
            Ok(answer.items.push(SruItem::Data(octets))?)
        }
        "diagnostic" => Ok(answer.items.push(SruItem::Fault(diag_of(alloc, words)?))?),
        "refused" => {
            answer.refused = Some(diag_of(alloc, words)?);
            Ok(())
        }
        _ => Err(NoAnswer::Misspelt),
    }
}

/// A diagnostic of a number and details.
fn diag_of(alloc: Global, words: &str) -> Result<SruDiag, NoAnswer> {
    let (number, details) = words.split_once(' ').unwrap_or((words, ""));
    Ok(SruDiag {
        version: Text::new(alloc),
        number: number_of(number)?,
        details: Text::copy_of(alloc, details.as_bytes())?,
    })
}
