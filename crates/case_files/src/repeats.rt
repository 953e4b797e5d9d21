//! Items of a subject that stand there once and are meant many times.

use crate::NoAnswer;
use std::alloc::{AllocError, Global};

/// The subject with each `\<3 ITEM\>` written out.
pub(crate) fn written_out(alloc: Global, subject: &str) -> Result<String, NoAnswer> {
    let mut out = String::new(alloc);
    let mut parts = subject.split("\\<");
    if let Some(first) = parts.next() {
        out.push_str(first)?;
    }
    for part in parts {
        put_repeated(alloc, &mut out, part)?;
    }
    Ok(out)
}

/// Puts what stands behind `\<` at the end: the items, and what follows them.
fn put_repeated(alloc: Global, out: &mut String, part: &str) -> Result<(), NoAnswer> {
    let Some((item, behind)) = part.split_once("\\>") else {
        return Err(NoAnswer::Misspelt);
    };
    let Some((count, item)) = item.split_once(' ') else {
        return Err(NoAnswer::Misspelt);
    };
    match count.parse::<u32>() {
        Ok(count) => put_items(alloc, out, item, count)?,
        Err(_) => return Err(NoAnswer::Misspelt),
    }
    Ok(out.push_str(behind)?)
}

/// Puts an item at the end so many times.
fn put_items(alloc: Global, out: &mut String, item: &str, count: u32) -> Result<(), AllocError> {
    for number in 0..count {
        put_item(alloc, out, item, number)?;
    }
    Ok(())
}

/// Puts an item at the end, with this number for `\#`.
fn put_item(alloc: Global, out: &mut String, item: &str, number: u32) -> Result<(), AllocError> {
    if !item.contains("\\#") {
        return out.push_str(item);
    }
    let digits = format!(in alloc; "{number}")?;
    let numbered = item.replace(alloc, "\\#", digits.as_str())?;
    out.push_str(numbered.as_str())
}
