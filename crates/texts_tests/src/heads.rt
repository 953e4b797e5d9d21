//! Heads of HTTP as they come, and the names that paths are.

use case_files::{Answer, NoAnswer};
use sru_request::{HeadFault, HeadGot, name_of, read_head};
use std::alloc::Global;
use z_types::Memory;

/// Whether a call is one of these. Its answer is put at the end.
pub(crate) fn is_answered(
    alloc: Global,
    call: &str,
    text: &[u8],
    out: &mut Answer,
) -> Result<bool, NoAnswer> {
    match call {
        "read_head" => put_head(alloc, out, text)?,
        "target" => put_target(alloc, out, text),
        "name" => put_name(alloc, out, text)?,
        _ => return Ok(false),
    }
    Ok(true)
}

/// Whether octets are a head whole, in part, or with others behind it; or the number of the refusal.
fn put_head(alloc: Global, out: &mut Answer, octets: &[u8]) -> Result<(), NoAnswer> {
    match read_head(alloc, octets) {
        Ok(HeadGot::Got(_, used)) => put_used(out, used, octets.len()),
        Ok(HeadGot::NeedMore) => out.put("more"),
        Err(HeadFault::Memory) => return Err(NoAnswer::Memory),
        Err(fault) => {
            out.put("refused ");
            out.print(&fault.number());
        }
    }
    Ok(())
}

/// How many of so many octets are the head.
fn put_used(out: &mut Answer, used: usize, octets: usize) {
    out.put("whole");
    if used != octets {
        out.put(" at ");
        out.print(&used);
    }
}

/// What stands before and behind the first question mark of a target.
fn put_target(alloc: Global, out: &mut Answer, octets: &[u8]) {
    match read_head(alloc, octets) {
        Ok(HeadGot::Got(get, _)) => {
            out.put_quoted(get.path.as_slice());
            out.put(" ");
            out.put_quoted(get.query.as_slice());
        }
        _ => out.put("no head"),
    }
}

/// The name that a path is, if it is one.
fn put_name(alloc: Global, out: &mut Answer, path: &[u8]) -> Result<(), Memory> {
    match name_of(alloc, path)? {
        Some(name) => out.put_quoted(name.as_slice()),
        None => out.put("none"),
    }
    Ok(())
}
