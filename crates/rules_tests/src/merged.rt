//! The records of several legs as one result set. Its subjects are the hits of each leg.

use crate::words::numbers_of;
use case_files::{Answer, NoAnswer, number_of};
use multi_merge::{locate, total};
use std::alloc::Global;
use z_types::MOST_LEGS;

/// Whether a call is one of these. Its answer is put at the end.
pub(crate) fn is_answered(
    alloc: Global,
    call: &str,
    words: &str,
    out: &mut Answer,
) -> Result<bool, NoAnswer> {
    match call {
        "total" => out.print(&total(numbers_of(alloc, words)?.as_slice())),
        "locate" => put_located(alloc, out, words)?,
        _ => return Ok(false),
    }
    Ok(true)
}

/// The leg and the rank of the record at a position of the merged order.
fn put_located(alloc: Global, out: &mut Answer, words: &str) -> Result<(), NoAnswer> {
    let Some((position, hits)) = words.split_once(" of ") else {
        return Err(NoAnswer::Misspelt);
    };
    let position = number_of(position)?;
    let hits = numbers_of(alloc, hits)?;
    let hits = hits.as_slice();
    if hits.len() > MOST_LEGS || position == 0 || position > total(hits) {
        return Err(NoAnswer::Misspelt);
    }
    let (leg, rank) = locate(hits, position);
    out.put("leg ");
    out.print(&leg);
    out.put(" rank ");
    out.print(&rank);
    Ok(())
}
