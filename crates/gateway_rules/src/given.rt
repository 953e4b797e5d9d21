//! Replies that tell what was found or fetched (ANSI/NISO Z39.50-2003, 3.2.2.1, 3.2.3.1 and 3.2.8.1).

ghost use Rattle.std.specs.Prelude.{◌≡◌, ◌≤◌, [], IfOk};
ghost use Rattle.gateway_rules.specs.Given as given;
ghost use Rattle.gateway_rules.specs.Given.{body_of, next_position, place_or_zero, present_status, returned, search_status};
ghost use Rattle.gateway_rules.specs.Statuses.{scan_success};
ghost use Rattle.limit_rules.specs.Limits.{most_records};

use crate::statuses::{PRESENT_FAILURE, PRESENT_PARTIAL_2, PRESENT_SUCCESS, SCAN_SUCCESS};
use multi_merge::total;
use std::alloc::Global;
use z_types::{Body, Fetched, List, Memory, Present, Reply, Scan, ScanAnswer, Search, copy};

/// How many records are given.
pub fn count_returned(fetched: &Fetched) -> u32
    requires few { returned fetched.now ≤ most_records }
    ensures { result ≡ returned fetched.now }
{
    match fetched {
        Fetched::Records(records) => records.len() as u32,
        Fetched::None | Fetched::Whole(_) => 0,
    }
}

/// A place of a result set of this count, or 0 where it is past it.
fn place_or_zero(count: u32, place: u64) -> u32
    ensures { result ≡ place_or_zero count place }
{
    if place <= u64::from(count) {
        place as u32
    } else {
        0
    }
}

/// The place behind the last record given, or 0 where there is none or they could not be given.
fn next_position(count: u32, from: u64, fetched: &Fetched) -> u32
    requires few { returned fetched.now ≤ most_records }
    ensures { result ≡ next_position count from fetched.now }
{
    match fetched {
        Fetched::Whole(_) => 0,
        Fetched::None | Fetched::Records(_) => {
            place_or_zero(
                count,
                from.saturating_add(u64::from(count_returned(fetched))),
            )
        }
    }
}

/// Whether the records that were fetched, so many, are given: all of them, some, or none.
fn present_status(all: u32, fetched: &Fetched) -> u32
    requires few { returned fetched.now ≤ most_records }
    ensures { result ≡ present_status all fetched.now }
{
    match fetched {
        Fetched::None => PRESENT_SUCCESS,
        Fetched::Records(_) => {
            if count_returned(fetched) == all {
                PRESENT_SUCCESS
            } else {
                PRESENT_PARTIAL_2
            }
        }
        Fetched::Whole(_) => PRESENT_FAILURE,
    }
}

/// The same of a Search, which has no such status where no record was to be shown.
fn search_status(all: u32, fetched: &Fetched) -> Option<u32>
    requires few { returned fetched.now ≤ most_records }
    ensures { result ≡ search_status all fetched.now }
{
    match fetched {
        Fetched::None => None,
        Fetched::Records(_) | Fetched::Whole(_) => Some(present_status(all, fetched)),
    }
}

/// The records, or the diagnostic in place of all of them.
fn body_of(fetched: Fetched) -> Body
    ensures { result ≡ body_of fetched }
{
    match fetched {
        Fetched::None => Body::None,
        Fetched::Records(records) => Body::Records(records),
        Fetched::Whole(diag) => Body::Diag(diag),
    }
}

/// The reply to a Search whose legs have these hits, with what is given of the records that were fetched
/// of them, `all` of which there were; what it shows begins at place 1. Only want of memory fails.
pub fn search_reply(
    search: &Search,
    hits: &List<u32>,
    all: u32,
    fetched: Fetched,
) -> Result<Reply, Memory>
    requires few { returned fetched ≤ most_records }
    ensures { IfOk result
        (λ reply. reply ≡ given.search_reply search.now.ref_id hits.now all fetched) }
{
    let count = total(hits.as_slice());
    Ok(Reply::Search {
        ref_id: copy(&search.ref_id)?,
        count,
        returned: count_returned(&fetched),
        next: next_position(count, 1, &fetched),
        ok: true,
        status: search_status(all, &fetched),
        body: body_of(fetched),
    })
}

/// The reply to a Present of a set whose legs have these hits, with what is given of the records that were
/// fetched of them, `all` of which there were. Only want of memory fails.
pub fn present_reply(
    present: &Present,
    hits: &[u32],
    all: u32,
    fetched: Fetched,
) -> Result<Reply, Memory>
    requires few { returned fetched ≤ most_records }
    ensures { IfOk result (λ reply. reply ≡ given.present_reply present.now hits.now all fetched) }
{
    let count = total(hits);
    Ok(Reply::Present {
        ref_id: copy(&present.ref_id)?,
        returned: count_returned(&fetched),
        next: next_position(count, present.start.unsigned_abs(), &fetched),
        status: present_status(all, &fetched),
        body: body_of(fetched),
    })
}

/// The reply to a Scan that found these entries. Only want of memory fails.
pub fn scan_reply(alloc: Global, scan: &Scan, answer: ScanAnswer) -> Result<Reply, Memory>
    ensures { IfOk result (λ reply. reply ≡ Reply.Scan scan.now.ref_id scan_success answer []) }
{
    Ok(Reply::Scan {
        ref_id: copy(&scan.ref_id)?,
        status: SCAN_SUCCESS,
        answer,
        diags: List::new(alloc),
    })
}
