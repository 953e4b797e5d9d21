//! What replies say (ANSI/NISO Z39.50-2003, InitializeResponse, SearchResponse, PresentResponse and
//! ScanResponse). A reply that is none to what is pending is a breach.

ghost use Rattle.std.specs.Prelude.{◌≡◌, IfOk, map, option_map, option_and_then};
ghost use Rattle.gw_outside.specs.Replies.{diag_of, first_diag, items_said, search_said, present_said, scan_said};
ghost use Rattle.z_client.specs.Heard.{opening_heard, ask_heard, hits_heard, search_heard, items_heard, records_heard, refusal_heard, scan_heard};

use gw_outside::Heard;
use std::alloc::Global;
use z_types::{
    Ask, Body, Diag, Item, List, MOST_NUMBER, Memory, NAMED_RESULT_SETS, NamedRecord, Reply,
};

/// What is heard of the reply to an Init.
pub(crate) fn opening_heard(reply: &Reply) -> Option<Heard>
    ensures { result ≡ opening_heard reply.now }
{
    match reply {
        Reply::Init { init, result } => {
            if *result && init.options & NAMED_RESULT_SETS != 0 {
                Some(Heard::Opened)
            } else {
                None
            }
        }
        _ => None,
    }
}

/// What is heard of the reply to an ask.
pub(crate) fn ask_heard(alloc: Global, ask: &Ask, reply: Reply) -> Result<Option<Heard>, Memory>
    ensures { IfOk result (λ heard. heard ≡ ask_heard ask.now reply) }
{
    match ask {
        Ask::Search { .. } => Ok(search_heard(reply)),
        Ask::Present { count, .. } => present_heard(alloc, *count, reply),
        Ask::Scan { .. } => Ok(scan_heard(reply)),
    }
}

/// What is heard of the reply to a Search.
fn search_heard(reply: Reply) -> Option<Heard>
    ensures { result ≡ option_and_then search_heard (search_said reply) }
{
    match reply {
        Reply::Search {
            count,
            ok,
            body,
            ..
        } => match (ok, diag_of(body)) {
            (true, None) => hits_heard(count),
            (false, Some(diag)) => Some(Heard::Refused(diag)),
            _ => None,
        },
        _ => None,
    }
}

/// What is heard of hits: no more than the protocol can tell.
fn hits_heard(hits: u32) -> Option<Heard>
    ensures { result ≡ hits_heard hits }
{
    if hits <= MOST_NUMBER {
        Some(Heard::Hits(hits))
    } else {
        None
    }
}

/// What is heard of the reply to a Present.
fn present_heard(alloc: Global, count: u32, reply: Reply) -> Result<Option<Heard>, Memory>
    ensures { IfOk result
        (λ heard. heard ≡ option_and_then (records_heard count) (present_said reply)) }
{
    match reply {
        Reply::Present { body, .. } => body_heard(alloc, count, body),
        _ => Ok(None),
    }
}

/// What is heard of what a Present's reply has for records.
fn body_heard(alloc: Global, count: u32, body: Body) -> Result<Option<Heard>, Memory>
    ensures { IfOk result
        (λ heard. heard ≡ option_and_then (records_heard count) (items_said body)) }
{
    match body {
        Body::Records(records) => items_heard(alloc, count, records),
        other => Ok(refusal_heard(diag_of(other))),
    }
}

/// What is heard of records: at least one, and no more than were asked for.
fn items_heard(
    alloc: Global,
    count: u32,
    records: List<NamedRecord>,
) -> Result<Option<Heard>, Memory>
    ensures { IfOk result
        (λ heard. heard ≡ items_heard count (map (λ named. named.item) records)) }
{
    if records.is_empty() || (count as usize) < records.len() {
        return Ok(None);
    }
    Ok(Some(Heard::Items(items_of(alloc, records)?)))
}

/// Records without their names.
fn items_of(alloc: Global, records: List<NamedRecord>) -> Result<List<Item>, Memory>
    ensures { IfOk result (λ items. items ≡ map (λ named. named.item) records) }
{
    let items = records.into_vec().into_iter().map(|named| named.item);
    Ok(List::from_vec(items.collect(alloc)?))
}

/// What is heard of a diagnostic in the place of records.
fn refusal_heard(diag: Option<Diag>) -> Option<Heard>
    ensures { result ≡ refusal_heard diag }
{
    match diag {
        Some(diag) => {
            if diag.is_gone() {
                Some(Heard::Gone)
            } else {
                Some(Heard::Refused(diag))
            }
        }
        None => None,
    }
}

/// What is heard of the reply to a Scan.
fn scan_heard(reply: Reply) -> Option<Heard>
    ensures { result ≡ option_map scan_heard (scan_said reply) }
{
    match reply {
        Reply::Scan { answer, diags, .. } => match first_diag(diags) {
            Some(diag) => Some(Heard::Refused(diag)),
            None => Some(Heard::Scanned(answer)),
        },
        _ => None,
    }
}

/// The first diagnostic that stands in the place of records.
fn diag_of(body: Body) -> Option<Diag>
    ensures { result ≡ diag_of body }
{
    match body {
        Body::Diag(diag) => Some(diag),
        Body::Diags(diags) => first_diag(diags),
        Body::None | Body::Records(_) => None,
    }
}

/// The first diagnostic of a list.
fn first_diag(diags: List<Diag>) -> Option<Diag>
    ensures { result ≡ first_diag diags }
{
    diags.into_vec().into_iter().next()
}
