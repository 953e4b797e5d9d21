//! Replies that the gateway gives by itself (ANSI/NISO Z39.50-2003, 3.2.2.1, 3.2.3.1, 3.2.8.1 and
//! 3.2.11.1).

ghost use Rattle.std.specs.Prelude.{◌≡◌, [], ◌∷◌, IfOk};
ghost use Rattle.gateway_rules.specs.Replies as replies;
ghost use Rattle.gateway_rules.specs.Statuses.{finished};

use crate::init_answer;
use crate::statuses::{FINISHED, PRESENT_FAILURE, PROTOCOL_ERROR, RESOURCES, SCAN_FAILURE};
use std::alloc::Global;
use z_types::{
    Body, Close, Diag, List, Memory, Present, Reply, Request, Scan, ScanAnswer, Search, Text, copy,
};

/// A Close of a reason, which carries this referenceId (3.2.11.1).
fn close_reply(ref_id: &Option<Text>, reason: u32) -> Result<Reply, Memory>
    ensures { IfOk result (λ reply. reply ≡ replies.close_reply ref_id.now reason) }
{
    Ok(close_with(copy(ref_id)?, reason))
}

/// A Close with this referenceId and reason.
fn close_with(ref_id: Option<Text>, reason: u32) -> Reply
    ensures { result ≡ replies.close_reply ref_id reason }
{
    Reply::Close(Close {
        ref_id,
        reason,
        info: None,
    })
}

/// The reply to a Close: the session is finished (3.2.11.1). Only want of memory fails.
pub fn finished_reply(close: &Close) -> Result<Reply, Memory>
    ensures { IfOk result (λ reply. reply ≡ replies.close_reply close.now.ref_id finished) }
{
    close_reply(&close.ref_id, FINISHED)
}

/// The Close that answers a unit that is none, or that is out of its place: a protocol error, which no
/// request asked for.
pub fn bad_unit_reply() -> Reply
    ensures { result ≡ replies.bad_unit_reply }
{
    close_with(None, PROTOCOL_ERROR)
}

/// The Close that answers a unit beyond the last that its connection may send. It carries the unit's
/// referenceId. Only want of memory fails.
pub fn limit_reply(request: &Request) -> Result<Reply, Memory>
    ensures { IfOk result (λ reply. reply ≡ replies.limit_reply request.now) }
{
    close_reply(ref_id_of(request), RESOURCES)
}

/// The referenceId of a request.
fn ref_id_of(request: &Request) -> &Option<Text>
    ensures { result.now ≡ replies.ref_id_of request.now }
{
    match request {
        Request::Init(init) => &init.ref_id,
        Request::Search(search) => &search.ref_id,
        Request::Present(present) => &present.ref_id,
        Request::Scan(scan) => &scan.ref_id,
        Request::Close(close) => &close.ref_id,
    }
}

/// The reply to a request that fails with this diagnostic; an Init and a Close do not fail. Only want
/// of memory fails.
pub fn failed_reply(alloc: Global, request: &Request, diag: Diag) -> Result<Reply, Memory>
    ensures { IfOk result (λ reply. reply ≡ replies.failed request.now diag) }
{
    match request {
        Request::Init(init) => init_answer(init, false),
        Request::Search(search) => failed_search(search, diag),
        Request::Present(present) => failed_present(present, diag),
        Request::Scan(scan) => failed_scan(alloc, scan, diag),
        Request::Close(close) => finished_reply(close),
    }
}

/// The reply to a Search that fails.
fn failed_search(search: &Search, diag: Diag) -> Result<Reply, Memory>
    ensures { IfOk result (λ reply. reply ≡ replies.failed (Request.Search search.now) diag) }
{
    Ok(Reply::Search {
        ref_id: copy(&search.ref_id)?,
        count: 0,
        returned: 0,
        next: 0,
        ok: false,
        status: None,
        body: Body::Diag(diag),
    })
}

/// The reply to a Present that fails.
fn failed_present(present: &Present, diag: Diag) -> Result<Reply, Memory>
    ensures { IfOk result (λ reply. reply ≡ replies.failed (Request.Present present.now) diag) }
{
    Ok(Reply::Present {
        ref_id: copy(&present.ref_id)?,
        returned: 0,
        next: 0,
        status: PRESENT_FAILURE,
        body: Body::Diag(diag),
    })
}

/// The reply to a Scan that fails.
fn failed_scan(alloc: Global, scan: &Scan, diag: Diag) -> Result<Reply, Memory>
    ensures { IfOk result (λ reply. reply ≡ replies.failed (Request.Scan scan.now) diag) }
{
    Ok(Reply::Scan {
        ref_id: copy(&scan.ref_id)?,
        status: SCAN_FAILURE,
        answer: ScanAnswer {
            position: None,
            entries: List::new(alloc),
        },
        diags: only(alloc, diag)?,
    })
}

/// A list of one diagnostic.
fn only(alloc: Global, diag: Diag) -> Result<List<Diag>, Memory>
    ensures { IfOk result (λ diags. diags ≡ diag ∷ []) }
{
    let mut diags = List::new(alloc);
    diags.push(diag)?;
    Ok(diags)
}
