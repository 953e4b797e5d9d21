//! A head that has come, begun (RFC 9110, 15.5.1, 15.5.5 and 15.5.6).

ghost use Rattle.front_sru.specs.Gets.{Awaits};
ghost use Rattle.front_http.specs.Heads.{IsFaultBegun, IsHeadBegun, IsRefusedBy};

use front_sru::{Begun, SruState, begin_get};
use route_config::Route;
use sru_reply::{Refusal, bare_text};
use sru_request::{Get, HeadFault};
use std::alloc::Global;
use z_types::{End, Text};

/// Puts a reply without a body behind a text, with which the connection ends so. Without memory nothing
/// is written.
fn put_refusal(alloc: Global, refusal: Refusal, end: End, out: &mut Text) -> Begun
    ensures { IsRefusedBy refusal end out.old out.new result }
{
    let Ok(text) = bare_text(alloc, refusal) else {
        return Begun::Memory;
    };
    match out.append(text.as_slice()) {
        Ok(()) => Begun::Write(None, Some(end)),
        Err(_) => Begun::Memory,
    }
}

/// Answers a head that is no GET.
fn begin_fault(alloc: Global, fault: HeadFault, out: &mut Text) -> Begun
    ensures { IsFaultBegun fault out.old out.new result }
{
    match fault {
        HeadFault::BadHttp | HeadFault::HeadTooLarge => {
            put_refusal(alloc, Refusal::BadRequest, End::Malformed(0), out)
        }
        HeadFault::NotGet => put_refusal(alloc, Refusal::MethodNotAllowed, End::Closed, out),
        HeadFault::Memory => Begun::Memory,
    }
}

/// Begins a head that has come: a GET is answered at once, or waits for its search; what is no head of a
/// GET is answered so (400, 405), under no mark, and ends the connection. Without memory nothing is
/// written.
pub fn begin_head(
    alloc: Global,
    state: &mut SruState,
    route: &Route,
    head: Result<Get, HeadFault>,
    out: &mut Text,
) -> Begun
    ensures begun { IsHeadBegun route.now head (record { stage = state.old; out = out.old })
        (record { stage = state.new; out = out.new }) result }
    ensures awaited { Awaits route.now state.new result }
{
    match head {
        Ok(get) => begin_get(alloc, state, route, &get, out),
        Err(fault) => begin_fault(alloc, fault, out),
    }
}
