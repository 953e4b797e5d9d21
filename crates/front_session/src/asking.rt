//! What a request in its place is due.

ghost use Rattle.std.specs.Prelude.{◌≡◌, length, All, IfOk};
ghost use Rattle.z_types.specs.Numbers.{HasNumbersInRange};
ghost use Rattle.unit_forms.specs.Logins.{AsksWithLogin, IsLoginIf};
ghost use Rattle.gateway_rules.specs.Asking as asking;
ghost use Rattle.front_session.specs.Admitting.{hits_named};
ghost use Rattle.front_session.specs.Refusals.{IsGiven, IsReady, client_with, due_of};
ghost use Rattle.front_session.specs.Sessions.{IsKeptSet};

use crate::present::present_due;
use crate::refusal::Refusal;
use crate::scan::scan_due;
use crate::search::search_due;
use gateway_rules::{Agreement, failed_reply, finished_reply, init_reply};
use limit_rules::Spent;
use route_config::Route;
use std::alloc::Global;
use z_types::{KnownSet, List, Memory, Reply, Request, Work};

/// What a request in its place is due.
#[derive(Drop)]
pub(crate) enum Asking {
    /// A reply at once.
    AtOnce(Reply),
    /// This is asked of the targets first.
    Works(Work),
}

/// What a request in its place is due, where its client's Init settled this, and it has spent so much and
/// has these sets.
pub(crate) fn due_for(
    alloc: Global,
    route: &Route,
    agreed: &Agreement,
    spent: &Spent,
    sets: &List<KnownSet>,
    request: &Request,
) -> Result<Asking, Memory>
    requires counted { spent.now.sets ≡ length sets.now }
    requires kept { All IsKeptSet sets.now }
    requires login { IsLoginIf agreed.now.login }
    requires numbers { HasNumbersInRange request.now }
    requires asks { AsksWithLogin request.now }
    ensures due { IfOk result (λ due. due_of due
        ≡ asking.asked_with (hits_named sets.now) route.now
        (client_with agreed.now spent.now sets.now) request.now) }
    ensures ready { IfOk result (IsReady spent.now) }
{
    match request {
        Request::Init(init) => Ok(Asking::AtOnce(init_reply(route, init)?)),
        Request::Search(search) => {
            unless_refused(
                alloc,
                request,
                search_due(alloc, route, agreed, spent, sets, search),
            )
        }
        Request::Present(present) => {
            unless_refused(
                alloc,
                request,
                present_due(alloc, route, agreed, spent, sets, present),
            )
        }
        Request::Scan(scan) => {
            unless_refused(alloc, request, scan_due(alloc, route, agreed, scan))
        }
        Request::Close(close) => Ok(Asking::AtOnce(finished_reply(close)?)),
    }
}

/// What a request is due that a check may have refused.
fn unless_refused(
    alloc: Global,
    request: &Request,
    due: Result<Asking, Refusal>,
) -> Result<Asking, Memory>
    ensures { IfOk result (IsGiven request.now due) }
{
    match due {
        Ok(due) => Ok(due),
        Err(Refusal::Refused(diag)) => Ok(Asking::AtOnce(failed_reply(alloc, request, diag)?)),
        Err(Refusal::Memory) => Err(Memory),
    }
}
