//! One unit of a client, begun and ended.

ghost use Rattle.std.specs.Prelude.{◌≡◌, Some, None, IsSome, IfSome, OnOk, OnErr};
ghost use Rattle.z_types.specs.Numbers.{HasNumbersInRange};
ghost use Rattle.z_types.specs.declared.marks.Mark.TheVariants.{Plain};
ghost use Rattle.z_types.specs.declared.marks.End.TheVariants.{Malformed, Limited};
ghost use Rattle.unit_forms.specs.Logins.{AsksWithLogin};
ghost use Rattle.front_session.specs.gateway_rules.Replies.{bad_unit_reply, limit_reply};
ghost use Rattle.front_session.specs.gateway_rules.Works.{FitsWork};
ghost use Rattle.front_z.specs.Units.{IsBegun, IsEnded, IsRequestBegun, IsWritten, IsPut, end_behind};

use front_session::gateway_rules::{bad_unit_reply, limit_reply};
use front_session::z_write::put_reply;
use front_session::{Admitted, FrontSession};
use route_config::Route;
use std::alloc::Global;
use z_read::read_unit;
use z_types::{End, Mark, Memory, Outcome, Reply, Request, Text, Work};

/// What became of a unit.
#[derive(Drop)]
pub enum Begun {
    /// Its reply was written, under this mark where it has one, and the connection has ended so, if it
    /// did.
    Write(Option<Mark>, Option<End>),
    /// This is to be asked of the targets first; nothing was written.
    Work(Work),
    /// No memory could be had.
    Memory,
}

/// Begins a unit of a client, whose first octet is at this offset: its reply is written behind the
/// text, or its request waits for its work. Without memory nothing is written.
pub fn begin_unit(
    alloc: Global,
    session: &mut FrontSession,
    route: &Route,
    unit: &[u8],
    at: u64,
    out: &mut Text,
) -> Begun
    ensures { IsBegun route.now at unit.now (record { session = session.old; out = out.old })
        (record { session = session.new; out = out.new }) result }
{
    match read_unit(alloc, unit) {
        Ok(Some(request)) => begin_request(alloc, session, route, &request, at, out),
        Ok(None) => put_bad(at, out),
        Err(_) => Begun::Memory,
    }
}

/// Ends the request that waits, by what came of its work: its reply is written behind the text. Without
/// memory nothing is written.
pub fn end_unit(
    alloc: Global,
    session: &mut FrontSession,
    outcome: Outcome,
    out: &mut Text,
) -> Result<(), Memory>
    requires waits { IsSome session.old.waiting }
    requires fits { IfSome session.old.waiting (λ waiting. FitsWork waiting.work outcome) }
    ensures err { OnErr result (out.new ≡ out.old) }
    ensures ended { OnOk result (IfSome session.old.waiting (λ waiting.
        IsEnded (record { session = session.old; out = out.old })
        (record { session = session.new; out = out.new }) waiting outcome)) }
{
    let reply = session.settle(alloc, outcome)?;
    put_reply(out, &reply)
}

/// Begins a request.
fn begin_request(
    alloc: Global,
    session: &mut FrontSession,
    route: &Route,
    request: &Request,
    at: u64,
    out: &mut Text,
) -> Begun
    requires numbers { HasNumbersInRange request.now }
    requires login { AsksWithLogin request.now }
    ensures { IsRequestBegun route.now at request.now
        (record { session = session.old; out = out.old })
        (record { session = session.new; out = out.new }) result }
{
    match session.admit(alloc, route, request) {
        Admitted::Reply(reply) => put_plain(&reply, end_behind(request), out),
        Admitted::Work(work) => Begun::Work(work),
        Admitted::Bad => put_bad(at, out),
        Admitted::Limited => put_limited(request, out),
        Admitted::Memory => Begun::Memory,
    }
}

/// How the connection ends behind a request that was answered: a Close closes it.
fn end_behind(request: &Request) -> Option<End>
    ensures { result ≡ end_behind request.now }
{
    match request {
        Request::Close(_) => Some(End::Closed),
        _ => None,
    }
}

/// Writes a reply under the mark Plain.
fn put_plain(reply: &Reply, end: Option<End>, out: &mut Text) -> Begun
    ensures { IsWritten reply.now (Some Plain) end out.old out.new result }
{
    written(put_reply(out, reply), Some(Mark::Plain), end)
}

/// Writes the answer to a unit that is bad.
fn put_bad(at: u64, out: &mut Text) -> Begun
    ensures { IsWritten bad_unit_reply None (Some (Malformed at)) out.old out.new result }
{
    written(
        put_reply(out, &bad_unit_reply()),
        None,
        Some(End::Malformed(at)),
    )
}

/// Writes the answer to a unit beyond the last that the connection may send.
fn put_limited(request: &Request, out: &mut Text) -> Begun
    ensures { IsWritten (limit_reply request.now) None (Some Limited) out.old out.new result }
{
    let Ok(reply) = limit_reply(request) else {
        return Begun::Memory;
    };
    written(put_reply(out, &reply), None, Some(End::Limited))
}

/// What became of a unit whose reply was put, or not for want of memory.
fn written(put: Result<(), Memory>, mark: Option<Mark>, end: Option<End>) -> Begun
    ensures { IsPut put mark end result }
{
    match put {
        Ok(()) => Begun::Write(mark, end),
        Err(_) => Begun::Memory,
    }
}
