//! What a connection goes on with (ANSI/NISO Z39.50-2003, 4.2; X.690:2021, 8.1; RFC 9112, 2.1).

ghost use Rattle.std.specs.Prelude.{◌≡◌, IsTrue, None};
ghost use Rattle.front_http.specs.Seeking.{HasPassed};
ghost use Rattle.front_conn.specs.steps.Ahead.{IsAhead, IsHeadAhead, IsUnitAhead, end_or_nothing, is_letter_first};

use front_http::seek_head;
use sru_request::{Get, HeadFault};
use std::alloc::Global;
use z_frame::{Framed, Framer};
use z_types::End;

/// What a connection goes on with.
#[derive(Drop)]
pub(crate) enum Ahead {
    /// No whole unit and no head, and more octets may come.
    Nothing,
    /// The input has ended, between two units, or inside a unit or a head.
    Ended(End),
    /// Octets that begin no unit, at this offset.
    Bad(u64),
    /// A unit, from the first offset up to the second.
    Whole(u64, u64),
    /// The head of an HTTP connection, which is a GET, or is none.
    Head(Result<Get, HeadFault>),
}

/// Whether more octets of a head are awaited, of which nothing is to be done yet. So many octets were
/// looked through for its end.
pub(crate) fn awaits_more(framer: &Framer, passed: &mut usize, has_ended: bool) -> bool
    requires passed { HasPassed framer.now.rest passed.old }
    ensures ahead { IsTrue result → IsAhead has_ended framer.now framer.now Ahead.Nothing }
    ensures passed { HasPassed framer.now.rest passed.new }
{
    let rest = framer.rest();
    let Some(octet) = rest.first().copied() else {
        return false;
    };
    if has_ended || !is_letter_first(framer.offset(), octet) {
        return false;
    }
    front_http::awaits_more(rest, passed)
}

/// What octets go on with that were not taken, where the input has ended or not. So many of them were
/// looked through for the end of a head.
pub(crate) fn look(alloc: Global, framer: &mut Framer, passed: &mut usize, has_ended: bool) -> Ahead
    requires refused { framer.old.refused ≡ None }
    requires passed { HasPassed framer.old.rest passed.old }
    ensures ahead { IsAhead has_ended framer.old framer.new result }
    ensures passed { HasPassed framer.new.rest passed.new }
{
    let Some(octet) = framer.rest().first().copied() else {
        return end_or_nothing(has_ended, End::Finished);
    };
    if is_letter_first(framer.offset(), octet) {
        return head_ahead(alloc, framer, passed, has_ended);
    }
    *passed = 0;
    unit_ahead(framer, has_ended)
}

/// What the octets of an HTTP connection go on with.
fn head_ahead(alloc: Global, framer: &Framer, passed: &mut usize, has_ended: bool) -> Ahead
    requires { HasPassed framer.now.rest passed.old }
    ensures ahead { IsHeadAhead has_ended framer.now.rest result }
    ensures passed { HasPassed framer.now.rest passed.new }
{
    match seek_head(alloc, framer.rest(), passed) {
        Some(head) => Ahead::Head(head),
        None => end_or_nothing(has_ended, End::Cut(framer.rest_len() as u64)),
    }
}

/// Whether the first octet of a connection is an ASCII letter, with which HTTP begins.
fn is_letter_first(at: u64, octet: u8) -> bool
    ensures { result ≡ is_letter_first at octet }
{
    at == 0 && octet.is_ascii_alphabetic()
}

/// What octets go on with that begin with no letter at the start.
#[inline(never)]
fn unit_ahead(framer: &mut Framer, has_ended: bool) -> Ahead
    requires { framer.old.refused ≡ None }
    ensures { IsUnitAhead has_ended framer.old framer.new result }
{
    match framer.next() {
        Framed::Unit(start, end) => Ahead::Whole(start, end),
        Framed::NeedMore => end_or_nothing(has_ended, End::Cut(framer.rest_len() as u64)),
        Framed::TooLarge(_) => Ahead::Bad(framer.offset()),
        Framed::Bad(at) => Ahead::Bad(at),
    }
}

/// This end, once the input has ended.
fn end_or_nothing(has_ended: bool, end: End) -> Ahead
    ensures { result ≡ end_or_nothing has_ended end }
{
    if has_ended {
        Ahead::Ended(end)
    } else {
        Ahead::Nothing
    }
}
