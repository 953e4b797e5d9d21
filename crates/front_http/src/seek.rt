//! The end of a head, looked for as its octets come (RFC 9112, 2.1 and 2.2).

ghost use Rattle.std.specs.Prelude.{◌≡◌, IsTrue, Ok, is_some};
ghost use Rattle.sru_request.specs.Head.{head_length};
ghost use Rattle.sru_request.specs.Request.{IsHeadAnswer};
ghost use Rattle.front_http.specs.Seeking.{HasPassed, IsSought, awaits_more, ends_here, has_line_feed};

use sru_request::{Get, HeadFault, HeadGot, MOST_HEAD_OCTETS, read_head};
use std::alloc::Global;

/// Whether a line feed stands first, and an empty line behind it.
fn ends_here(octets: &[u8]) -> bool
    ensures { result ≡ ends_here octets.now }
{
    match octets {
        [b'\n', b'\n', ..] => true,
        [b'\n', b'\r', b'\n', ..] => true,
        _ => false,
    }
}

/// Whether a head ends in these octets.
fn has_end(octets: &[u8]) -> bool
    ensures { result ≡ is_some (head_length octets.now) }
{
    for index in 0..octets.len() {
        if ends_here(&octets[index..]) {
            return true;
        }
    }
    false
}

/// The octets in which a head can end, where none ends in the first so many: the last two of these may
/// be the front of an empty line.
fn unpassed(octets: &[u8], passed: usize) -> &[u8]
    requires { HasPassed octets.now passed }
    ensures { is_some (head_length result.now) ≡ is_some (head_length octets.now) }
{
    if passed > 2 {
        &octets[passed - 2..]
    } else {
        octets
    }
}

/// Whether a line feed stands among these octets.
fn has_line_feed(octets: &[u8]) -> bool
    ensures { result ≡ has_line_feed octets.now }
{
    octets.contains(&b'\n')
}

/// Whether a head ends in octets, where none ends in the first so many: it ends in a line feed, which is
/// among the others.
fn has_new_end(octets: &[u8], passed: usize) -> bool
    requires { HasPassed octets.now passed }
    ensures { result ≡ is_some (head_length octets.now) }
{
    has_line_feed(&octets[passed..]) && has_end(unpassed(octets, passed))
}

/// The head that the octets of a connection begin with, once it has come, or why they begin with none.
/// It is `None` exactly where more octets are needed. So many of them were looked through before, in
/// which no head ends; and so it is told behind. So a head costs the same in whatever pieces it comes.
pub fn seek_head(alloc: Global, octets: &[u8], passed: &mut usize) -> Option<Result<Get, HeadFault>>
    requires { HasPassed octets.now passed.old }
    ensures sought { IsSought octets.now result }
    ensures passed { HasPassed octets.now passed.new }
{
    if awaits_more(octets, passed) {
        return None;
    }
    read_whole(alloc, octets)
}

/// Whether more octets are awaited: no head ends in those that have come, and one still may. So many of
/// them were looked through before, in which no head ends; and so it is told behind.
pub fn awaits_more(octets: &[u8], passed: &mut usize) -> bool
    requires { HasPassed octets.now passed.old }
    ensures awaits { result ≡ awaits_more octets.now }
    ensures more { IsTrue result → IsHeadAnswer octets.now (Ok HeadGot.NeedMore) }
    ensures passed { HasPassed octets.now passed.new }
{
    let ends = has_new_end(octets, *passed);
    if ends || octets.len() >= MOST_HEAD_OCTETS {
        return false;
    }
    *passed = octets.len();
    true
}

/// The head that octets begin with.
#[inline(never)]
fn read_whole(alloc: Global, octets: &[u8]) -> Option<Result<Get, HeadFault>>
    ensures { IsSought octets.now result }
{
    match read_head(alloc, octets) {
        Ok(HeadGot::NeedMore) => None,
        Ok(HeadGot::Got(get, _)) => Some(Ok(get)),
        Err(fault) => Some(Err(fault)),
    }
}
