//! The head of a request.

ghost use Rattle.std.specs.Prelude.{◌≡◌, take, IfSome, IfNone};
ghost use Rattle.httparse.specs.Grammar.{RequestHead};
ghost use Rattle.sru_request.specs.Head.{head_length};
ghost use Rattle.sru_request.specs.Request.{most_head_octets, IsHead, IsAnswerTo, IsAnswerIn, IsHeadAnswer};

use crate::HeadFault;
use crate::end::head_length;
use crate::target::get_of;
use httparse::Status;
use httparse::spans::{EMPTY_HEADER_SPAN, parse_request};
use std::alloc::Global;
use z_types::Text;

/// The most octets of a head.
pub const MOST_HEAD_OCTETS: usize = 16384;

/// The most fields of a head.
pub const MOST_FIELDS: usize = 64;

/// The target of a GET, in its octets as they came.
#[derive(PartialEq, Eq, Drop)]
pub struct Get {
    /// What stands before the first `?`, or the whole target.
    pub path: Text,
    /// What stands behind it, or nothing.
    pub query: Text,
}

/// What the octets that have come begin with.
#[derive(PartialEq, Eq, Drop)]
pub enum HeadGot {
    /// A GET, with the octets of its head.
    Got(Get, usize),
    /// A head whose end has not come.
    NeedMore,
}

/// The octets among which a head ends.
fn looked_at(octets: &[u8]) -> &[u8]
    ensures { result.now ≡ take most_head_octets octets.now }
{
    if octets.len() > MOST_HEAD_OCTETS {
        &octets[..MOST_HEAD_OCTETS]
    } else {
        octets
    }
}

/// The method and the target of a head that is these octets.
fn line_of(octets: &[u8]) -> Option<(&[u8], &[u8])>
    ensures found { IfSome result (λ line. (head : RequestHead) × IsHead octets.now head
        × (line.0.now ≡ head.method) × (line.1.now ≡ head.target)) }
    ensures none { IfNone result ((head : RequestHead) → ¬ (IsHead octets.now head)) }
{
    let mut fields = [EMPTY_HEADER_SPAN; MOST_FIELDS];
    match parse_request(octets, &mut fields) {
        Ok(Status::Complete(spans)) => {
            if spans.len == octets.len() {
                Some((spans.method.of(octets), spans.path.of(octets)))
            } else {
                None
            }
        }
        _ => None,
    }
}

/// The GET of a head that has come.
fn read_whole(alloc: Global, octets: &[u8]) -> Result<HeadGot, HeadFault>
    ensures { IsAnswerTo octets.now result }
{
    let Some((method, target)) = line_of(octets) else {
        return Err(HeadFault::BadHttp);
    };
    if method != b"GET".as_slice() {
        return Err(HeadFault::NotGet);
    }
    Ok(HeadGot::Got(get_of(alloc, target)?, octets.len()))
}

/// The GET of octets of which no more are looked at than a head may have.
fn read_within(alloc: Global, octets: &[u8]) -> Result<HeadGot, HeadFault>
    ensures { IsAnswerIn octets.now (head_length octets.now) result }
{
    match head_length(octets) {
        Some(len) => read_whole(alloc, &octets[..len]),
        None => {
            if octets.len() < MOST_HEAD_OCTETS {
                Ok(HeadGot::NeedMore)
            } else {
                Err(HeadFault::HeadTooLarge)
            }
        }
    }
}

/// The GET that the octets of a connection begin with. Its head is what stands up to and with the
/// first empty line, which is LF followed by LF or by CR LF. Nothing is refused before that line has
/// come or 16384 octets stand; more is needed exactly where neither is so. A head that is none of
/// `httparse`'s grammar with at most 64 fields is BadHttp, and of the others each whose method is not
/// `GET` is NotGet. It takes time linear in the octets, of which at most 16384 are looked at.
pub fn read_head(alloc: Global, octets: &[u8]) -> Result<HeadGot, HeadFault>
    ensures { IsHeadAnswer octets.now result }
{
    read_within(alloc, looked_at(octets))
}
