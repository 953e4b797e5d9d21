//! How far elements of indefinite length go (X.690:2021, 8.1.3.6, 8.1.5).

ghost use Rattle.std.specs.Prelude.{◌≡◌, ◌+◌, ◌-◌, ◌<◌, ◌≤◌, length, take, suc, IfOk, Ok, Err};
ghost use Rattle.z_types.specs.Bounds.{most_levels};
ghost use Rattle.z_ber.specs.Reading.{Gives, child_at, step_at, close_at, inside_at, IsAdvance, extent_at};

use crate::read::read_header;
use crate::step::Step;
use crate::{BerFault, Tag};

/// An element within, where levels are left.
fn child(room: u32, bytes: &[u8]) -> Result<(Step, &[u8]), BerFault>
    ensures read { Gives (λ x. (x.0, x.1.now)) result (child_at room bytes.now) }
    ensures shorter { IfOk result (λ x. length x.1.now < length bytes.now) }
    ensures deeper { IfOk result (λ x. x.0 ≡ Step.Open → 0 < room) }
{
    if room == 0 {
        return Err(BerFault::TooDeep);
    }
    match read_header(bytes) {
        Ok((_, None, body)) => Ok((Step::Open, body)),
        Ok((_, Some(len), body)) => {
            if (body.len() as u64) < len {
                return Err(BerFault::Short);
            }
            Ok((Step::Whole, &body[len as usize..]))
        }
        Err(fault) => Err(fault),
    }
}

/// The end of contents, or an element within.
#[tactic(auto, unfolding(crate::specs::Reading::step_at))]
pub fn step(room: u32, bytes: &[u8]) -> Result<(Step, &[u8]), BerFault>
    ensures read { Gives (λ x. (x.0, x.1.now)) result (step_at room bytes.now) }
    ensures shorter { IfOk result (λ x. length x.1.now < length bytes.now) }
    ensures deeper { IfOk result (λ x. x.0 ≡ Step.Open → 0 < room) }
{
    match bytes {
        [] => Err(BerFault::Short),
        [0] => Err(BerFault::Short),
        [0, 0, after @ ..] => Ok((Step::End, after)),
        _ => child(room, bytes),
    }
}

/// One step on, where elements are open.
fn advance(opened: u32, room: u32, bytes: &[u8]) -> Result<(u32, u32, &[u8]), BerFault>
    requires opened { 0 < opened }
    requires few { opened + room ≤ most_levels }
    ensures few { IfOk result (λ x. x.0 + x.1 ≤ most_levels) }
    ensures shorter { IfOk result (λ x. length x.2.now < length bytes.now) }
    ensures step { IsAdvance opened room bytes.now result }
{
    match step(room, bytes) {
        Ok((Step::End, after)) => Ok((opened - 1, room + 1, after)),
        Ok((Step::Whole, after)) => Ok((opened, room, after)),
        Ok((Step::Open, after)) => Ok((opened + 1, room - 1, after)),
        Err(fault) => Err(fault),
    }
}

/// What follows the end of the elements that are open, where `room` levels are left in the innermost.
fn close(mut opened: u32, mut room: u32, bytes: &[u8]) -> Result<&[u8], BerFault>
    requires { opened + room ≤ most_levels }
    ensures { Gives (λ x. x.now) result (close_at (suc (length bytes.now)) opened room bytes.now) }
{
    let mut rest = bytes;
    while opened > 0 {
        match advance(opened, room, rest) {
            Ok((now_opened, now_room, after)) => {
                opened = now_opened;
                room = now_room;
                rest = after;
            }
            Err(fault) => return Err(fault),
        }
    }
    Ok(rest)
}

/// Tag, contents octets and what follows an element of indefinite length, behind its header.
fn inside(tag: Tag, room: u32, body: &[u8]) -> Result<(Tag, &[u8], &[u8]), BerFault>
    requires { room < most_levels }
    ensures { Gives (λ x. (x.0, x.1.now, x.2.now)) result
        (inside_at tag body.now (close_at (suc (length body.now)) 1 room body.now)) }
{
    match close(1, room, body) {
        Ok(rest) => Ok((tag, inner(body, rest.len()), rest)),
        Err(fault) => Err(fault),
    }
}

/// What stands in front of the end of contents and the `rest` octets behind it.
fn inner(body: &[u8], rest: usize) -> &[u8]
    ensures { result.now ≡ take (length body.now - rest - 2) body.now }
{
    let behind = rest.saturating_add(2);
    if behind <= body.len() {
        &body[..body.len() - behind]
    } else {
        &body[..0]
    }
}

/// Tag, contents octets and what follows, where `room` levels are left in the element.
#[tactic(auto, unfolding(crate::specs::Reading::extent_at))]
#[inline(always)]
pub fn read_extent(room: u32, bytes: &[u8]) -> Result<(Tag, &[u8], &[u8]), BerFault>
    requires { room < most_levels }
    ensures { Gives (λ x. (x.0, x.1.now, x.2.now)) result (extent_at room bytes.now) }
{
    match read_header(bytes) {
        Ok((tag, None, body)) => inside(tag, room, body),
        Ok((tag, Some(len), body)) => {
            if (body.len() as u64) < len {
                return Err(BerFault::Short);
            }
            let (contents, rest) = body.split_at(len as usize);
            Ok((tag, contents, rest))
        }
        Err(fault) => Err(fault),
    }
}
