//! Elements one after another, on 64 levels at most, checked in one pass (X.690:2021, 8.1.1, 8.1.5).

ghost use Rattle.std.specs.Prelude.{◌≡◌, ◌-◌, ◌<◌, ◌≤◌, length, true, false, Some, IfOk, IfErr};
ghost use Rattle.std.specs.Bool.{MatchBool};
ghost use Rattle.z_types.specs.Bounds.{most_levels};
ghost use Rattle.z_ber.specs.Element.{HaveEnded};
ghost use Rattle.z_ber.specs.Place.{IsElementOf, IsElementsAnswer, IsPlace, IsPlaceAmong};
ghost use Rattle.z_ber.specs.Walking.{AreClosedAt, AreSomeElements, MayBegin, IsHeaderFound};

use crate::{Header, header};
use z_types::MOST_LEVELS;

/// The header that stands where an element is due, if the element can begin there: there is a level
/// for it, and its contents do not pass the end of octets.
#[inline(always)]
fn find_header(levels: u32, octets: &[u8]) -> Option<Header>
    ensures { IsHeaderFound levels octets.now result }
{
    if levels == 0 {
        return None;
    }
    match header(octets) {
        Ok(head) => match head.length {
            None => Some(head),
            Some(len) => {
                if len > (octets.len() - head.size) as u64 {
                    return None;
                }
                Some(head)
            }
        },
        Err(_) => None,
    }
}

/// Whether an end of contents stands at the front (8.1.5).
#[inline(always)]
fn has_end(octets: &[u8]) -> bool
    ensures end { MatchBool result (HaveEnded true octets.now) (¬ HaveEnded true octets.now) }
    ensures two { result ≡ true → 2 ≤ length octets.now }
{
    matches!(octets, [0, 0, ..])
}

/// How many octets the element takes that begins with a header; or the place where it is none.
#[cycle(walk)]
#[inline(always)]
fn size_behind(levels: u32, head: Header, octets: &[u8]) -> Result<usize, usize>
    requires few { levels ≤ most_levels }
    requires begins { MayBegin levels octets.now head }
    ensures element { IfOk result (IsElementOf levels octets.now) }
    ensures some { IfOk result (λ size. 0 < size) }
    ensures fits { IfOk result (λ size. size ≤ length octets.now) }
    ensures place { IfErr result (IsPlace levels octets.now) }
    ensures inside { IfErr result (λ at. at ≤ length octets.now) }
{
    let (_, body) = octets.split_at(head.size);
    match head.length {
        None => match closed_size(levels - 1, body) {
            Ok(size) => Ok(head.size + size),
            Err(at) => Err(head.size + at),
        },
        Some(len) => {
            let size = head.size + len as usize;
            if !head.tag.constructed {
                return Ok(size);
            }
            match are_elements(levels - 1, body.split_at(len as usize).0) {
                Ok(()) => Ok(size),
                Err(at) => Err(head.size + at),
            }
        }
    }
}

/// Whether a constructed element has all octets behind its header.
#[inline(always)]
fn has_all(head: Header, octets: &[u8]) -> bool
    requires { head.size ≤ length octets.now }
    ensures form { result ≡ true → head.tag.constructed ≡ true }
    ensures all { result ≡ true → head.length ≡ Some (length octets.now - head.size) }
{
    head.tag.constructed && head.length == Some((octets.len() - head.size) as u64)
}

/// Whether octets are elements with nothing left over; or the place where they are none. The last
/// of them is gone into without a call, so that elements that each hold one take no more calls than
/// one of them.
#[cycle(walk)]
fn are_elements(levels: u32, octets: &[u8]) -> Result<(), usize>
    requires { levels ≤ most_levels }
    ensures elements { IfOk result (λ _. AreSomeElements levels octets.now) }
    ensures place { IfErr result (IsPlaceAmong false levels octets.now) }
    ensures inside { IfErr result (λ at. at ≤ length octets.now) }
{
    let mut left = levels;
    let mut rest = octets;
    while !rest.is_empty() {
        let Some(head) = find_header(left, rest) else {
            return Err(octets.len() - rest.len());
        };
        if has_all(head, rest) {
            left -= 1;
            rest = rest.split_at(head.size).1;
        } else {
            match size_behind(left, head, rest) {
                Ok(size) => rest = rest.split_at(size).1,
                Err(at) => return Err(octets.len() - rest.len() + at),
            }
        }
    }
    Ok(())
}

/// How many octets elements and the end of contents take that octets begin with; or the place where
/// they are none. Elements of indefinite length in them are counted and not called for.
#[cycle(walk)]
fn closed_size(levels: u32, octets: &[u8]) -> Result<usize, usize>
    requires { levels ≤ most_levels }
    ensures closed { IfOk result (AreClosedAt levels octets.now) }
    ensures place { IfErr result (IsPlaceAmong true levels octets.now) }
    ensures inside { IfErr result (λ at. at ≤ length octets.now) }
{
    let mut left = levels;
    let mut opened = 1u32;
    let mut rest = octets;
    while opened > 0 {
        if has_end(rest) {
            left += 1;
            opened -= 1;
            rest = rest.split_at(2).1;
            continue;
        }
        let Some(head) = find_header(left, rest) else {
            return Err(octets.len() - rest.len());
        };
        if head.length.is_none() {
            left -= 1;
            opened += 1;
            rest = rest.split_at(head.size).1;
        } else {
            match size_behind(left, head, rest) {
                Ok(size) => rest = rest.split_at(size).1,
                Err(at) => return Err(octets.len() - rest.len() + at),
            }
        }
    }
    Ok(octets.len() - rest.len())
}

/// How many octets the element takes that octets begin with; or the place where they begin with
/// none.
pub(crate) fn element_size(levels: u32, octets: &[u8]) -> Result<usize, usize>
    requires { levels ≤ most_levels }
    ensures element { IfOk result (IsElementOf levels octets.now) }
    ensures fits { IfOk result (λ size. size ≤ length octets.now) }
    ensures place { IfErr result (IsPlace levels octets.now) }
{
    match find_header(levels, octets) {
        Some(head) => size_behind(levels, head, octets),
        None => Err(0),
    }
}

/// Whether octets are elements one after another, with nothing left over, on 64 levels at most; or
/// the first place where a header is due that cannot be read, stands at level 65, or has contents
/// that pass the end of what holds it.
pub fn elements(octets: &[u8]) -> Result<(), usize>
    ensures { IsElementsAnswer octets.now result }
{
    match are_elements(MOST_LEVELS, octets) {
        Ok(()) => Ok(()),
        Err(at) => Err(at),
    }
}
