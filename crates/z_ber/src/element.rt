//! An element and its children, lent (X.690:2021, 8.1.1).

ghost use Rattle.std.specs.Prelude.{◌≡◌, ◌≢◌, ◌<◌, ◌≤◌, [], IfOk, IfErr, Ok, Err};
ghost use Rattle.z_types.specs.Bounds.{most_levels};
ghost use Rattle.z_ber.specs.Due.{IsRefused};
ghost use Rattle.z_ber.specs.Lent.{children_of, IsLentFrom, IsFirst, IsNext};
ghost use Rattle.z_ber.specs.LentTree.{LeavesLess, LendsFirst, LendsNext, with_all_children};
ghost use Rattle.z_ber.specs.Place.{IsUnitAnswer};

use crate::extent::read_extent;
use crate::frame::FRAME_MAX;
use crate::place::element_size;
use crate::{BerFault, Tag};
use std::marker::Model;
use z_types::MOST_LEVELS;

/// An element, with the children that have not been lent yet. The outermost stands at level 1, and
/// none at level 65.
#[derive(Debug, Drop)]
pub struct Element<'a> {
    tag: Tag,
    body: &'a [u8],
    left: &'a [u8],
    levels: u32,
}

impl<'a> Model for Element<'a> {
    ghost use Rattle.std.specs.Prelude.{◌<◌};
    ghost use Rattle.z_types.specs.Bounds.{most_levels};
    ghost use Rattle.z_ber.specs.Lent.{Lent};

    ghost Value = { Lent };

    ghost view = { λ e. record { tag = e.tag; body = e.body.now; left = e.left.now; levels = e.levels } };

    ghost invariant = { λ e. e.levels < most_levels };
}

/// The octets of a constructed element's children; a primitive one has none.
#[inline(always)]
fn children(tag: Tag, body: &[u8]) -> &[u8]
    ensures { result.now ≡ children_of tag body.now }
{
    if tag.constructed { body } else { &body[..0] }
}

/// The element at the front of octets, where `levels` levels are left, and what follows it.
#[inline(always)]
fn lend(levels: u32, bytes: &[u8]) -> Result<(Element<'_>, &[u8]), BerFault>
    requires some { 0 < levels }
    requires few { levels ≤ most_levels }
    ensures lent { IfOk result (λ x. IsLentFrom levels bytes.now x.1.now x.0) }
    ensures refused { IfErr result (IsRefused levels bytes.now) }
{
    match read_extent(levels - 1, bytes) {
        Ok((tag, body, rest)) => {
            let left = children(tag, body);
            let element = Element {
                tag,
                body,
                left,
                levels: levels - 1,
            };
            Ok((element, rest))
        }
        Err(fault) => Err(fault),
    }
}

impl<'a> Element<'a> {
    /// Lends the element that octets begin with.
    #[inline(always)]
    pub fn first(bytes: &'a [u8]) -> Result<Element<'a>, BerFault>
        ensures first { IsFirst bytes.now result }
        ensures tree { LendsFirst bytes.now result }
    {
        match lend(MOST_LEVELS, bytes) {
            Ok((element, _)) => Ok(element),
            Err(fault) => Err(fault),
        }
    }

    /// Lends the element that octets are, whole, with all elements in it, on 64 levels and of 1048576
    /// octets at most. Otherwise answers the place: 0 above the limit; else the first where a header
    /// is due that cannot be read, stands at level 65, or has contents that pass the end of what
    /// holds it; else the first octet behind the element.
    pub fn of_unit(octets: &'a [u8]) -> Result<Element<'a>, usize>
        ensures { IsUnitAnswer octets.now result }
    {
        if octets.len() as u64 > FRAME_MAX {
            return Err(0);
        }
        let size = match element_size(MOST_LEVELS, octets) {
            Ok(size) => size,
            Err(at) => return Err(at),
        };
        if size < octets.len() {
            return Err(size);
        }
        match Element::first(octets) {
            Ok(element) => Ok(element),
            Err(_) => unreachable!(),
        }
    }

    /// The tag.
    pub fn tag(&self) -> Tag
        ensures { result ≡ self.now.tag }
    {
        self.tag
    }

    /// The contents octets, without the end of contents of an indefinite element.
    pub fn body(&self) -> &'a [u8]
        ensures { result.now ≡ self.now.body }
    {
        self.body
    }

    /// The same element, with all of its children to be lent from the start.
    pub fn again(&self) -> Element<'a>
        ensures { result ≡ with_all_children self.now }
    {
        Element {
            tag: self.tag,
            body: self.body,
            left: children(self.tag, self.body),
            levels: self.levels,
        }
    }

    /// Lends the next child, or answers `None` after the last; a refusal changes nothing.
    #[inline(always)]
    pub fn next_child(&mut self) -> Result<Option<Element<'a>>, BerFault>
        ensures next { IsNext self.old self.new result }
        ensures tree { LendsNext self.old self.new result }
        ensures shorter { LeavesLess self.old self.new result }
        ensures deep { self.old.levels ≡ 0 → self.old.left ≢ [] → result ≡ Err BerFault.TooDeep }
    {
        if self.left.is_empty() {
            return Ok(None);
        }
        if self.levels == 0 {
            return Err(BerFault::TooDeep);
        }
        match lend(self.levels, self.left) {
            Ok((child, rest)) => {
                self.left = rest;
                Ok(Some(child))
            }
            Err(fault) => Err(fault),
        }
    }
}
