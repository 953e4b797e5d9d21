//! Elements, each of which is one all the way down (X.690:2021, 8.1.1).

ghost use Rattle.std.specs.Prelude.{◌≡◌, ◌==◌};
ghost use Rattle.unit_forms.specs.Reading.Elements.{first_element, other_elements, has_tag, is_constructed, is_one_of, first_of, first_constructed, first_context};
ghost use Rattle.z_types.specs.Bounds.{most_levels};
ghost use Rattle.z_fields.specs.Trees.{AreWhole, IsTaken, IsRoot, elements_in};

use std::marker::Model;
use z_ber::{Element, Tag};

/// An element, with all of its children.
#[derive(Drop)]
pub struct Field<'a> {
    lent: Element<'a>,
}

impl<'a> Model for Field<'a> {
    ghost use Rattle.unit_forms.specs.Reading.Elements.{Field as FieldTree};
    ghost use Rattle.z_fields.specs.Codes.{field_code};
    ghost use Rattle.z_fields.specs.Trees.{seen, IsWholeLent};

    ghost Value = { FieldTree };

    ghost coded = { field_code };

    ghost view = { λ f. seen f.lent };

    ghost invariant = { λ f. IsWholeLent f.lent };
}

/// Elements one after another, of which the first may have been taken.
#[derive(Drop)]
pub struct Elements<'a> {
    lent: Element<'a>,
}

impl<'a> Model for Elements<'a> {
    ghost use Rattle.z_ber.specs.Element.{Forest};
    ghost use Rattle.z_fields.specs.Codes.{forest_code};
    ghost use Rattle.z_fields.specs.Trees.{elements_in, AreWhole};

    ghost Value = { Forest };

    ghost coded = { forest_code };

    ghost view = { λ e. elements_in e.lent.levels e.lent.left };

    ghost invariant = { λ e. AreWhole e.lent.levels e.lent.left };
}

/// Lends the next child of an element whose children are whole.
#[inline(always)]
fn take<'a>(lent: &mut Element<'a>) -> Option<Element<'a>>
    requires { AreWhole lent.old.levels lent.old.left }
    ensures { IsTaken lent.old lent.new result }
{
    match lent.next_child() {
        Ok(Some(child)) => Some(child),
        Ok(None) => None,
        Err(_) => unreachable!(),
    }
}

impl<'a> Field<'a> {
    /// The element that a unit is, of 1048576 octets at most. Otherwise answers the place: 0 above the
    /// limit; else the first where a header is due that cannot be read, stands at level 65, or has
    /// contents that pass the end of what holds it; else the first octet behind the element.
    #[inline(always)]
    pub fn of_unit(octets: &'a [u8]) -> Result<Field<'a>, usize>
        ensures { IsRoot octets.now result }
    {
        match Element::of_unit(octets) {
            Ok(lent) => Ok(Field { lent }),
            Err(at) => Err(at),
        }
    }

    /// The first of elements one after another, or `None` where there are none.
    pub fn first(octets: &'a [u8]) -> Option<Field<'a>>
        requires whole { AreWhole most_levels octets.now }
        ensures { result ≡ first_element (elements_in most_levels octets.now) }
    {
        if octets.is_empty() {
            return None;
        }
        match Element::first(octets) {
            Ok(lent) => Some(Field { lent }),
            Err(_) => unreachable!(),
        }
    }

    /// The tag.
    #[inline(always)]
    pub fn tag(&self) -> Tag
        ensures { result ≡ self.now.tag }
    {
        self.lent.tag()
    }

    /// The contents octets, without the end of contents of an indefinite element.
    #[inline(always)]
    pub fn contents(&self) -> &'a [u8]
        ensures { result.now ≡ self.now.contents }
    {
        self.lent.body()
    }

    /// The elements in it, from the first on.
    #[inline(always)]
    pub fn elements(&self) -> Elements<'a>
        ensures { result ≡ self.now.inner }
    {
        Elements {
            lent: self.lent.again(),
        }
    }

    /// The same field again.
    #[inline(always)]
    pub fn again(&self) -> Field<'a>
        ensures { result ≡ self.now }
    {
        Field {
            lent: self.lent.again(),
        }
    }
}

/// Whether the class and number of a tag are the wanted ones.
#[inline(always)]
pub fn has_tag(tag: Tag, wanted: Tag) -> bool
    ensures { result ≡ has_tag tag wanted }
{
    tag.class == wanted.class && tag.number == wanted.number
}

/// Whether a tag is the wanted one, around elements.
#[inline(always)]
fn is_constructed(wanted: Tag, tag: Tag) -> bool
    ensures { result ≡ is_constructed wanted tag }
{
    tag.constructed && has_tag(tag, wanted)
}

/// Whether a tag is one of a choice's.
#[inline(always)]
pub fn is_one_of(choice: &[Tag], tag: Tag) -> bool
    ensures { result ≡ is_one_of choice.now tag }
{
    let mut left = choice;
    loop {
        match left {
            [] => return false,
            [wanted, rest @ ..] => {
                if has_tag(tag, *wanted) {
                    return true;
                }
                left = rest;
            }
        }
    }
}

impl<'a> Elements<'a> {
    /// Takes the first element, or answers `None` where none is left.
    #[inline(always)]
    pub fn next(&mut self) -> Option<Field<'a>>
        ensures first { result ≡ first_element self.old }
        ensures others { self.new ≡ other_elements self.old }
    {
        match take(&mut self.lent) {
            Some(lent) => Some(Field { lent }),
            None => None,
        }
    }

    /// The first element whose tag is one of these.
    #[tactic(auto, using(crate::proofs::FirstLemmas::first_steps))]
    #[inline(always)]
    pub fn first_of(mut self, choice: &[Tag]) -> Option<Field<'a>>
        ensures { result ≡ first_of choice.now self.entry }
    {
        loop {
            match self.next() {
                None => return None,
                Some(field) => {
                    if is_one_of(choice, field.tag()) {
                        return Some(field);
                    }
                }
            }
        }
    }

    /// The first constructed element with this tag.
    #[tactic(auto, using(crate::proofs::FirstLemmas::constructed_steps))]
    #[inline(always)]
    pub fn first_constructed(mut self, wanted: Tag) -> Option<Field<'a>>
        ensures { result ≡ first_constructed wanted self.entry }
    {
        loop {
            match self.next() {
                None => return None,
                Some(field) => {
                    if is_constructed(wanted, field.tag()) {
                        return Some(field);
                    }
                }
            }
        }
    }

    /// The first element of the context class.
    #[tactic(auto, using(crate::proofs::FirstLemmas::context_steps))]
    #[inline(always)]
    pub fn first_context(mut self) -> Option<Field<'a>>
        ensures { result ≡ first_context self.entry }
    {
        loop {
            match self.next() {
                None => return None,
                Some(field) => {
                    if field.tag().class == 2 {
                        return Some(field);
                    }
                }
            }
        }
    }
}
