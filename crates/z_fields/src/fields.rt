//! The fields of an element, of which the first with each tag counts (this project's own).

ghost use Rattle.std.specs.Prelude.{◌≡◌, ◌+◌, ◌<◌, ◌∷◌, [], length, IfOk, OnOk};
ghost use Rattle.std.specs.Option.{option_copied};
ghost use Rattle.unit_forms.specs.Reading.Elements.{first_of};
ghost use Rattle.z_fields.specs.Index.{place_count, free, kept_at, places_with, kept_with};

use crate::elements::{Elements, Field, has_tag};
use std::alloc::Global;
use std::marker::Model;
use z_ber::Tag;
use z_types::Memory;

/// How many places an index has. No two context tags that one unit's fields are looked for by share
/// a place, so that each is found without a look at others where no field that is not looked for
/// took its place.
const PLACE_COUNT: usize = 31;

/// How many fields an index keeps at first.
const FEW: usize = 12;

/// The fields of an element. Where they are indexed, those of the context class are found by their
/// numbers, and else by a look at each element.
#[derive(Drop)]
pub struct Fields<'a> {
    field: Field<'a>,
    is_indexed: bool,
    places: [u8; PLACE_COUNT],
    kept: Vec<Field<'a>>,
}

impl<'a> Model for Fields<'a> {
    ghost use Rattle.z_ber.specs.Element.{Forest};
    ghost use Rattle.z_fields.specs.Codes.{forest_code};
    ghost use Rattle.z_fields.specs.Index.{AreIndexed};

    ghost Value = { Forest };

    ghost coded = { forest_code };

    ghost view = { λ f. f.field.inner };

    ghost invariant = { λ f. AreIndexed f.is_indexed f.places f.kept.items f.field.inner };
}

/// Keeps a field of the context class at its place, where it is the first.
#[tactic(auto, using(crate::proofs::IndexLemmas::one_free))]
#[inline(always)]
fn keep<'a>(
    places: &mut [u8; PLACE_COUNT],
    kept: &mut Vec<Field<'a>>,
    field: Field<'a>,
) -> Result<(), Memory>
    requires { length kept.old.items + free places.old ≡ place_count }
    ensures places { OnOk result (places.new ≡ places_with places.old kept.old.items field.entry) }
    ensures kept { OnOk result (kept.new.items ≡ kept_with places.old kept.old.items field.entry) }
{
    let tag = field.tag();
    if tag.class == 2 {
        let place = tag.number as usize % PLACE_COUNT;
        if places[place] == 0 {
            kept.push(field)?;
            places[place] = kept.len() as u8;
        }
    }
    Ok(())
}

/// The kept field at a place.
#[inline(always)]
fn kept_at<'k, 'a>(
    places: &[u8; PLACE_COUNT],
    kept: &'k [Field<'a>],
    place: usize,
) -> Option<&'k Field<'a>>
    requires { place < place_count }
    ensures { option_copied result ≡ kept_at places.now kept.now place }
{
    let behind = places[place];
    if behind == 0 {
        return None;
    }
    kept.get(usize::from(behind) - 1)
}

impl<'a> Fields<'a> {
    /// The fields of an element, found by a look at each. It takes no memory.
    #[inline(always)]
    pub fn of(alloc: Global, field: &Field<'a>) -> Fields<'a>
        ensures { result ≡ field.now.inner }
    {
        Fields {
            field: field.again(),
            is_indexed: false,
            places: [0; PLACE_COUNT],
            kept: Vec::new(alloc),
        }
    }

    /// The fields of an element, indexed in one pass.
    #[tactic(auto, using(crate::proofs::FirstLemmas::fewer))]
    #[inline(always)]
    pub fn with_index(alloc: Global, field: &Field<'a>) -> Result<Fields<'a>, Memory>
        ensures { IfOk result (λ fields. fields ≡ field.now.inner) }
    {
        let mut places = [0; PLACE_COUNT];
        let mut kept = Vec::with_capacity(alloc, FEW)?;
        let mut elements = field.elements();
        loop {
            match elements.next() {
                Some(one) => keep(&mut places, &mut kept, one)?,
                None => {
                    return Ok(Fields {
                        field: field.again(),
                        is_indexed: true,
                        places,
                        kept,
                    });
                }
            }
        }
    }

    /// The first field with this tag.
    #[tactic(auto, using(crate::proofs::IndexLemmas::found_steps))]
    #[inline(always)]
    fn first(&self, tag: Tag) -> Option<Field<'a>>
        ensures { result ≡ first_of (tag ∷ []) self.now }
    {
        if self.is_indexed && tag.class == 2 {
            let place = tag.number as usize % PLACE_COUNT;
            match kept_at(&self.places, self.kept.as_slice(), place) {
                None => return None,
                Some(field) => {
                    if has_tag(field.tag(), tag) {
                        return Some(field.again());
                    }
                }
            }
        }
        self.field.elements().first_of(&[tag])
    }

    /// The first field whose tag is one of these.
    #[inline(always)]
    pub fn first_of(&self, choice: &[Tag]) -> Option<Field<'a>>
        ensures { result ≡ first_of choice.now self.now }
    {
        match choice {
            [tag] => self.first(*tag),
            _ => self.field.elements().first_of(choice),
        }
    }

    /// The elements, from the first on.
    #[inline(always)]
    pub fn elements(&self) -> Elements<'a>
        ensures { result ≡ self.now }
    {
        self.field.elements()
    }
}
