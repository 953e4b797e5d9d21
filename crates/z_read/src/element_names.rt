//! Element set names (ANSI/NISO Z39.50-2003, ElementSetNames), and the composition that a Present asks for.

ghost use Rattle.unit_forms.specs.Reading.Rows.{optional};
ghost use Rattle.unit_forms.specs.Reading.ElementNames.{name_of, names_in, names_of, composition_of, composition_or_none, composition_in};
ghost use Rattle.z_fields.specs.Answers.{IsOrMemory};

use crate::diagnostics::{additional_ranges, complex_composition, specific_names};
use std::alloc::Global;
use unit_forms::tags;
use z_fields::{Field, FieldFault, Fields, context, octets_of};
use z_types::{Asked, Text};

/// A generic name, or names by database, which are not served.
fn name_of(alloc: Global, field: &Field<'_>) -> Result<Asked<Text>, FieldFault>
    ensures { IsOrMemory (name_of field.now) result }
{
    if field.tag().number != tags::GENERIC_ELEMENT_SET_NAME {
        return Ok(Asked::Bad(specific_names(alloc)?));
    }
    Ok(Asked::Good(octets_of(alloc, field)?))
}

/// Element set names, around one of the two.
#[tactic(auto, unfolding(unit_forms::specs::Reading::ElementNames::names_in))]
fn names_of(alloc: Global, field: &Field<'_>) -> Result<Asked<Text>, FieldFault>
    ensures { IsOrMemory (names_of field.now) result }
{
    let tag = field.tag();
    if !tag.constructed {
        return Err(FieldFault::bad_value(tag.number));
    }
    let choice = [
        context(tags::GENERIC_ELEMENT_SET_NAME),
        context(tags::DATABASE_SPECIFIC),
    ];
    match field.elements().first_of(&choice) {
        Some(name) => name_of(alloc, &name),
        None => Err(FieldFault::missing(tags::GENERIC_ELEMENT_SET_NAME)),
    }
}

/// The element set names of this number, where they are there.
pub fn optional_names(
    alloc: Global,
    fields: &Fields<'_>,
    number: u32,
) -> Result<Option<Asked<Text>>, FieldFault>
    ensures { IsOrMemory (optional number names_of fields.now) result }
{
    match fields.first_of(&[context(number)]) {
        Some(field) => Ok(Some(names_of(alloc, &field)?)),
        None => Ok(None),
    }
}

/// A simple composition, or a complex one, which is not served.
fn composition_of(alloc: Global, field: &Field<'_>) -> Result<Asked<Option<Text>>, FieldFault>
    ensures { IsOrMemory (composition_of field.now) result }
{
    if field.tag().number != tags::RECORD_COMPOSITION_SIMPLE {
        return Ok(Asked::Bad(complex_composition(alloc)?));
    }
    match names_of(alloc, field)? {
        Asked::Good(name) => Ok(Asked::Good(Some(name))),
        Asked::Bad(diag) => Ok(Asked::Bad(diag)),
    }
}

/// The composition where one is told.
fn composition_or_none(
    alloc: Global,
    found: Option<Field<'_>>,
) -> Result<Asked<Option<Text>>, FieldFault>
    ensures { IsOrMemory (composition_or_none found.entry) result }
{
    match found {
        Some(field) => composition_of(alloc, &field),
        None => Ok(Asked::Good(None)),
    }
}

/// The composition that these fields ask for; additional ranges are not served.
#[tactic(auto, unfolding(unit_forms::specs::Reading::ElementNames::composition_in))]
pub fn composition_in(alloc: Global, fields: &Fields<'_>) -> Result<Asked<Option<Text>>, FieldFault>
    ensures { IsOrMemory (composition_in fields.now) result }
{
    let found = fields.first_of(&[
        context(tags::RECORD_COMPOSITION_SIMPLE),
        context(tags::RECORD_COMPOSITION_COMPLEX),
    ]);
    let composition = composition_or_none(alloc, found)?;
    match fields.first_of(&[context(tags::ADDITIONAL_RANGES)]) {
        Some(_) => Ok(Asked::Bad(additional_ranges(alloc)?)),
        None => Ok(composition),
    }
}
