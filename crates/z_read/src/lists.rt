//! Names of databases (ANSI/NISO Z39.50-2003, DatabaseName).

ghost use Rattle.unit_forms.specs.Reading.Rows.{required};
ghost use Rattle.unit_forms.specs.Reading.SearchRequest.{databases_of};
ghost use Rattle.z_fields.specs.Answers.{IsOrMemory};

use crate::each::{Part, read_each};
use std::alloc::Global;
use unit_forms::tags;
use z_fields::{Field, FieldFault, Fields, context, octets_of};
use z_types::{List, Text};

impl Part for Text {
    ghost use Rattle.unit_forms.specs.Reading.Rows.{octets_of as octets_of_field};

    ghost reading = { octets_of_field };

    fn read(alloc: Global, field: &Field<'_>) -> Result<Text, FieldFault> {
        octets_of(alloc, field)
    }
}

/// The names of databases in a field.
#[tactic(auto, unfolding(unit_forms::specs::Reading::SearchRequest::databases_in))]
fn databases_of(alloc: Global, field: &Field<'_>) -> Result<List<Text>, FieldFault>
    ensures { IsOrMemory (databases_of field.now) result }
{
    let tag = field.tag();
    if tag.constructed {
        read_each(alloc, field.elements(), context(tags::DATABASE_NAME))
    } else {
        Err(FieldFault::bad_value(tag.number))
    }
}

/// The names of databases in the field of this number, which has to be there.
pub fn required_databases(
    alloc: Global,
    fields: &Fields<'_>,
    number: u32,
) -> Result<List<Text>, FieldFault>
    ensures { IsOrMemory (required number databases_of fields.now) result }
{
    match fields.first_of(&[context(number)]) {
        Some(field) => databases_of(alloc, &field),
        None => Err(FieldFault::missing(number)),
    }
}
