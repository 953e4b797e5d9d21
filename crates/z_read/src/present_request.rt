//! A Present (ANSI/NISO Z39.50-2003, PresentRequest).

ghost use Rattle.unit_forms.specs.Reading.PresentRequest.{place_in, form_in, present_in};
ghost use Rattle.z_fields.specs.Answers.{IsOrMemory};

use crate::element_names::composition_in;
use std::alloc::Global;
use unit_forms::tags;
use z_fields::{
    FieldFault, Fields, both, context, optional_octets, optional_oid, required_integer,
    required_number, required_octets,
};
use z_types::{Asked, Oid, Present, Text};

/// The referenceId, the result set's name, the start and the number of records.
type Place = (Option<Text>, (Text, (i64, u32)));

/// The composition and the syntax.
type Form = (Asked<Option<Text>>, Option<Oid>);

/// Which records are asked for.
#[tactic(auto, using(z_fields::proofs::AnswerLemmas::rows), unfolding(unit_forms::specs::Reading::PresentRequest::place_in))]
fn place_in(alloc: Global, fields: &Fields<'_>) -> Result<Place, FieldFault>
    ensures { IsOrMemory (place_in fields.now) result }
{
    let ref_id = optional_octets(alloc, fields, tags::REFERENCE_ID);
    let set_name = required_octets(alloc, fields, tags::RESULT_SET_ID);
    let start = required_integer(fields, tags::RESULT_SET_START_POINT);
    let number = required_number(fields, tags::NUMBER_OF_RECORDS_REQUESTED);
    both(ref_id, both(set_name, both(start, number)))
}

/// In which form they are asked for.
#[tactic(auto, using(z_fields::proofs::AnswerLemmas::rows), unfolding(unit_forms::specs::Reading::PresentRequest::form_in))]
fn form_in(alloc: Global, fields: &Fields<'_>) -> Result<Form, FieldFault>
    ensures { IsOrMemory (form_in fields.now) result }
{
    let element = composition_in(alloc, fields);
    let syntax = optional_oid(alloc, fields, context(tags::PREFERRED_RECORD_SYNTAX));
    both(element, syntax)
}

/// The Present of these fields.
#[tactic(auto, using(z_fields::proofs::AnswerLemmas::rows), unfolding(unit_forms::specs::Reading::PresentRequest::present_in))]
pub fn present_in(alloc: Global, fields: &Fields<'_>) -> Result<Present, FieldFault>
    ensures { IsOrMemory (present_in fields.now) result }
{
    let place = place_in(alloc, fields);
    let form = form_in(alloc, fields);
    let ((ref_id, (set_name, (start, number))), (element, syntax)) = both(place, form)?;
    Ok(Present {
        ref_id,
        set_name,
        start,
        number,
        element,
        syntax,
    })
}
