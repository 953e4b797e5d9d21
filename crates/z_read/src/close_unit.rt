//! A Close (ANSI/NISO Z39.50-2003, Close).

ghost use Rattle.unit_forms.specs.Reading.CloseUnit.{close_in};
ghost use Rattle.z_fields.specs.Answers.{IsOrMemory};

use std::alloc::Global;
use unit_forms::tags;
use z_fields::{FieldFault, Fields, both, optional_octets, required_number};
use z_types::Close;

/// The Close of these fields.
#[tactic(auto, using(z_fields::proofs::AnswerLemmas::rows), unfolding(unit_forms::specs::Reading::CloseUnit::close_in))]
pub fn close_in(alloc: Global, fields: &Fields<'_>) -> Result<Close, FieldFault>
    ensures { IsOrMemory (close_in fields.now) result }
{
    let ref_id = optional_octets(alloc, fields, tags::REFERENCE_ID);
    let reason = required_number(fields, tags::CLOSE_REASON);
    let info = optional_octets(alloc, fields, tags::DIAGNOSTIC_INFORMATION);
    let (ref_id, (reason, info)) = both(ref_id, both(reason, info))?;
    Ok(Close {
        ref_id,
        reason,
        info,
    })
}
