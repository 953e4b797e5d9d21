//! A Scan (ANSI/NISO Z39.50-2003, ScanRequest).

ghost use Rattle.std.specs.Prelude.{◌≡◌, [], ◌∷◌};
ghost use Rattle.unit_forms.specs.Tags as numbers;
ghost use Rattle.unit_forms.specs.Reading.Rows.{universal as universal_tag, oid_of, optional_of, required, within};
ghost use Rattle.unit_forms.specs.Reading.Attributes.{attrs_and_term_in};
ghost use Rattle.unit_forms.specs.Reading.ScanRequest.{start_in, as_ask, ask_in, scan_in};
ghost use Rattle.z_fields.specs.Answers.{IsOrMemory};

use crate::attributes::attrs_and_term_in;
use crate::lists::required_databases;
use std::alloc::Global;
use unit_forms::tags;
use z_fields::{
    FieldFault, Fields, both, context, optional_number, optional_octets, optional_oid,
    required_number, universal,
};
use z_types::{Asked, Attr, List, Oid, Scan, ScanAsk, Term};

/// The attribute set, the attributes and the term, the step, the number of terms and the position.
type Start = (
    Option<Oid>,
    (Asked<(List<Attr>, Term)>, (Option<u32>, (u32, Option<u32>))),
);

/// The attributes and the term to begin at, which have to be there.
fn required_start(
    alloc: Global,
    fields: &Fields<'_>,
) -> Result<Asked<(List<Attr>, Term)>, FieldFault>
    ensures { IsOrMemory (required
        numbers.term_list_and_start_point (within attrs_and_term_in) fields.now) result }
{
    match fields.first_of(&[context(tags::TERM_LIST_AND_START_POINT)]) {
        Some(field) => {
            if field.tag().constructed {
                attrs_and_term_in(alloc, &Fields::of(alloc, &field))
            } else {
                Err(FieldFault::bad_value(field.tag().number))
            }
        }
        None => Err(FieldFault::missing(tags::TERM_LIST_AND_START_POINT)),
    }
}

/// The attribute set, where one is told.
fn optional_set(alloc: Global, fields: &Fields<'_>) -> Result<Option<Oid>, FieldFault>
    ensures { IsOrMemory
        (optional_of (universal_tag numbers.object_identifier ∷ []) oid_of fields.now) result }
{
    optional_oid(alloc, fields, universal(tags::OBJECT_IDENTIFIER))
}

/// The rows of what is asked for.
#[tactic(auto, using(z_fields::proofs::AnswerLemmas::rows), unfolding(unit_forms::specs::Reading::ScanRequest::start_in))]
fn start_in(alloc: Global, fields: &Fields<'_>) -> Result<Start, FieldFault>
    ensures { IsOrMemory (start_in fields.now) result }
{
    let attr_set = optional_set(alloc, fields);
    let start = required_start(alloc, fields);
    let step = optional_number(fields, tags::STEP_SIZE);
    let number = required_number(fields, tags::NUMBER_OF_TERMS_REQUESTED);
    let position = optional_number(fields, tags::PREFERRED_POSITION_IN_RESPONSE);
    both(attr_set, both(start, both(step, both(number, position))))
}

/// What is asked for, of its rows.
fn as_ask(rows: Start) -> Asked<ScanAsk>
    ensures { result ≡ as_ask rows }
{
    let (attr_set, (start, (step, (number, position)))) = rows;
    match start {
        Asked::Good((attrs, term)) => Asked::Good(ScanAsk {
            attr_set,
            attrs,
            term,
            step,
            number,
            position,
        }),
        Asked::Bad(diag) => Asked::Bad(diag),
    }
}

/// What is asked for.
#[tactic(auto, unfolding(unit_forms::specs::Reading::ScanRequest::ask_in))]
fn ask_in(alloc: Global, fields: &Fields<'_>) -> Result<Asked<ScanAsk>, FieldFault>
    ensures { IsOrMemory (ask_in fields.now) result }
{
    Ok(as_ask(start_in(alloc, fields)?))
}

/// The Scan of these fields.
#[tactic(auto, using(z_fields::proofs::AnswerLemmas::rows), unfolding(unit_forms::specs::Reading::ScanRequest::scan_in))]
pub fn scan_in(alloc: Global, fields: &Fields<'_>) -> Result<Scan, FieldFault>
    ensures { IsOrMemory (scan_in fields.now) result }
{
    let ref_id = optional_octets(alloc, fields, tags::REFERENCE_ID);
    let dbs = required_databases(alloc, fields, tags::SCAN_DATABASE_NAMES);
    let ask = ask_in(alloc, fields);
    let (ref_id, (dbs, ask)) = both(ref_id, both(dbs, ask))?;
    Ok(Scan { ref_id, dbs, ask })
}
