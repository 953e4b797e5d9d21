//! Replies (ANSI/NISO Z39.50-2003, InitializeResponse, SearchResponse, PresentResponse, ScanResponse).

ghost use Rattle.std.specs.Prelude.{◌≡◌};
ghost use Rattle.unit_forms.specs.Tags as numbers;
ghost use Rattle.unit_forms.specs.Reading.Attributes.{term_choice};
ghost use Rattle.unit_forms.specs.Reading.Rows.{required_of, optional, within};
ghost use Rattle.unit_forms.specs.Reading.Records.{diags_in};
ghost use Rattle.unit_forms.specs.Reading.Responses.{init_reply_in, counts_in, found_in, search_reply_in, returned_in, presented_in, present_reply_in, entry_term_of, entry_in, entries_in, or_empty, listed_in, listed_or_nothing, listing_in, scanned_in, scan_reply_in};
ghost use Rattle.z_fields.specs.Answers.{IsOrMemory};

use crate::attributes::term_choice;
use crate::each::{Part, read_each};
use crate::init_request::{as_init, shared_in};
use crate::records::{body_in, diags_of};
use std::alloc::Global;
use unit_forms::tags;
use z_fields::{
    Field, FieldFault, Fields, both, context, integer_of, octets_of, optional_number,
    optional_octets, required_flag, required_number,
};
use z_types::{Body, Diag, List, Reply, ScanAnswer, ScanEntry, Term, Text};

/// The InitializeResponse of these fields.
#[tactic(auto, using(z_fields::proofs::AnswerLemmas::rows), unfolding(unit_forms::specs::Reading::Responses::init_reply_in, unit_forms::specs::Reading::InitRequest::init_response_in))]
pub fn init_reply_in(alloc: Global, fields: &Fields<'_>) -> Result<Reply, FieldFault>
    ensures { IsOrMemory (init_reply_in fields.now) result }
{
    let shared = shared_in(alloc, fields);
    let (shared, result) = both(shared, required_flag(fields, tags::INIT_RESULT))?;
    Ok(Reply::Init {
        init: as_init(shared, None),
        result,
    })
}

/// The referenceId, the count, how many records are returned, and the next position.
type Counts = (Option<Text>, (u32, (u32, u32)));

/// The numbers of a SearchResponse.
#[tactic(auto, using(z_fields::proofs::AnswerLemmas::rows), unfolding(unit_forms::specs::Reading::Responses::counts_in))]
fn counts_in(alloc: Global, fields: &Fields<'_>) -> Result<Counts, FieldFault>
    ensures { IsOrMemory (counts_in fields.now) result }
{
    let ref_id = optional_octets(alloc, fields, tags::REFERENCE_ID);
    let count = required_number(fields, tags::RESULT_COUNT);
    let returned = required_number(fields, tags::NUMBER_OF_RECORDS_RETURNED);
    let next = required_number(fields, tags::NEXT_RESULT_SET_POSITION);
    both(ref_id, both(count, both(returned, next)))
}

/// The status and the records of a SearchResponse.
#[tactic(auto, using(z_fields::proofs::AnswerLemmas::rows), unfolding(unit_forms::specs::Reading::Responses::found_in))]
fn found_in(alloc: Global, fields: &Fields<'_>) -> Result<(bool, (Option<u32>, Body)), FieldFault>
    ensures { IsOrMemory (found_in fields.now) result }
{
    let ok = required_flag(fields, tags::SEARCH_STATUS);
    let status = optional_number(fields, tags::PRESENT_STATUS);
    let body = body_in(alloc, fields);
    both(ok, both(status, body))
}

/// The SearchResponse of these fields.
#[tactic(auto, using(z_fields::proofs::AnswerLemmas::rows), unfolding(unit_forms::specs::Reading::Responses::search_reply_in))]
pub fn search_reply_in(alloc: Global, fields: &Fields<'_>) -> Result<Reply, FieldFault>
    ensures { IsOrMemory (search_reply_in fields.now) result }
{
    let counts = counts_in(alloc, fields);
    let found = found_in(alloc, fields);
    let ((ref_id, (count, (returned, next))), (ok, (status, body))) = both(counts, found)?;
    Ok(Reply::Search {
        ref_id,
        count,
        returned,
        next,
        ok,
        status,
        body,
    })
}

/// The referenceId, how many records are returned, and the next position.
#[tactic(auto, using(z_fields::proofs::AnswerLemmas::rows), unfolding(unit_forms::specs::Reading::Responses::returned_in))]
fn returned_in(alloc: Global, fields: &Fields<'_>) -> Result<(Option<Text>, (u32, u32)), FieldFault>
    ensures { IsOrMemory (returned_in fields.now) result }
{
    let ref_id = optional_octets(alloc, fields, tags::REFERENCE_ID);
    let returned = required_number(fields, tags::NUMBER_OF_RECORDS_RETURNED);
    let next = required_number(fields, tags::NEXT_RESULT_SET_POSITION);
    both(ref_id, both(returned, next))
}

/// The status and the records of a PresentResponse.
#[tactic(auto, using(z_fields::proofs::AnswerLemmas::rows), unfolding(unit_forms::specs::Reading::Responses::presented_in))]
fn presented_in(alloc: Global, fields: &Fields<'_>) -> Result<(u32, Body), FieldFault>
    ensures { IsOrMemory (presented_in fields.now) result }
{
    let status = required_number(fields, tags::PRESENT_STATUS);
    let body = body_in(alloc, fields);
    both(status, body)
}

/// The PresentResponse of these fields.
#[tactic(auto, using(z_fields::proofs::AnswerLemmas::rows), unfolding(unit_forms::specs::Reading::Responses::present_reply_in))]
pub fn present_reply_in(alloc: Global, fields: &Fields<'_>) -> Result<Reply, FieldFault>
    ensures { IsOrMemory (present_reply_in fields.now) result }
{
    let returned = returned_in(alloc, fields);
    let presented = presented_in(alloc, fields);
    let ((ref_id, (returned, next)), (status, body)) = both(returned, presented)?;
    Ok(Reply::Present {
        ref_id,
        returned,
        next,
        status,
        body,
    })
}

/// The term of an entry; forms that are not read are left out.
fn entry_term_of(alloc: Global, field: &Field<'_>) -> Result<Term, FieldFault>
    ensures { IsOrMemory (entry_term_of field.now) result }
{
    let number = field.tag().number;
    if number == tags::GENERAL_TERM {
        return Ok(Term::General(octets_of(alloc, field)?));
    }
    if number == tags::NUMERIC_TERM {
        return Ok(Term::Number(integer_of(field)?));
    }
    if number == tags::CHARACTER_STRING_TERM {
        return Ok(Term::Words(octets_of(alloc, field)?));
    }
    Err(FieldFault::left_out(number))
}

/// The term of an entry, which has to be there.
fn required_entry_term(alloc: Global, fields: &Fields<'_>) -> Result<Term, FieldFault>
    ensures { IsOrMemory
        (required_of numbers.general_term term_choice entry_term_of fields.now) result }
{
    match fields.first_of(&term_choice()) {
        Some(field) => entry_term_of(alloc, &field),
        None => Err(FieldFault::missing(tags::GENERAL_TERM)),
    }
}

/// The entry of these fields.
#[tactic(auto, using(z_fields::proofs::AnswerLemmas::rows), unfolding(unit_forms::specs::Reading::Responses::entry_in))]
fn entry_in(alloc: Global, fields: &Fields<'_>) -> Result<ScanEntry, FieldFault>
    ensures { IsOrMemory (entry_in fields.now) result }
{
    let term = required_entry_term(alloc, fields);
    let occurrences = optional_number(fields, tags::GLOBAL_OCCURRENCES);
    let (term, occurrences) = both(term, occurrences)?;
    Ok(ScanEntry { term, occurrences })
}

impl Part for ScanEntry {
    ghost use Rattle.unit_forms.specs.Reading.Responses.{entry_of as entry_of_field};

    ghost reading = { entry_of_field };

    fn read(alloc: Global, field: &Field<'_>) -> Result<ScanEntry, FieldFault> {
        let tag = field.tag();
        if tag.constructed {
            entry_in(alloc, &Fields::of(alloc, field))
        } else {
            Err(FieldFault::bad_value(tag.number))
        }
    }
}

/// The entries of a list, where they are there.
#[tactic(auto, unfolding(unit_forms::specs::Reading::Responses::entries_in))]
fn optional_entries(
    alloc: Global,
    fields: &Fields<'_>,
) -> Result<Option<List<ScanEntry>>, FieldFault>
    ensures { IsOrMemory (optional numbers.list_entries (within entries_in) fields.now) result }
{
    let Some(field) = fields.first_of(&[context(tags::LIST_ENTRIES)]) else {
        return Ok(None);
    };
    if !field.tag().constructed {
        return Err(FieldFault::bad_value(field.tag().number));
    }
    Ok(Some(read_each(alloc, field.elements(), context(tags::TERM_INFO))?))
}

/// The diagnostics of a list, where they are there.
fn optional_diags(alloc: Global, fields: &Fields<'_>) -> Result<Option<List<Diag>>, FieldFault>
    ensures { IsOrMemory
        (optional numbers.nonsurrogate_diagnostics (within diags_in) fields.now) result }
{
    let Some(field) = fields.first_of(&[context(tags::NONSURROGATE_DIAGNOSTICS)]) else {
        return Ok(None);
    };
    Ok(Some(diags_of(alloc, &field)?))
}

/// The items, or none where there is no list.
fn or_empty<T: Drop>(alloc: Global, items: Option<List<T>>) -> List<T>
    ensures { result ≡ or_empty items }
{
    match items {
        Some(items) => items,
        None => List::new(alloc),
    }
}

/// The entries and the diagnostics of these fields.
#[tactic(auto, using(z_fields::proofs::AnswerLemmas::rows), unfolding(unit_forms::specs::Reading::Responses::listed_in))]
fn listed_in(
    alloc: Global,
    fields: &Fields<'_>,
) -> Result<(List<ScanEntry>, List<Diag>), FieldFault>
    ensures { IsOrMemory (listed_in fields.now) result }
{
    let entries = optional_entries(alloc, fields);
    let diags = optional_diags(alloc, fields);
    let (entries, diags) = both(entries, diags)?;
    Ok((or_empty(alloc, entries), or_empty(alloc, diags)))
}

/// What is listed, where something is.
fn optional_listed(
    alloc: Global,
    fields: &Fields<'_>,
) -> Result<Option<(List<ScanEntry>, List<Diag>)>, FieldFault>
    ensures { IsOrMemory (optional numbers.scan_entries (within listed_in) fields.now) result }
{
    let Some(field) = fields.first_of(&[context(tags::SCAN_ENTRIES)]) else {
        return Ok(None);
    };
    if !field.tag().constructed {
        return Err(FieldFault::bad_value(field.tag().number));
    }
    Ok(Some(listed_in(alloc, &Fields::of(alloc, &field))?))
}

/// What is listed, or nothing.
fn listed_or_nothing(
    alloc: Global,
    listed: Option<(List<ScanEntry>, List<Diag>)>,
) -> (List<ScanEntry>, List<Diag>)
    ensures { result ≡ listed_or_nothing listed }
{
    match listed {
        Some(listed) => listed,
        None => (List::new(alloc), List::new(alloc)),
    }
}

/// What is listed, or nothing where no list is there.
#[tactic(auto, unfolding(unit_forms::specs::Reading::Responses::listing_in))]
fn listing_in(
    alloc: Global,
    fields: &Fields<'_>,
) -> Result<(List<ScanEntry>, List<Diag>), FieldFault>
    ensures { IsOrMemory (listing_in fields.now) result }
{
    Ok(listed_or_nothing(alloc, optional_listed(alloc, fields)?))
}

/// The referenceId, the status and the number of entries of a ScanResponse.
#[tactic(auto, using(z_fields::proofs::AnswerLemmas::rows), unfolding(unit_forms::specs::Reading::Responses::scanned_in))]
fn scanned_in(alloc: Global, fields: &Fields<'_>) -> Result<(Option<Text>, (u32, u32)), FieldFault>
    ensures { IsOrMemory (scanned_in fields.now) result }
{
    let ref_id = optional_octets(alloc, fields, tags::REFERENCE_ID);
    let status = required_number(fields, tags::SCAN_STATUS);
    let number = required_number(fields, tags::NUMBER_OF_ENTRIES_RETURNED);
    both(ref_id, both(status, number))
}

/// The ScanResponse of these fields.
#[tactic(auto, using(z_fields::proofs::AnswerLemmas::rows), unfolding(unit_forms::specs::Reading::Responses::scan_reply_in))]
pub fn scan_reply_in(alloc: Global, fields: &Fields<'_>) -> Result<Reply, FieldFault>
    ensures { IsOrMemory (scan_reply_in fields.now) result }
{
    let scanned = scanned_in(alloc, fields);
    let position = optional_number(fields, tags::POSITION_OF_TERM);
    let listing = listing_in(alloc, fields);
    let ((ref_id, (status, _)), (position, (entries, diags))) = both(
        scanned,
        both(position, listing),
    )?;
    Ok(Reply::Scan {
        ref_id,
        status,
        answer: ScanAnswer { position, entries },
        diags,
    })
}
