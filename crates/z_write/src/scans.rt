//! The answers to Scans in their written form (ANSI/NISO Z39.50-2003, ScanResponse and ListEntries).

ghost use Rattle.std.specs.Prelude.{◌≡◌, List, ◌++◌, length, IfOk, OnOk, OnErr};
ghost use Rattle.std.specs.List.{flat_map};
ghost use Rattle.unit_forms.specs.Fields.{number_field, tree_field};
ghost use Rattle.unit_forms.specs.Replies.{term_info_fields, entry_octets, list_entries_field, scan_diags_field, list_entries, scan_reply_fields};
ghost use Rattle.unit_forms.specs.Tags.{scan_response, scan_entries, number_of_entries_returned};
ghost use Rattle.z_write.specs.Kept.{StillBegins};

use crate::fields::{
    integer_len, number_len, optional_number_len, put_header, put_integer, put_number,
    put_optional_number, put_ref_id, ref_id_len,
};
use crate::lengths::{element_len, sum_of};
use crate::queries::{put_term, term_len};
use crate::records::{diags_len, put_diags};
use unit_forms::tags;
use z_ber::Tag;
use z_types::{Diag, List, Memory, ScanAnswer, ScanEntry, Text};

/// A term and in how many records it stands.
#[tactic(auto, using(crate::proofs::KeptFront::kept_on))]
fn put_term_info(out: &mut Text, entry: &ScanEntry) -> Result<(), Memory>
    ensures ok { OnOk result (out.new ≡ out.old ++ term_info_fields entry.now) }
    ensures err { OnErr result (StillBegins out.old out.new) }
{
    put_term(out, &entry.term)?;
    put_optional_number(out, tags::GLOBAL_OCCURRENCES, entry.occurrences)
}

fn term_info_len(entry: &ScanEntry) -> Result<usize, Memory>
    ensures { IfOk result (λ len. len ≡ length (term_info_fields entry.now)) }
{
    sum_of(&[
        term_len(&entry.term)?,
        optional_number_len(tags::GLOBAL_OCCURRENCES, entry.occurrences)?,
    ])
}

/// An entry.
#[tactic(auto, using(crate::proofs::KeptFront::kept_on), unfolding(unit_forms::specs::Replies::entry_octets))]
fn put_entry(out: &mut Text, entry: &ScanEntry) -> Result<(), Memory>
    ensures ok { OnOk result (out.new ≡ out.old ++ entry_octets entry.now) }
    ensures err { OnErr result (StillBegins out.old out.new) }
{
    put_header(
        out,
        Tag::constructed_context(tags::TERM_INFO),
        term_info_len(entry)?,
    )?;
    put_term_info(out, entry)
}

#[tactic(auto, unfolding(unit_forms::specs::Replies::entry_octets))]
fn entry_len(entry: &ScanEntry) -> Result<usize, Memory>
    ensures { IfOk result (λ len. len ≡ length (entry_octets entry.now)) }
{
    element_len(
        Tag::constructed_context(tags::TERM_INFO),
        term_info_len(entry)?,
    )
}

/// Entries one after another.
fn put_entries(out: &mut Text, entries: &[ScanEntry]) -> Result<(), Memory>
    ensures ok { OnOk result (out.new ≡ out.old ++ flat_map entry_octets entries.now) }
    ensures err { OnErr result (StillBegins out.old out.new) }
{
    for entry in entries {
        put_entry(out, entry)?;
    }
    Ok(())
}

fn entries_len(entries: &[ScanEntry]) -> Result<usize, Memory>
    ensures { IfOk result (λ len. len ≡ length (flat_map entry_octets entries.now)) }
{
    let mut len = 0;
    for entry in entries {
        len = sum_of(&[len, entry_len(entry)?])?;
    }
    Ok(len)
}

/// The entries, which are left out where there are none beside diagnostics.
#[tactic(auto, using(crate::proofs::KeptFront::kept_on))]
fn put_list_entries(out: &mut Text, entries: &[ScanEntry], diags: &[Diag]) -> Result<(), Memory>
    ensures ok { OnOk result (out.new ≡ out.old ++ list_entries_field entries.now diags.now) }
    ensures err { OnErr result (StillBegins out.old out.new) }
{
    if entries.is_empty() && !diags.is_empty() {
        return Ok(());
    }
    put_header(
        out,
        Tag::constructed_context(tags::LIST_ENTRIES),
        entries_len(entries)?,
    )?;
    put_entries(out, entries)
}

fn list_entries_len(entries: &[ScanEntry], diags: &[Diag]) -> Result<usize, Memory>
    ensures { IfOk result (λ len. len ≡ length (list_entries_field entries.now diags.now)) }
{
    if entries.is_empty() && !diags.is_empty() {
        return Ok(0);
    }
    element_len(
        Tag::constructed_context(tags::LIST_ENTRIES),
        entries_len(entries)?,
    )
}

/// The diagnostics, where there are some.
#[tactic(auto, using(crate::proofs::KeptFront::kept_on))]
fn put_scan_diags(out: &mut Text, diags: &[Diag]) -> Result<(), Memory>
    ensures ok { OnOk result (out.new ≡ out.old ++ scan_diags_field diags.now) }
    ensures err { OnErr result (StillBegins out.old out.new) }
{
    if diags.is_empty() {
        return Ok(());
    }
    let tag = Tag::constructed_context(tags::NONSURROGATE_DIAGNOSTICS);
    put_header(out, tag, diags_len(diags)?)?;
    put_diags(out, diags)
}

fn scan_diags_len(diags: &[Diag]) -> Result<usize, Memory>
    ensures { IfOk result (λ len. len ≡ length (scan_diags_field diags.now)) }
{
    if diags.is_empty() {
        return Ok(0);
    }
    let tag = Tag::constructed_context(tags::NONSURROGATE_DIAGNOSTICS);
    element_len(tag, diags_len(diags)?)
}

/// Entries and diagnostics.
#[tactic(auto, using(crate::proofs::KeptFront::kept_on), unfolding(unit_forms::specs::Replies::list_entries))]
fn put_listed(out: &mut Text, entries: &[ScanEntry], diags: &[Diag]) -> Result<(), Memory>
    ensures ok { OnOk result (out.new ≡ out.old ++ list_entries entries.now diags.now) }
    ensures err { OnErr result (StillBegins out.old out.new) }
{
    put_list_entries(out, entries, diags)?;
    put_scan_diags(out, diags)
}

#[tactic(auto, unfolding(unit_forms::specs::Replies::list_entries))]
fn listed_len(entries: &[ScanEntry], diags: &[Diag]) -> Result<usize, Memory>
    ensures { IfOk result (λ len. len ≡ length (list_entries entries.now diags.now)) }
{
    sum_of(&[list_entries_len(entries, diags)?, scan_diags_len(diags)?])
}

/// How many entries there are.
fn put_entries_returned(out: &mut Text, entries: &[ScanEntry]) -> Result<(), Memory>
    ensures ok { OnOk result (out.new ≡ out.old
        ++ number_field number_of_entries_returned (length entries.now)) }
    ensures err { OnErr result (StillBegins out.old out.new) }
{
    put_integer(out, tags::NUMBER_OF_ENTRIES_RETURNED, entries.len() as i64)
}

fn entries_returned_len(entries: &[ScanEntry]) -> Result<usize, Memory>
    ensures { IfOk result (λ len. len ≡
        length (number_field number_of_entries_returned (length entries.now))) }
{
    integer_len(tags::NUMBER_OF_ENTRIES_RETURNED, entries.len() as i64)
}

/// Entries and diagnostics, with their tag.
#[tactic(auto, using(crate::proofs::KeptFront::kept_on))]
fn put_scan_entries(out: &mut Text, entries: &[ScanEntry], diags: &[Diag]) -> Result<(), Memory>
    ensures ok { OnOk result (out.new ≡ out.old
        ++ tree_field scan_entries (list_entries entries.now diags.now)) }
    ensures err { OnErr result (StillBegins out.old out.new) }
{
    put_header(
        out,
        Tag::constructed_context(tags::SCAN_ENTRIES),
        listed_len(entries, diags)?,
    )?;
    put_listed(out, entries, diags)
}

fn scan_entries_len(entries: &[ScanEntry], diags: &[Diag]) -> Result<usize, Memory>
    ensures { IfOk result (λ len. len ≡
        length (tree_field scan_entries (list_entries entries.now diags.now))) }
{
    element_len(
        Tag::constructed_context(tags::SCAN_ENTRIES),
        listed_len(entries, diags)?,
    )
}

/// The fields of the answer to a Scan.
#[tactic(auto, using(crate::proofs::KeptFront::kept_on), unfolding(unit_forms::specs::Replies::scan_reply_fields))]
fn put_scan_reply_fields(
    out: &mut Text,
    ref_id: &Option<Text>,
    status: u32,
    answer: &ScanAnswer,
    diags: &List<Diag>,
) -> Result<(), Memory>
    ensures ok { OnOk result (out.new ≡ out.old
        ++ scan_reply_fields ref_id.now status answer.now diags.now) }
    ensures err { OnErr result (StillBegins out.old out.new) }
{
    put_ref_id(out, ref_id)?;
    put_number(out, tags::SCAN_STATUS, status)?;
    put_entries_returned(out, answer.entries.as_slice())?;
    put_optional_number(out, tags::POSITION_OF_TERM, answer.position)?;
    put_scan_entries(out, answer.entries.as_slice(), diags.as_slice())
}

#[tactic(auto, unfolding(unit_forms::specs::Replies::scan_reply_fields))]
fn scan_reply_fields_len(
    ref_id: &Option<Text>,
    status: u32,
    answer: &ScanAnswer,
    diags: &List<Diag>,
) -> Result<usize, Memory>
    ensures { IfOk result (λ len. len ≡
        length (scan_reply_fields ref_id.now status answer.now diags.now)) }
{
    sum_of(&[
        ref_id_len(ref_id)?,
        number_len(tags::SCAN_STATUS, status)?,
        entries_returned_len(answer.entries.as_slice())?,
        optional_number_len(tags::POSITION_OF_TERM, answer.position)?,
        scan_entries_len(answer.entries.as_slice(), diags.as_slice())?,
    ])
}

/// The answer to a Scan.
#[tactic(auto, using(crate::proofs::KeptFront::kept_on))]
pub(crate) fn put_scan_reply(
    out: &mut Text,
    ref_id: &Option<Text>,
    status: u32,
    answer: &ScanAnswer,
    diags: &List<Diag>,
) -> Result<(), Memory>
    ensures ok { OnOk result (out.new ≡ out.old
        ++ tree_field scan_response (scan_reply_fields ref_id.now status answer.now diags.now)) }
    ensures err { OnErr result (StillBegins out.old out.new) }
{
    let len = scan_reply_fields_len(ref_id, status, answer, diags)?;
    put_header(out, Tag::constructed_context(tags::SCAN_RESPONSE), len)?;
    put_scan_reply_fields(out, ref_id, status, answer, diags)
}
