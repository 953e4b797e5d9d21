//! Diagnostics (ANSI/NISO Z39.50-2003, DefaultDiagFormat), and those of forms that are not served.

ghost use Rattle.std.specs.Prelude.{◌≡◌, [], ◌∷◌, IfOk};
ghost use Rattle.std.specs.Fmt.{decimal};
ghost use Rattle.unit_forms.specs.Tags as numbers;
ghost use Rattle.unit_forms.specs.Reading.Rows.{octets_of as octets_in_field, number_of as number_in_field, universal as universal_tag, required_of, required_universal};
ghost use Rattle.unit_forms.specs.Reading.Diagnostics.{diag_in, diag_of, other_query_type, other_form, proximity, specific_names, complex_composition, additional_ranges};
ghost use Rattle.z_fields.specs.Answers.{IsOrMemory, as_fault};

use crate::each::Part;
use std::alloc::Global;
use unit_forms::tags;
use z_fields::{Field, FieldFault, Fields, both, number_of, octets_of, required_oid, universal};
use z_types::{Condition, Diag, Memory, Text};

/// The condition of a diagnostic.
fn condition_in(fields: &Fields<'_>) -> Result<u32, FieldFault>
    ensures { result ≡ as_fault (required_universal numbers.integer number_in_field fields.now) }
{
    match fields.first_of(&[universal(tags::INTEGER)]) {
        Some(field) => number_of(&field),
        None => Err(FieldFault::missing(tags::INTEGER)),
    }
}

/// The additional information, a VisibleString or a GeneralString.
fn addinfo_in(alloc: Global, fields: &Fields<'_>) -> Result<Text, FieldFault>
    ensures { IsOrMemory (required_of numbers.general_string
        (universal_tag numbers.visible_string ∷ universal_tag numbers.general_string ∷ [])
        octets_in_field fields.now) result }
{
    match fields.first_of(&[
        universal(tags::VISIBLE_STRING),
        universal(tags::GENERAL_STRING),
    ]) {
        Some(field) => octets_of(alloc, &field),
        None => Err(FieldFault::missing(tags::GENERAL_STRING)),
    }
}

/// The diagnostic of these fields.
#[tactic(auto, using(z_fields::proofs::AnswerLemmas::rows), unfolding(unit_forms::specs::Reading::Diagnostics::diag_in))]
fn diag_in(alloc: Global, fields: &Fields<'_>) -> Result<Diag, FieldFault>
    ensures { IsOrMemory (diag_in fields.now) result }
{
    let set = required_oid(alloc, fields);
    let condition = condition_in(fields);
    let addinfo = addinfo_in(alloc, fields);
    let (set, (condition, addinfo)) = both(set, both(condition, addinfo))?;
    Ok(Diag {
        set,
        condition,
        addinfo,
    })
}

/// A diagnostic, in its own tag or another.
pub fn diag_of(alloc: Global, field: &Field<'_>) -> Result<Diag, FieldFault>
    ensures { IsOrMemory (diag_of field.now) result }
{
    let tag = field.tag();
    if tag.constructed {
        diag_in(alloc, &Fields::of(alloc, field))
    } else {
        Err(FieldFault::bad_value(tag.number))
    }
}

impl Part for Diag {
    ghost use Rattle.unit_forms.specs.Reading.Diagnostics.{diag_of as diag_of_field};

    ghost reading = { diag_of_field };

    fn read(alloc: Global, field: &Field<'_>) -> Result<Diag, FieldFault> {
        diag_of(alloc, field)
    }
}

/// The decimal text of a number.
fn decimal_text(alloc: Global, number: u32) -> Result<Text, Memory>
    ensures { IfOk result (λ text. text ≡ decimal number) }
{
    let text = format!(in alloc; "{number}")?;
    Ok(Text::from_vec(text.into_bytes()))
}

/// That a query is of another type than 1 and 101.
pub fn other_query_type(alloc: Global, number: u32) -> Result<Diag, Memory>
    ensures { IfOk result (λ diag. diag ≡ other_query_type number) }
{
    let addinfo = decimal_text(alloc, number)?;
    Diag::bib1(alloc, Condition::QueryTypeNotSupported, addinfo)
}

/// That an operand, a value or a term is of a form that is not served.
pub fn other_form(alloc: Global, number: u32) -> Result<Diag, Memory>
    ensures { IfOk result (λ diag. diag ≡ other_form number) }
{
    let addinfo = decimal_text(alloc, number)?;
    Diag::bib1(alloc, Condition::MalformedQuery, addinfo)
}

/// That an operator is prox.
pub fn proximity(alloc: Global) -> Result<Diag, Memory>
    ensures { IfOk result (λ diag. diag ≡ proximity) }
{
    let addinfo = Text::copy_of(alloc, b"prox")?;
    Diag::bib1(alloc, Condition::OperatorUnsupported, addinfo)
}

/// That element set names are told by database.
pub fn specific_names(alloc: Global) -> Result<Diag, Memory>
    ensures { IfOk result (λ diag. diag ≡ specific_names) }
{
    let addinfo = Text::copy_of(alloc, b"specific")?;
    Diag::bib1(alloc, Condition::ElementSetNameNotValid, addinfo)
}

/// That a composition is not simple.
pub fn complex_composition(alloc: Global) -> Result<Diag, Memory>
    ensures { IfOk result (λ diag. diag ≡ complex_composition) }
{
    let addinfo = Text::copy_of(alloc, b"complex")?;
    Diag::bib1(alloc, Condition::ElementSetNameNotValid, addinfo)
}

/// That there are additional ranges.
pub fn additional_ranges(alloc: Global) -> Result<Diag, Memory>
    ensures { IfOk result (λ diag. diag ≡ additional_ranges) }
{
    let addinfo = Text::copy_of(alloc, b"ranges")?;
    Diag::bib1(alloc, Condition::PresentRequestOutOfRange, addinfo)
}
