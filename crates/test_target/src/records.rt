//! The records of a test target.

ghost use Rattle.std.specs.Prelude.{◌≡◌, ◌||◌, ◌<◌, ◌≤◌, IfOk, length, codes};
ghost use Rattle.std.specs.Option.{option_copied};
ghost use Rattle.std.specs.Fmt.{decimal};
ghost use Rattle.z_types.specs.Bib1.{bib1};
ghost use Rattle.z_types.specs.declared.conditions.Condition.TheVariants.{ElementSetNameNotValid};
ghost use Rattle.gw_outside.specs.Targets.{AnswersAs};
ghost use Rattle.z_types.specs.Same.{is_same};
ghost use Rattle.test_target.specs.Syntaxes.{syntax_in, in_syntax};
ghost use Rattle.test_target.specs.Records.{full_text, text_in, shown_at, written, record_at, IsShort};

use crate::places::{Location, place_at};
use crate::syntaxes::{Syntax, in_syntax, syntax_in};
use gw_outside::TargetAnswer;
use std::alloc::Global;
use z_types::{Condition, Diag, Item, List, Memory, Oid, RpnQuery, Text, copy};

/// The record of the database `Default` that is a diagnostic.
const BROKEN_RECORD: u32 = 13;

/// The record at a position, counted from 1, in a syntax and an element set.
pub(crate) fn record_at(
    alloc: Global,
    target: u32,
    dbs: &List<Text>,
    query: &RpnQuery,
    position: u32,
    syntax: Option<&Oid>,
    element: Option<&Text>,
) -> TargetAnswer<Item>
    ensures { AnswersAs result
        (record_at target (record { dbs = dbs.now; query = query.now })
        position (option_copied syntax.entry) (option_copied element.entry)) }
{
    match place_at(alloc, target, dbs, query, position) {
        Ok(Some(place)) => written(alloc, target, &place, syntax, element),
        Ok(None) => TargetAnswer::refused(Diag::bib1(
            alloc,
            Condition::PresentRequestOutOfRange,
            Text::new(alloc),
        )),
        Err(_) => TargetAnswer::Memory,
    }
}

/// A record in a syntax and an element set, the syntax tested first.
fn written(
    alloc: Global,
    target: u32,
    place: &Location,
    syntax: Option<&Oid>,
    element: Option<&Text>,
) -> TargetAnswer<Item>
    requires { length place.now.name ≤ 7 }
    ensures { AnswersAs result
        (written place.now (syntax_in (option_copied syntax.entry))
        (text_in target place.now (option_copied element.entry))) }
{
    match syntax_in(alloc, syntax) {
        TargetAnswer::Good(syntax) => match text_in(alloc, target, place, element) {
            TargetAnswer::Good(text) => TargetAnswer::good(show(alloc, place, syntax, &text)),
            TargetAnswer::Refused(diag) => TargetAnswer::Refused(diag),
            TargetAnswer::Memory => TargetAnswer::Memory,
        },
        TargetAnswer::Refused(diag) => TargetAnswer::Refused(diag),
        TargetAnswer::Memory => TargetAnswer::Memory,
    }
}

/// The text of a record in an element set.
fn text_in(
    alloc: Global,
    target: u32,
    place: &Location,
    element: Option<&Text>,
) -> TargetAnswer<Text>
    requires { length place.now.name ≤ 7 }
    ensures text { AnswersAs result (text_in target place.now (option_copied element.entry)) }
    ensures short { IsShort result }
{
    let Some(element) = element else {
        return TargetAnswer::good(full_text(alloc, target, place));
    };
    if is_full(element) {
        TargetAnswer::good(full_text(alloc, target, place))
    } else if element.as_slice() == b"B".as_slice() {
        TargetAnswer::good(decimal(alloc, place.number))
    } else {
        TargetAnswer::refused(not_valid(alloc, element))
    }
}

/// Whether an element set has the full text.
fn is_full(element: &Text) -> bool
    ensures { result ≡ (is_same element.now (codes "F") || is_same element.now (codes "dc")) }
{
    element.as_slice() == b"F".as_slice() || element.as_slice() == b"dc".as_slice()
}

/// The diagnostic of an element set that there is not.
fn not_valid(alloc: Global, element: &Text) -> Result<Diag, Memory>
    ensures { IfOk result (λ diag. diag ≡ bib1 ElementSetNameNotValid element.now) }
{
    Diag::bib1(alloc, Condition::ElementSetNameNotValid, copy(element)?)
}

/// A number in decimal.
fn decimal(alloc: Global, number: u32) -> Result<Text, Memory>
    ensures text { IfOk result (λ text. text ≡ decimal number) }
    ensures short { IfOk result (λ text. length text ≤ 10) }
{
    Ok(Text::from_vec(format!(in alloc; "{number}")?.into_bytes()))
}

/// The full text of a record: the target, the database and the number.
fn full_text(alloc: Global, target: u32, place: &Location) -> Result<Text, Memory>
    requires { length place.now.name ≤ 7 }
    ensures text { IfOk result (λ text. text ≡ full_text target place.now) }
    ensures short { IfOk result (λ text. length text < 128) }
{
    let mut text = decimal(alloc, target)?;
    text.push(b'.')?;
    text.append(place.name.as_slice())?;
    text.push(b'.')?;
    text.append(decimal(alloc, place.number)?.as_slice())?;
    Ok(text)
}

/// A record in its form, or the diagnostic that stands in its place.
fn show(alloc: Global, place: &Location, syntax: Syntax, text: &Text) -> Result<Item, Memory>
    requires { length text.now < 128 }
    ensures { IfOk result (λ item. item ≡ shown_at place.now (in_syntax syntax text.now)) }
{
    if place.name.as_slice() == b"Default".as_slice() && place.number == BROKEN_RECORD {
        let addinfo = Text::copy_of(alloc, b"13")?;
        let diag = Diag::bib1(alloc, Condition::TemporarySystemError, addinfo)?;
        Ok(Item::Surrogate(diag))
    } else {
        in_syntax(alloc, syntax, text)
    }
}
