//! The checks that several requests have (ANSI/NISO Z39.50-2003, Appendix 4 ERR).

ghost use Rattle.std.specs.Prelude.{◌≡◌, IfOk};
ghost use Rattle.std.specs.Fmt.{decimal};
ghost use Rattle.z_types.specs.Bib1.{bib1};
ghost use Rattle.access_rules.specs.Denials.{first_denial};
ghost use Rattle.virt_db.specs.Legs.{few_legs, legs_among};
ghost use Rattle.gateway_rules.specs.Checks.{refused_where, is_too_long};
ghost use Rattle.front_session.specs.Refusals.{AnswersAsked, AnswersCheck, AnswersDatabases, AnswersFault, AnswersLegs, AnswersNames};

use crate::refusal::Refusal;
use access_rules::{Who, first_denial};
use route_config::Route;
use std::alloc::Global;
use virt_db::{DbFault, databases_of, legs_of};
use z_types::{Asked, Condition, Diag, List, MOST_NAME_OCTETS, Memory, Text, copy};

/// Refuses with the diagnostic of a condition where a test says so.
pub(crate) fn refuse_where(
    alloc: Global,
    test: bool,
    condition: Condition,
    addinfo: &[u8],
) -> Result<(), Refusal>
    ensures { AnswersCheck (refused_where test (bib1 condition addinfo.now)) result }
{
    if !test {
        return Ok(());
    }
    let addinfo = Text::copy_of(alloc, addinfo)?;
    Err(Refusal::Refused(Diag::bib1(alloc, condition, addinfo)?))
}

/// What is asked for, or the diagnostic of a form that is not served.
pub(crate) fn served_form<T>(asked: &Asked<T>) -> Result<&T, Refusal>
    ensures { AnswersAsked asked.now result }
{
    match asked {
        Asked::Good(asked) => Ok(asked),
        Asked::Bad(diag) => Err(Refusal::Refused(copy(diag)?)),
    }
}

/// Whether an element set name is too long.
pub(crate) fn is_too_long(name: &Option<Text>) -> bool
    ensures { result ≡ is_too_long name.now }
{
    match name {
        Some(name) => name.len() > MOST_NAME_OCTETS,
        None => false,
    }
}

/// The legs of databases: these are there, the client may search each of them, and their legs are
/// not too many.
pub(crate) fn check_databases(
    alloc: Global,
    route: &Route,
    who: Who,
    names: &List<Text>,
) -> Result<List<u32>, Refusal>
    ensures { AnswersDatabases route.now who names.now result }
{
    let databases = check_names(alloc, route, names)?;
    check_access(alloc, route, who, names)?;
    check_legs(alloc, route, &databases)
}

/// The databases of names: some, not too many, each of them there.
fn check_names(alloc: Global, route: &Route, names: &List<Text>) -> Result<List<Text>, Refusal>
    ensures { AnswersNames route.now names.now result }
{
    match databases_of(alloc, route, names) {
        Ok(databases) => Ok(databases),
        Err(fault) => Err(refusal_of(alloc, fault)),
    }
}

/// Refuses with the first database that the client may not search.
fn check_access(alloc: Global, route: &Route, who: Who, names: &List<Text>) -> Result<(), Refusal>
    ensures { AnswersCheck (first_denial route.now who names.now) result }
{
    match first_denial(alloc, route, who, names.as_slice())? {
        Some(diag) => Err(Refusal::Refused(diag)),
        None => Ok(()),
    }
}

/// The legs of databases, which are not too many.
fn check_legs(alloc: Global, route: &Route, databases: &List<Text>) -> Result<List<u32>, Refusal>
    ensures { AnswersLegs (few_legs (legs_among route.now databases.now)) result }
{
    match legs_of(alloc, route, databases) {
        Ok(legs) => Ok(legs),
        Err(fault) => Err(refusal_of(alloc, fault)),
    }
}

/// Why names stand for no databases or no legs, as a refusal.
fn refusal_of(alloc: Global, fault: DbFault) -> Refusal
    ensures { AnswersFault fault result }
{
    match diag_of(alloc, fault) {
        Ok(refusal) => refusal,
        Err(_) => Refusal::Memory,
    }
}

/// The same, where memory can be had for its diagnostic.
fn diag_of(alloc: Global, fault: DbFault) -> Result<Refusal, Memory>
    ensures { IfOk result (λ refusal. AnswersFault fault refusal) }
{
    match fault {
        DbFault::Unknown(name) => {
            let diag = Diag::bib1(alloc, Condition::DatabaseDoesNotExist, name)?;
            Ok(Refusal::Refused(diag))
        }
        DbFault::TooMany(count) => {
            let count = decimal(alloc, count)?;
            Ok(Refusal::Refused(Diag::bib1(alloc, Condition::TooManyDatabases, count)?))
        }
        DbFault::Memory => Ok(Refusal::Memory),
    }
}

/// A number in decimal.
fn decimal(alloc: Global, number: u64) -> Result<Text, Memory>
    ensures { IfOk result (λ text. text ≡ decimal number) }
{
    let text = format!(in alloc; "{number}")?;
    Text::copy_of(alloc, text.as_bytes())
}
