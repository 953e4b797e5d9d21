//! What a Present asks, once its checks have passed (ANSI/NISO Z39.50-2003, 3.2.3.1).

ghost use Rattle.std.specs.Prelude.{◌≡◌, ◌<◌, ◌^◌, nat_abs, false, Some, All, IfOk};
ghost use Rattle.z_types.specs.MergedOrder as merged_order;
ghost use Rattle.unit_forms.specs.Logins.{IsLoginIf};
ghost use Rattle.z_sets.specs.Sets.{stored};
ghost use Rattle.limit_rules.specs.Limits.{are_too_many};
ghost use Rattle.gateway_rules.specs.Asking as asking;
ghost use Rattle.gateway_rules.specs.Checks.{element_check, is_out_of_range, is_too_long, number_check, present_checks, range_check};
ghost use Rattle.front_session.specs.Admitting.{hits_named};
ghost use Rattle.front_session.specs.Presents.{AnswersPresent, AnswersSet, MayFetch, fetch_work};
ghost use Rattle.front_session.specs.Refusals.{AnswersCheck, AnswersChecks, IsReady, client_with, due_of};
ghost use Rattle.front_session.specs.Sessions.{IsKeptSet};

use crate::asking::Asking;
use crate::check::{is_too_long, refuse_where, served_form};
use crate::limited::are_too_many;
use crate::refusal::Refusal;
use gateway_rules::{Agreement, present_reply};
use limit_rules::Spent;
use multi_merge::total;
use route_config::Route;
use std::alloc::Global;
use z_sets::find_set;
use z_types::{
    Asked, Condition, Diag, Fetched, KnownSet, Limits, List, Memory, Present, Text, Work, copy,
};

/// What a Present asks of the targets, the reply where it asks for no record, or why it fails.
pub(crate) fn present_due(
    alloc: Global,
    route: &Route,
    agreed: &Agreement,
    spent: &Spent,
    sets: &List<KnownSet>,
    present: &Present,
) -> Result<Asking, Refusal>
    requires login { IsLoginIf agreed.now.login }
    requires kept { All IsKeptSet sets.now }
    ensures due { AnswersPresent route.now agreed.now spent.now sets.now present.now result }
    ensures ready { IfOk result (IsReady spent.now) }
{
    let set = check_present(alloc, route, agreed, spent, sets, present)?;
    Ok(fetch_due(&route.parts().limits, agreed, spent, present, set)?)
}

/// The set that a Present names, where no check refuses.
fn check_present<'a>(
    alloc: Global,
    route: &Route,
    agreed: &Agreement,
    spent: &Spent,
    sets: &'a List<KnownSet>,
    present: &Present,
) -> Result<&'a KnownSet, Refusal>
    ensures { AnswersChecks (present_checks route.now
        (client_with agreed.now spent.now sets.now) present.now
        (hits_named sets.now present.now.set_name))
        (λ set. MayFetch route.now.limits spent.now sets.now present.now set.now) result }
{
    let element = served_form(&present.element)?;
    check_element(alloc, element)?;
    let set = check_set(alloc, sets, &present.set_name)?;
    check_range(alloc, present, set)?;
    check_number(alloc, &route.parts().limits, spent, present)?;
    Ok(set)
}

/// Refuses where the element set name of a Present is too long.
fn check_element(alloc: Global, element: &Option<Text>) -> Result<(), Refusal>
    ensures check { AnswersCheck (element_check (Asked.Good element.now)) result }
    ensures short { IfOk result (λ passed. is_too_long element.now ≡ false) }
{
    let is_long = is_too_long(element);
    refuse_where(alloc, is_long, Condition::ElementSetNameNotValid, b"long")
}

/// The set of a name, where there is one.
fn check_set<'a>(
    alloc: Global,
    sets: &'a List<KnownSet>,
    name: &Text,
) -> Result<&'a KnownSet, Refusal>
    ensures { AnswersSet sets.now name.now result }
{
    match find_set(sets, name.as_slice()) {
        Some(set) => Ok(set),
        None => {
            let name = copy(name)?;
            Err(Refusal::Refused(Diag::bib1(alloc, Condition::ResultSetDoesNotExist, name)?))
        }
    }
}

/// Refuses where records do not lie within their set.
fn check_range(alloc: Global, present: &Present, set: &KnownSet) -> Result<(), Refusal>
    ensures { AnswersCheck (range_check present.now (merged_order.total set.now.hits)) result }
{
    let is_out = is_out_of_range(present, total(set.hits.as_slice()));
    refuse_where(alloc, is_out, Condition::PresentRequestOutOfRange, b"")
}

/// Whether records do not lie within a result set of this count.
fn is_out_of_range(present: &Present, count: u32) -> bool
    ensures { result ≡ is_out_of_range present.now count }
{
    let behind = present.start.unsigned_abs() + u64::from(present.number);
    present.start < 1 || u64::from(count) < behind.saturating_sub(1)
}

/// Refuses where records are too many for one request, or after those that were given.
fn check_number(
    alloc: Global,
    limits: &Limits,
    spent: &Spent,
    present: &Present,
) -> Result<(), Refusal>
    ensures { AnswersCheck (number_check limits.now spent.now.records present.now) result }
{
    let is_beyond = are_too_many(limits, spent, present.number);
    refuse_where(alloc, is_beyond, Condition::TooManyRecordsRetrieved, b"")
}

/// What a Present asks of its set, or its reply where it asks for no record.
fn fetch_due(
    limits: &Limits,
    agreed: &Agreement,
    spent: &Spent,
    present: &Present,
    set: &KnownSet,
) -> Result<Asking, Memory>
    requires range { is_out_of_range present.now (merged_order.total set.now.hits) ≡ false }
    requires number { are_too_many limits.now spent.now.records present.now.number ≡ false }
    requires each { IsKeptSet set.now }
    requires login { IsLoginIf agreed.now.login }
    requires element { is_too_long (asking.element_of present.now.element) ≡ false }
    ensures due { IfOk result (λ due. due_of due
        ≡ asking.fetch_work agreed.now.login present.now set.now.hits
        (Some (stored set.now))) }
    ensures ready { IfOk result (IsReady spent.now) }
{
    let _most = limits.records;
    let _given = spent.records;
    if present.number == 0 {
        let reply = present_reply(present, set.hits.as_slice(), 0, Fetched::None)?;
        return Ok(Asking::AtOnce(reply));
    }
    Ok(Asking::Works(fetch_work(&agreed.login, present, set)?))
}

/// The work of a Present from its set, of a client with this login.
fn fetch_work(login: &Option<Text>, present: &Present, set: &KnownSet) -> Result<Work, Memory>
    requires { nat_abs present.now.start < 2 ^ 32 }
    ensures { IfOk result (λ work. work ≡ fetch_work login.now present.now set.now) }
{
    Ok(Work::Fetch {
        login: copy(login)?,
        legs: copy(&set.legs)?,
        query: copy(&set.query)?,
        hits: copy(&set.hits)?,
        first: present.start.unsigned_abs() as u32,
        count: present.number,
        syntax: copy(&present.syntax)?,
        element: element_of(&present.element)?,
    })
}

/// The element set name of a Present.
fn element_of(asked: &Asked<Option<Text>>) -> Result<Option<Text>, Memory>
    ensures { IfOk result (λ element. element ≡ asking.element_of asked.now) }
{
    match asked {
        Asked::Good(element) => copy(element),
        Asked::Bad(_) => Ok(None),
    }
}
