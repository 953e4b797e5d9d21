//! What a Search asks, once its checks have passed (ANSI/NISO Z39.50-2003, 3.2.2.1).

ghost use Rattle.std.specs.Prelude.{◌≡◌, ◌+◌, ◌<◌, ◌≤◌, ◌^◌, length, All, IfOk};
ghost use Rattle.z_types.specs.Numbers.{IfGood, QueryHasNumbers};
ghost use Rattle.unit_forms.specs.Logins.{IsLoginIf};
ghost use Rattle.z_sets.specs.Askable.{IsAskableQuery};
ghost use Rattle.z_sets.specs.Sets.{stored_set_named, without_hits};
ghost use Rattle.limit_rules.specs.Limits as limits_of;
ghost use Rattle.gateway_rules.specs.Checks.{elements_check, name_checks, search_checks, searches_check};
ghost use Rattle.front_session.specs.Refusals.{AnswersCheck, AnswersChecks, AnswersResult, IsReady, Passes, client_with};
ghost use Rattle.front_session.specs.Searches.{AnswersSearch, HasShortElements, IsNoExpansion, PassesChecks, expansion_of, search_work};
ghost use Rattle.front_session.specs.Sessions.{IsKeptSet};

use crate::asking::Asking;
use crate::check::{check_databases, is_too_long, refuse_where, served_form};
use crate::limited::{are_searches_spent, are_sets_full};
use crate::refusal::Refusal;
use gateway_rules::Agreement;
use limit_rules::{Spent, room};
use route_config::Route;
use std::alloc::Global;
use z_sets::{ExpandFault, expand, find_set};
use z_types::{
    Asked, Condition, Diag, KnownSet, Limits, List, Memory, RpnQuery, Search, Text, Work, copy,
};

/// What a Search asks of the targets, or why it fails.
pub(crate) fn search_due(
    alloc: Global,
    route: &Route,
    agreed: &Agreement,
    spent: &Spent,
    sets: &List<KnownSet>,
    search: &Search,
) -> Result<Asking, Refusal>
    requires login { IsLoginIf agreed.now.login }
    requires counted { spent.now.sets ≡ length sets.now }
    requires kept { All IsKeptSet sets.now }
    requires numbers { IfGood search.now.query QueryHasNumbers }
    ensures due { AnswersSearch route.now agreed.now spent.now sets.now search.now result }
    ensures ready { IfOk result (IsReady spent.now) }
{
    let legs = check_search(alloc, route, agreed, spent, sets, search)?;
    let query = expand_query(alloc, &search.query, &legs, sets)?;
    let room = room_left(&route.parts().limits, spent);
    Ok(Asking::Works(search_work(&agreed.login, search, legs, query, room)?))
}

/// The legs of a Search, where no check up to its query refuses.
fn check_search(
    alloc: Global,
    route: &Route,
    agreed: &Agreement,
    spent: &Spent,
    sets: &List<KnownSet>,
    search: &Search,
) -> Result<List<u32>, Refusal>
    requires counted { spent.now.sets ≡ length sets.now }
    ensures { AnswersChecks (search_checks route.now
        (client_with agreed.now spent.now sets.now) search.now)
        (PassesChecks route.now search.now) result }
{
    check_searches(alloc, &route.parts().limits, spent)?;
    let _query = served_form(&search.query)?;
    check_elements(alloc, search)?;
    let legs = check_databases(alloc, route, agreed.whose, &search.dbs)?;
    check_name(alloc, &route.parts().limits, spent, sets, search)?;
    Ok(legs)
}

/// Refuses where no Search may be asked after those that were.
fn check_searches(alloc: Global, limits: &Limits, spent: &Spent) -> Result<(), Refusal>
    ensures { AnswersCheck (searches_check limits.now spent.now.searches) result }
{
    let are_spent = are_searches_spent(limits, spent);
    refuse_where(alloc, are_spent, Condition::ResourcesExhausted, b"searches")
}

/// Refuses where an element set name is too long.
fn check_elements(alloc: Global, search: &Search) -> Result<(), Refusal>
    ensures check { AnswersCheck (elements_check search.now) result }
    ensures short { IfOk result (λ passed. HasShortElements search.now) }
{
    let is_long = is_too_long(&search.small_element) || is_too_long(&search.medium_element);
    refuse_where(alloc, is_long, Condition::ElementSetNameNotValid, b"long")
}

/// Refuses where the name of the result set is in use and is not to be replaced, or is one too many.
fn check_name(
    alloc: Global,
    limits: &Limits,
    spent: &Spent,
    sets: &List<KnownSet>,
    search: &Search,
) -> Result<(), Refusal>
    requires counted { spent.now.sets ≡ length sets.now }
    ensures { AnswersChecks (name_checks limits.now (stored_set_named search.now.set_name sets.now)
        (length (without_hits sets.now)) search.now) Passes result }
{
    let name = search.set_name.as_slice();
    let in_use = find_set(sets, name).is_some();
    let is_kept = in_use && !search.replace;
    refuse_where(alloc, is_kept, Condition::ResultSetExists, name)?;
    let is_beyond = !in_use && are_sets_full(limits, spent);
    refuse_where(alloc, is_beyond, Condition::TooManyResultSets, b"")
}

/// A query with the client's result sets in place of its operands, or why there is none.
fn expand_query(
    alloc: Global,
    query: &Asked<RpnQuery>,
    legs: &List<u32>,
    sets: &List<KnownSet>,
) -> Result<RpnQuery, Refusal>
    requires kept { All IsKeptSet sets.now }
    requires numbers { IfGood query.now QueryHasNumbers }
    ensures expansion { AnswersResult
        (expansion_of query.now legs.now (without_hits sets.now)) result }
    ensures askable { IfOk result IsAskableQuery }
{
    let query = served_form(query)?;
    match expand(alloc, query, legs, sets) {
        Ok(query) => Ok(query),
        Err(fault) => Err(no_expansion(alloc, fault)?),
    }
}

/// Why a query has no expansion, as a diagnostic.
fn no_expansion(alloc: Global, fault: ExpandFault) -> Result<Refusal, Memory>
    ensures { IfOk result (IsNoExpansion fault) }
{
    let (condition, addinfo) = match fault {
        ExpandFault::UnknownSet(name) => (Condition::ResultSetDoesNotExist, name),
        ExpandFault::OtherLegs(name) => { (Condition::CombinationOfDatabasesNotSupported, name) }
        ExpandFault::Memory => return Ok(Refusal::Memory),
        _ => (
            Condition::ResourcesExhausted,
            Text::copy_of(alloc, b"query")?,
        ),
    };
    Ok(Refusal::Refused(Diag::bib1(alloc, condition, addinfo)?))
}

/// How many records a client may have at its next request.
fn room_left(limits: &Limits, spent: &Spent) -> u32
    ensures room { result ≡ limits_of.room limits.now spent.now.records }
    ensures few { result ≤ limits_of.most_records }
    ensures fits { spent.now.records + result < 2 ^ 32 }
{
    let _most = limits.records;
    let given = spent.records;
    room(limits, given)
}

/// The work of a Search over these legs, of a client with this login.
fn search_work(
    login: &Option<Text>,
    search: &Search,
    legs: List<u32>,
    query: RpnQuery,
    room: u32,
) -> Result<Work, Memory>
    ensures { IfOk result (λ work. work ≡ search_work login.now search.now legs query room) }
{
    Ok(Work::Search {
        login: copy(login)?,
        legs,
        query,
        small: search.small,
        large: search.large,
        medium: search.medium,
        small_element: copy(&search.small_element)?,
        medium_element: copy(&search.medium_element)?,
        syntax: copy(&search.syntax)?,
        room,
    })
}
