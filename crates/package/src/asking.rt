//! The legs that a work asks.

ghost use Rattle.std.specs.Prelude.{◌≡◌, ◌+◌, ◌<◌, ◌≤◌, [], ◌∷◌, All, IfOk, IfSome, length, map};
ghost use Rattle.std.specs.Option.{option_copied};
ghost use Rattle.z_types.specs.Bounds.{most_legs, most_number};
ghost use Rattle.z_types.specs.MergedOrder as merged_order;
ghost use Rattle.unit_forms.specs.Logins.{IsLoginIf};
ghost use Rattle.gw_outside.specs.Asks.{AreFewShort, IsShort, MayScan, MaySearch};
ghost use Rattle.z_sets.specs.Askable.{IsAskableQuery};
ghost use Rattle.gateway_rules.specs.Outcomes.{places_from};
ghost use Rattle.gateway_rules.specs.Works.{CanBegin, IsAskable};
ghost use Rattle.leg.specs.Terms.{databases_of};
ghost use Rattle.leg.specs.declared.tasks.Task.TheVariants.{Scan};
ghost use Rattle.package_rules.specs.Asked.{all_records_asked, first_asked, hits_asked, key_at, records_asked, then_asked};
ghost use Rattle.package_rules.specs.Planned.{AreThere, legs_named, then_asked_by};
ghost use Rattle.package_rules.specs.steps.Spans.{IsSpanOf};
ghost use Rattle.package.specs.steps.Kinds.{IsSearch};
ghost use Rattle.package.specs.steps.Packages.{AreDone, answers_of, asked_of, begun};

use crate::records::Wanted;
use crate::said::{all_hits, first_mark};
use crate::shown::element_shown;
use gw_outside::TargetAnswer;
use leg::{Job, Leg, LegAsk};
use multi_merge::total;
use package_rules::{Span, spans_of};
use route_config::Route;
use std::alloc::Global;
use z_types::{
    Exact, List, Memory, RpnQuery, ScanAsk, SetKey, Sitting, Text, Work, World, copy, shown_count,
};

/// The databases that a leg is at its target.
fn databases_of(route: &Route, leg: u32) -> &List<Text>
    requires { leg < length route.now.legs }
    ensures dbs { result.now ≡ databases_of route.now leg }
    ensures few { AreFewShort (databases_of route.now leg) }
{
    &route.parts().legs.as_slice()[leg as usize].databases
}

/// A query at a leg.
fn key_at(route: &Route, leg: u32, query: &RpnQuery) -> Result<SetKey, Memory>
    requires there { leg < length route.now.legs }
    requires askable { IsAskableQuery query.now }
    ensures key { IfOk result (λ key. key ≡ key_at route.now leg query.now) }
    ensures may { MaySearch [] (key_at route.now leg query.now) }
{
    let dbs = copy(databases_of(route, leg))?;
    let query = copy(query)?;
    Ok(SetKey { dbs, query })
}

/// A leg for the hits of a query.
fn hits_leg<W: World, S: Sitting<W>>(
    route: &Route,
    login: &Option<Text>,
    query: &RpnQuery,
    leg: u32,
) -> Result<Leg<W, S>, Memory>
    requires there { leg < length route.now.legs }
    requires askable { IsAskableQuery query.now }
    requires login { IsLoginIf login.now }
    ensures { IfOk result (λ made. made ≡ begun (hits_asked route.now login.now query.now leg)) }
{
    let key = key_at(route, leg, query)?;
    let login = copy(login)?;
    Ok(Leg::new(LegAsk {
        leg,
        login,
        key: Some(key),
        job: Job::Hits,
    }))
}

/// Legs for the hits of a query, in the order of the legs that a work names.
fn hits_legs<W: World, S: Sitting<W>>(
    alloc: Global,
    route: &Route,
    login: &Option<Text>,
    query: &RpnQuery,
    legs: &List<u32>,
) -> Result<Vec<Leg<W, S>>, Memory>
    requires there { All (λ leg. leg < length route.now.legs) legs.now }
    requires askable { IsAskableQuery query.now }
    requires login { IsLoginIf login.now }
    ensures { IfOk result (λ made. made.items
        ≡ map begun (map (hits_asked route.now login.now query.now) legs.now)) }
{
    let mut made = Vec::new(alloc);
    for leg in legs.as_slice() {
        made.push(hits_leg(route, login, query, *leg)?)?;
    }
    Ok(made)
}

/// A copy, where there is something.
fn copy_if<T: Exact>(some: Option<&T>) -> Result<Option<T>, Memory>
    ensures { IfOk result (λ copied. copied ≡ option_copied some.entry) }
{
    match some {
        Some(value) => Ok(Some(copy(value)?)),
        None => Ok(None),
    }
}

/// A leg for the records of a span.
fn records_leg<W: World, S: Sitting<W>>(
    route: &Route,
    wanted: Wanted,
    span: Span,
) -> Result<Leg<W, S>, Memory>
    requires there { All (λ leg. leg < length route.now.legs) wanted.legs.now }
    requires askable { IsAskableQuery wanted.query.now }
    requires short { IfSome (option_copied wanted.element) IsShort }
    requires login { IsLoginIf wanted.login.now }
    requires span { IsSpanOf (length wanted.legs.now) (most_number + 1) span }
    ensures { IfOk result (λ made. made ≡ begun (records_asked route.now
        wanted.entry.login.now wanted.entry.legs.now wanted.entry.query.now
        (option_copied wanted.entry.syntax) (option_copied wanted.entry.element) span)) }
{
    let leg = wanted.legs.as_slice()[span.leg as usize];
    let key = key_at(route, leg, wanted.query)?;
    let syntax = copy_if(wanted.syntax)?;
    let element = copy_if(wanted.element)?;
    let login = copy(wanted.login)?;
    Ok(Leg::new(LegAsk {
        leg,
        login,
        key: Some(key),
        job: Job::Records {
            first: span.first,
            count: span.count,
            syntax,
            element,
        },
    }))
}

/// Legs for the `count` records from a position on, counted from 1, of legs with these hits.
pub(crate) fn record_legs<W: World, S: Sitting<W>>(
    alloc: Global,
    route: &Route,
    wanted: Wanted,
    hits: &List<u32>,
    first: u32,
    count: u32,
) -> Result<Vec<Leg<W, S>>, Memory>
    requires there { All (λ leg. leg < length route.now.legs) wanted.legs.now }
    requires askable { IsAskableQuery wanted.query.now }
    requires short { IfSome (option_copied wanted.element) IsShort }
    requires login { IsLoginIf wanted.login.now }
    requires few { length wanted.legs.now ≤ most_legs }
    requires each { length hits.now ≡ length wanted.legs.now }
    requires counted { 0 < first }
    requires within { first + count ≤ merged_order.total hits.now + 1 }
    ensures { IfOk result (λ made. made.items ≡ map begun (all_records_asked route.now
        wanted.entry.login.now wanted.entry.legs.now wanted.entry.query.now
        (option_copied wanted.entry.syntax) (option_copied wanted.entry.element)
        (places_from hits.now first count))) }
{
    let spans = spans_of(alloc, hits.as_slice(), first, count)?;
    let mut made = Vec::new(alloc);
    for span in spans.as_slice() {
        made.push(records_leg(route, wanted, *span)?)?;
    }
    Ok(made)
}

/// A leg for a scan.
fn scan_legs<W: World, S: Sitting<W>>(
    alloc: Global,
    login: &Option<Text>,
    leg: u32,
    ask: &ScanAsk,
) -> Result<Vec<Leg<W, S>>, Memory>
    requires may { MayScan [] ask.now }
    requires login { IsLoginIf login.now }
    ensures { IfOk result (λ made. made.items
        ≡ begun (record { leg = leg; login = login.now; task = Scan ask.now }) ∷ []) }
{
    let mut made = Vec::new(alloc);
    let login = copy(login)?;
    made.push(Leg::new(LegAsk {
        leg,
        login,
        key: None,
        job: Job::Scan(copy(ask)?),
    }))?;
    Ok(made)
}

/// The legs for what a work asks first.
pub(crate) fn first_legs<W: World, S: Sitting<W>>(
    alloc: Global,
    route: &Route,
    work: &Work,
) -> Result<Vec<Leg<W, S>>, Memory>
    requires there { AreThere route.now work.now }
    requires can_begin { CanBegin work.now }
    requires askable { IsAskable work.now }
    ensures { IfOk result (λ made. made.items ≡ map begun (first_asked route.now work.now)) }
{
    match work {
        Work::Search {
            login,
            legs,
            query,
            ..
        } => hits_legs(alloc, route, login, query, legs),
        Work::Fetch {
            login,
            legs,
            query,
            hits,
            first,
            count,
            syntax,
            element,
        } => {
            let wanted = Wanted {
                login,
                legs,
                query,
                syntax: syntax.as_ref(),
                element: element.as_ref(),
            };
            record_legs(alloc, route, wanted, hits, *first, *count)
        }
        Work::Scan { login, leg, ask } => scan_legs(alloc, login, *leg, ask),
    }
}

/// The legs for the records that a Search shows of these hits.
fn shown_legs<W: World, S: Sitting<W>>(
    alloc: Global,
    route: &Route,
    work: &Work,
    hits: &List<u32>,
) -> Result<Vec<Leg<W, S>>, Memory>
    requires kind { IsSearch work.now }
    requires there { AreThere route.now work.now }
    requires can_begin { CanBegin work.now }
    requires askable { IsAskable work.now }
    requires each { length hits.now ≡ length (legs_named work.now) }
    ensures { IfOk result
        (λ made. made.items ≡ map begun (then_asked route.now work.now hits.now)) }
{
    let Work::Search {
        login,
        legs,
        query,
        small,
        large,
        medium,
        small_element,
        medium_element,
        syntax,
        room,
    } = work
    else {
        unreachable!()
    };
    let all = total(hits.as_slice());
    let count = shown_count(all, *small, *large, *medium);
    if count == 0 {
        return Ok(Vec::new(alloc));
    }
    if *room < count {
        return Ok(Vec::new(alloc));
    }
    let wanted = Wanted {
        login,
        legs,
        query,
        syntax: syntax.as_ref(),
        element: element_shown(all, *small, small_element, medium_element),
    };
    record_legs(alloc, route, wanted, hits, 1, count)
}

/// The legs for what a Search asks then, by what its first legs answered, which are done.
fn search_legs<W: World, S: Sitting<W>>(
    alloc: Global,
    route: &Route,
    work: &Work,
    first: &[Leg<W, S>],
) -> Result<Vec<Leg<W, S>>, Memory>
    requires kind { IsSearch work.now }
    requires there { AreThere route.now work.now }
    requires can_begin { CanBegin work.now }
    requires askable { IsAskable work.now }
    requires asked { map asked_of first.now ≡ first_asked route.now work.now }
    requires done { AreDone first.now }
    ensures { IfOk result
        (λ made. made.items ≡ map begun (then_asked_by route.now work.now (answers_of first.now))) }
{
    if first_mark(first).is_some() {
        return Ok(Vec::new(alloc));
    }
    match all_hits(alloc, route, first) {
        TargetAnswer::Good(hits) => shown_legs(alloc, route, work, &hits),
        TargetAnswer::Refused(_diag) => Ok(Vec::new(alloc)),
        TargetAnswer::Memory => Err(Memory),
    }
}

/// The legs for what a work asks then, by what its first legs answered, which are done.
pub(crate) fn then_legs<W: World, S: Sitting<W>>(
    alloc: Global,
    route: &Route,
    work: &Work,
    first: &[Leg<W, S>],
) -> Result<Vec<Leg<W, S>>, Memory>
    requires there { AreThere route.now work.now }
    requires can_begin { CanBegin work.now }
    requires askable { IsAskable work.now }
    requires asked { map asked_of first.now ≡ first_asked route.now work.now }
    requires done { AreDone first.now }
    ensures { IfOk result
        (λ made. made.items ≡ map begun (then_asked_by route.now work.now (answers_of first.now))) }
{
    match work {
        Work::Search { .. } => search_legs(alloc, route, work, first),
        Work::Fetch { .. } => Ok(Vec::new(alloc)),
        Work::Scan { .. } => Ok(Vec::new(alloc)),
    }
}
