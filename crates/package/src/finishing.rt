//! What comes of a work by what its legs answered.

ghost use Rattle.std.specs.Prelude.{◌≡◌, ◌++◌, ◌≤◌, [], IfOk, IfSome, None, length, map};
ghost use Rattle.z_types.specs.Bounds.{most_legs};
ghost use Rattle.z_types.specs.MergedOrder as merged_order;
ghost use Rattle.z_types.specs.declared.outcome.Outcome.TheVariants.{Marked};
ghost use Rattle.gateway_rules.specs.Outcomes.{places_from, whole, within_room};
ghost use Rattle.gateway_rules.specs.Works.{CanBegin};
ghost use Rattle.leg.specs.Phases.{answered};
ghost use Rattle.package_rules.specs.Asked.{first_asked, spans_of};
ghost use Rattle.package_rules.specs.Planned.{then_asked_by};
ghost use Rattle.package_rules.specs.Said.{class_name, entries_said, fetches_of, outcome_said, records_said};
ghost use Rattle.package.specs.steps.Ends.{first_mark};
ghost use Rattle.package.specs.steps.Kinds.{IsFetch, IsSearch};
ghost use Rattle.package.specs.steps.Packages.{AreDone, HasFitting, answers_of, asked_of};

use crate::said::{all_hits, class_name, first_mark};
use crate::supplies::records_said;
use gw_outside::TargetAnswer;
use leg::{Leg, LegAnswer};
use multi_merge::total;
use route_config::Route;
use std::alloc::Global;
use z_types::{
    Condition, Diag, Fetched, List, Mark, Memory, Outcome, Sitting, Text, Work, World, shown_count,
};

/// The mark of the first leg that is marked, those for what is asked then behind the others, and the
/// leg's place in the route.
pub(crate) fn mark_among<W: World, S: Sitting<W>>(
    first: &[Leg<W, S>],
    later: &[Leg<W, S>],
) -> Option<(Mark, u32)>
    ensures { result ≡ first_mark (first.now ++ later.now) }
{
    match first_mark(first) {
        Some(found) => Some(found),
        None => first_mark(later),
    }
}

/// What comes of a request of which a leg is marked.
pub(crate) fn marked(alloc: Global, route: &Route, mark: Mark, leg: u32) -> Result<Outcome, Memory>
    ensures { IfOk result (λ outcome. outcome ≡ Marked mark (class_name route.now leg)) }
{
    let class = class_name(alloc, route, leg)?;
    Ok(Outcome::Marked { mark, class })
}

/// What is shown with a Search: nothing, or the diagnostic where it is more than there is room for, or
/// the records that the legs were handed.
fn shown<W: World, S: Sitting<W>>(
    alloc: Global,
    route: &Route,
    hits: &List<u32>,
    count: u32,
    room: u32,
    legs: Vec<Leg<W, S>>,
) -> Result<Fetched, Memory>
    requires done { AreDone legs.items }
    requires few { length hits.now ≤ most_legs }
    requires within { count ≤ merged_order.total hits.now }
    requires each { count ≤ room
        → length legs.items ≡ length (spans_of (length hits.now) (places_from hits.now 1 count)) }
    ensures { IfOk result (λ fetched. fetched
        ≡ within_room room count (whole (records_said route.now
        (fetches_of (length hits.now) (places_from hits.now 1 count) (answers_of legs.items))
        (places_from hits.now 1 count)))) }
{
    if count == 0 {
        return Ok(Fetched::None);
    }
    if room < count {
        let condition = Condition::TooManyRecordsRetrieved;
        return Ok(Fetched::Whole(Diag::bib1(alloc, condition, Text::new(alloc))?));
    }
    records_said(alloc, route, hits, 1, count, legs)
}

/// What comes of a Search of which no leg is marked.
fn found<W: World, S: Sitting<W>>(
    alloc: Global,
    route: &Route,
    work: &Work,
    first: Vec<Leg<W, S>>,
    later: Vec<Leg<W, S>>,
) -> Result<Outcome, Memory>
    requires kind { IsSearch work.now }
    requires can_begin { CanBegin work.now }
    requires unmarked { first_mark first.items ≡ None }
    requires first_done { AreDone first.items }
    requires later_done { AreDone later.items }
    requires at_first { map asked_of first.items ≡ first_asked route.now work.now }
    requires then { map asked_of later.items
        ≡ then_asked_by route.now work.now (answers_of first.items) }
    ensures { IfOk result (λ outcome. outcome
        ≡ outcome_said route.now work.now (answers_of first.items) (answers_of later.items)) }
{
    let Work::Search {
        small,
        large,
        medium,
        room,
        ..
    } = work
    else {
        unreachable!()
    };
    let hits = match all_hits(alloc, route, first.as_slice()) {
        TargetAnswer::Good(hits) => hits,
        TargetAnswer::Refused(diag) => return Ok(Outcome::Refused(diag)),
        TargetAnswer::Memory => return Err(Memory),
    };
    let count = shown_count(total(hits.as_slice()), *small, *large, *medium);
    let fetched = shown(alloc, route, &hits, count, *room, later)?;
    Ok(Outcome::Found { hits, fetched })
}

/// What comes of a fetch of which no leg is marked.
fn fetched<W: World, S: Sitting<W>>(
    alloc: Global,
    route: &Route,
    work: &Work,
    first: Vec<Leg<W, S>>,
) -> Result<Outcome, Memory>
    requires kind { IsFetch work.now }
    requires can_begin { CanBegin work.now }
    requires done { AreDone first.items }
    requires at_first { map asked_of first.items ≡ first_asked route.now work.now }
    ensures { IfOk result
        (λ outcome. outcome ≡ outcome_said route.now work.now (answers_of first.items) []) }
{
    let Work::Fetch {
        hits,
        first: from,
        count,
        ..
    } = work
    else {
        unreachable!()
    };
    let records = records_said(alloc, route, hits, *from, *count, first)?;
    Ok(Outcome::Fetched(records))
}

/// What comes of a scan whose leg is not marked.
fn scanned<W: World, S: Sitting<W>>(leg: Leg<W, S>) -> Outcome
    requires { HasFitting leg.task (answered leg.phase) }
    ensures { IfSome (answered leg.phase) (λ said. result ≡ entries_said said) }
{
    let (answer, _) = leg.answer();
    match answer {
        LegAnswer::Scanned(entries) => Outcome::Scanned(entries),
        LegAnswer::Refused(diag) => Outcome::Refused(diag),
        LegAnswer::Hits(_count) => Outcome::Fetched(Fetched::None),
        LegAnswer::Items(_items) => Outcome::Fetched(Fetched::None),
        LegAnswer::Broken(_items, _diag) => Outcome::Fetched(Fetched::None),
        LegAnswer::Marked(_mark) => Outcome::Fetched(Fetched::None),
    }
}

/// What comes of a work of which no leg is marked.
pub(crate) fn unmarked<W: World, S: Sitting<W>>(
    alloc: Global,
    route: &Route,
    work: &Work,
    mut first: Vec<Leg<W, S>>,
    later: Vec<Leg<W, S>>,
) -> Result<Outcome, Memory>
    requires can_begin { CanBegin work.now }
    requires unmarked { first_mark first.items ≡ None }
    requires first_done { AreDone first.items }
    requires later_done { AreDone later.items }
    requires at_first { map asked_of first.items ≡ first_asked route.now work.now }
    requires then { map asked_of later.items
        ≡ then_asked_by route.now work.now (answers_of first.items) }
    ensures { IfOk result (λ outcome. outcome
        ≡ outcome_said route.now work.now (answers_of first.items) (answers_of later.items)) }
{
    match work {
        Work::Search { .. } => found(alloc, route, work, first, later),
        Work::Fetch { .. } => fetched(alloc, route, work, first),
        Work::Scan { .. } => match first.pop() {
            Some(leg) => Ok(scanned(leg)),
            None => unreachable!(),
        },
    }
}
