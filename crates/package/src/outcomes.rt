//! What comes of a work where the targets are asked directly: the yardstick.

ghost use Rattle.std.specs.Prelude.{◌≡◌, ◌+◌, ◌<◌, ◌≤◌, length, IfOk};
ghost use Rattle.std.specs.Option.{option_copied};
ghost use Rattle.z_types.specs.Bounds.{most_legs};
ghost use Rattle.z_types.specs.MergedOrder as merged_order;
ghost use Rattle.z_types.specs.Under.{under};
ghost use Rattle.gateway_rules.specs.Given.{returned};
ghost use Rattle.virt_db.specs.Legs.{leg_at};
ghost use Rattle.gateway_rules.specs.Targets.{records_at, scan_at};
ghost use Rattle.gateway_rules.specs.Outcomes.{login_asked, places_from, plain_outcome, scanned, whole, within_room};
ghost use Rattle.gateway_rules.specs.Works.{CanBegin, FitsWork};
ghost use Rattle.package.specs.steps.Kinds.{IsSearch, IsFetch};

use crate::hits::hits_of;
use crate::records::{Wanted, records_from};
use crate::shown::element_shown;
use gw_outside::{TargetAnswer, Targets};
use multi_merge::total;
use route_config::Route;
use std::alloc::Global;
use virt_db::leg_at;
use z_types::{
    Condition, Diag, Fetched, List, Memory, Outcome, ScanAnswer, ScanAsk, Text, Work, shown_count,
};

/// What comes of a work where no leg is marked. Each target answers a search once; of a fetch each
/// record is asked for at its own place, and the merged order is never made as a list.
pub fn plain_outcome<T: Targets>(
    alloc: Global,
    route: &Route,
    work: &Work,
    targets: &T,
) -> Result<Outcome, Memory>
    requires { CanBegin work.now }
    ensures outcome { IfOk result (λ outcome. outcome
        ≡ plain_outcome (under (login_asked work.now) T.World) route.now work.now) }
    ensures fits { IfOk result (λ outcome. FitsWork work.now outcome) }
{
    match work {
        Work::Search { .. } => search(alloc, route, work, targets),
        Work::Fetch { .. } => present(alloc, route, work, targets),
        Work::Scan { login, leg, ask } => scan(alloc, route, targets, login, *leg, ask),
    }
}

/// What comes of a Search.
fn search<T: Targets>(
    alloc: Global,
    route: &Route,
    work: &Work,
    targets: &T,
) -> Result<Outcome, Memory>
    requires kind { IsSearch work.now }
    requires begun { CanBegin work.now }
    ensures outcome { IfOk result (λ outcome. outcome
        ≡ plain_outcome (under (login_asked work.now) T.World) route.now work.now) }
    ensures fits { IfOk result (λ outcome. FitsWork work.now outcome) }
{
    let Work::Search {
        login,
        legs,
        query,
        small,
        large,
        medium,
        small_element,
        medium_element,
        syntax,
        room,
    } = work
    else {
        unreachable!()
    };
    let hits = match hits_of(alloc, route, targets, login, legs, query) {
        TargetAnswer::Good(hits) => hits,
        TargetAnswer::Refused(diag) => return Ok(Outcome::Refused(diag)),
        TargetAnswer::Memory => return Err(Memory),
    };
    let all = total(hits.as_slice());
    let wanted = Wanted {
        login,
        legs,
        query,
        syntax: syntax.as_ref(),
        element: element_shown(all, *small, small_element, medium_element),
    };
    let count = shown_count(all, *small, *large, *medium);
    let fetched = fetch_shown(alloc, route, targets, wanted, &hits, count, *room)?;
    Ok(Outcome::Found { hits, fetched })
}

/// What comes of a Present.
fn present<T: Targets>(
    alloc: Global,
    route: &Route,
    work: &Work,
    targets: &T,
) -> Result<Outcome, Memory>
    requires kind { IsFetch work.now }
    requires begun { CanBegin work.now }
    ensures outcome { IfOk result (λ outcome. outcome
        ≡ plain_outcome (under (login_asked work.now) T.World) route.now work.now) }
    ensures fits { IfOk result (λ outcome. FitsWork work.now outcome) }
{
    let Work::Fetch {
        login,
        legs,
        query,
        hits,
        first,
        count,
        syntax,
        element,
    } = work
    else {
        unreachable!()
    };
    let wanted = Wanted {
        login,
        legs,
        query,
        syntax: syntax.as_ref(),
        element: element.as_ref(),
    };
    let fetched = fetch(alloc, route, targets, wanted, hits, *first, *count)?;
    Ok(Outcome::Fetched(fetched))
}

/// The first records of a result set, as a Search shows them: none, or the diagnostic where they are
/// more than there is room for.
fn fetch_shown<T: Targets>(
    alloc: Global,
    route: &Route,
    targets: &T,
    wanted: Wanted,
    hits: &List<u32>,
    count: u32,
    room: u32,
) -> Result<Fetched, Memory>
    requires few { length hits.now ≤ most_legs }
    requires within { count ≤ merged_order.total hits.now }
    ensures records { IfOk result (λ fetched. fetched
        ≡ within_room room count (whole
        (records_at (under wanted.entry.login.now T.World) route.now
        wanted.entry.legs.now wanted.entry.query.now
        (option_copied wanted.entry.syntax) (option_copied wanted.entry.element)
        (places_from hits.now 1 count)))) }
    ensures room { IfOk result (λ fetched. returned fetched ≤ room) }
{
    if count == 0 {
        Ok(Fetched::None)
    } else if room < count {
        let condition = Condition::TooManyRecordsRetrieved;
        Ok(Fetched::Whole(Diag::bib1(alloc, condition, Text::new(alloc))?))
    } else {
        fetch(alloc, route, targets, wanted, hits, 1, count)
    }
}

/// Records of a result set, or the first diagnostic in place of all of them.
fn fetch<T: Targets>(
    alloc: Global,
    route: &Route,
    targets: &T,
    wanted: Wanted,
    hits: &List<u32>,
    first: u32,
    count: u32,
) -> Result<Fetched, Memory>
    requires few { length hits.now ≤ most_legs }
    requires counted { 0 < first }
    requires within { first + count ≤ merged_order.total hits.now + 1 }
    ensures records { IfOk result (λ fetched. fetched
        ≡ whole (records_at (under wanted.entry.login.now T.World) route.now
        wanted.entry.legs.now wanted.entry.query.now
        (option_copied wanted.entry.syntax) (option_copied wanted.entry.element)
        (places_from hits.now first count))) }
    ensures count { IfOk result (λ fetched. returned fetched ≤ count) }
{
    match records_from(alloc, route, targets, wanted, hits, first, count) {
        TargetAnswer::Good(records) => Ok(Fetched::Records(records)),
        TargetAnswer::Refused(diag) => Ok(Fetched::Whole(diag)),
        TargetAnswer::Memory => Err(Memory),
    }
}

/// What comes of a scan of the leg at a place of the route; where there is none nothing is found.
fn scan<T: Targets>(
    alloc: Global,
    route: &Route,
    targets: &T,
    login: &Option<Text>,
    place: u32,
    ask: &ScanAsk,
) -> Result<Outcome, Memory>
    ensures { IfOk result (λ outcome. outcome
        ≡ scanned (scan_at (under login.now T.World) ask.now (leg_at route.now place))) }
{
    let Some(leg) = leg_at(route, place) else {
        return Ok(Outcome::Scanned(ScanAnswer {
            position: None,
            entries: List::new(alloc),
        }));
    };
    let address = leg.address.inside(login)?;
    match targets.scan(alloc, &address, leg.dbs, ask) {
        TargetAnswer::Good(answer) => Ok(Outcome::Scanned(answer)),
        TargetAnswer::Refused(diag) => Ok(Outcome::Refused(diag)),
        TargetAnswer::Memory => Err(Memory),
    }
}
