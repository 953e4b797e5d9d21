//! The records of a result set, place by place.

ghost use Rattle.std.specs.Prelude.{◌≡◌, ◌+◌, ◌<◌, ◌≤◌, ◌++◌, length, OnOk, option_to_list};
ghost use Rattle.std.specs.Option.{option_copied};
ghost use Rattle.z_types.specs.Bounds.{most_legs};
ghost use Rattle.z_types.specs.Under.{under};
ghost use Rattle.z_types.specs.MergedOrder as merged_order;
ghost use Rattle.z_types.specs.MergedOrder.{place_at};
ghost use Rattle.gw_outside.specs.Targets.{AnswersAs};
ghost use Rattle.gateway_rules.specs.Targets.{records_at, record_at};
ghost use Rattle.gateway_rules.specs.Outcomes.{places_from};
ghost use Rattle.package_rules.specs.steps.Answers.{AnswersAsAny};

use gw_outside::{TargetAnswer, Targets};
use multi_merge::locate;
use route_config::Route;
use std::alloc::Global;
use virt_db::leg_at;
use z_types::{Item, List, Memory, NamedRecord, Oid, RpnQuery, Text, copy};

/// Records of a result set, as a request asks for them.
#[derive(Clone, Copy)]
pub(crate) struct Wanted<'a> {
    /// The login of who asks, or none.
    pub(crate) login: &'a Option<Text>,
    /// The legs of the set, by their places in the route.
    pub(crate) legs: &'a List<u32>,
    /// The query of the set.
    pub(crate) query: &'a RpnQuery,
    /// The record syntax.
    pub(crate) syntax: Option<&'a Oid>,
    /// The element set name.
    pub(crate) element: Option<&'a Text>,
}

/// The `count` records from a position on, counted from 1, of legs with these hits, or the first
/// diagnostic of a whole present among them.
pub(crate) fn records_from<T: Targets>(
    alloc: Global,
    route: &Route,
    targets: &T,
    wanted: Wanted,
    hits: &List<u32>,
    first: u32,
    count: u32,
) -> TargetAnswer<List<NamedRecord>>
    requires few { length hits.now ≤ most_legs }
    requires counted { 0 < first }
    requires within { first + count ≤ merged_order.total hits.now + 1 }
    ensures { AnswersAs result
        (records_at (under wanted.entry.login.now T.World) route.now
        wanted.entry.legs.now wanted.entry.query.now
        (option_copied wanted.entry.syntax) (option_copied wanted.entry.element)
        (places_from hits.now first count)) }
{
    let mut records = List::new(alloc);
    for behind in 0..count {
        let (leg, rank) = locate(hits.as_slice(), first + behind);
        match record_at(alloc, route, targets, wanted, leg, rank) {
            TargetAnswer::Good(record) => {
                let Ok(()) = push_next(&mut records, record) else {
                    return TargetAnswer::Memory;
                };
            }
            TargetAnswer::Refused(diag) => return TargetAnswer::Refused(diag),
            TargetAnswer::Memory => return TargetAnswer::Memory,
        }
    }
    TargetAnswer::Good(records)
}

/// Pushes a record behind others, where there is one.
pub(crate) fn push_next(
    records: &mut List<NamedRecord>,
    next: Option<NamedRecord>,
) -> Result<(), Memory>
    ensures { OnOk result (records.new ≡ records.old ++ option_to_list next) }
{
    match next {
        Some(next) => records.push(next),
        None => Ok(()),
    }
}

/// The record of a rank of a leg, both as the merged order has them; none where there is no such leg.
fn record_at<T: Targets>(
    alloc: Global,
    route: &Route,
    targets: &T,
    wanted: Wanted,
    leg: u32,
    rank: u32,
) -> TargetAnswer<Option<NamedRecord>>
    ensures { AnswersAsAny result
        (record_at (under wanted.entry.login.now T.World) route.now
        wanted.entry.legs.now wanted.entry.query.now
        (option_copied wanted.entry.syntax) (option_copied wanted.entry.element)
        (place_at leg rank)) }
{
    let Some(place) = wanted.legs.get(leg as usize) else {
        return TargetAnswer::Good(None);
    };
    let Some(leg) = leg_at(route, *place) else {
        return TargetAnswer::Good(None);
    };
    let Wanted {
        login,
        query,
        syntax,
        element,
        ..
    } = wanted;
    let Ok(address) = leg.address.inside(login) else {
        return TargetAnswer::Memory;
    };
    match targets.record_(alloc, &address, leg.dbs, query, rank, syntax, element) {
        TargetAnswer::Good(item) => with_name(&leg.database.name, item),
        TargetAnswer::Refused(diag) => TargetAnswer::Refused(diag),
        TargetAnswer::Memory => TargetAnswer::Memory,
    }
}

/// A record under its virtual database's name.
pub(crate) fn with_name(name: &Text, item: Item) -> TargetAnswer<Option<NamedRecord>>
    ensures { AnswersAsAny result
        (Some (Ok (record { name = Some name.now; item = item }))) }
{
    match copy(name) {
        Ok(name) => TargetAnswer::Good(Some(NamedRecord {
            name: Some(name),
            item,
        })),
        Err(_) => TargetAnswer::Memory,
    }
}
