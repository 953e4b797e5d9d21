//! The hits of each leg.

ghost use Rattle.z_types.specs.Under.{under};
ghost use Rattle.gw_outside.specs.Targets.{AnswersAs};
ghost use Rattle.virt_db.specs.Legs.{leg_at};
ghost use Rattle.gateway_rules.specs.Targets.{hits_of, hits_at};

use gw_outside::{TargetAnswer, Targets};
use route_config::Route;
use std::alloc::Global;
use virt_db::leg_at;
use z_types::{List, RpnQuery, Text};

/// The hits of each leg, or the first diagnostic that is not hidden, in the order of the legs.
pub(crate) fn hits_of<T: Targets>(
    alloc: Global,
    route: &Route,
    targets: &T,
    login: &Option<Text>,
    legs: &List<u32>,
    query: &RpnQuery,
) -> TargetAnswer<List<u32>>
    ensures { AnswersAs result (hits_of (under login.now T.World) route.now legs.now query.now) }
{
    let mut hits = List::new(alloc);
    for leg in legs.as_slice() {
        match hits_at(alloc, route, targets, login, *leg, query) {
            TargetAnswer::Good(count) => {
                let Ok(()) = hits.push(count) else {
                    return TargetAnswer::Memory;
                };
            }
            TargetAnswer::Refused(diag) => return TargetAnswer::Refused(diag),
            TargetAnswer::Memory => return TargetAnswer::Memory,
        }
    }
    TargetAnswer::Good(hits)
}

/// The hits of the leg at a place of the route; none where there is no such leg, or where its target
/// refuses and its database hides that.
fn hits_at<T: Targets>(
    alloc: Global,
    route: &Route,
    targets: &T,
    login: &Option<Text>,
    place: u32,
    query: &RpnQuery,
) -> TargetAnswer<u32>
    ensures { AnswersAs result
        (hits_at (under login.now T.World) query.now (leg_at route.now place)) }
{
    let Some(leg) = leg_at(route, place) else {
        return TargetAnswer::Good(0);
    };
    let Ok(address) = leg.address.inside(login) else {
        return TargetAnswer::Memory;
    };
    match targets.search(alloc, &address, leg.dbs, query) {
        TargetAnswer::Good(count) => TargetAnswer::Good(count),
        TargetAnswer::Refused(diag) => {
            if leg.database.hide_errors {
                TargetAnswer::Good(0)
            } else {
                TargetAnswer::Refused(diag)
            }
        }
        TargetAnswer::Memory => TargetAnswer::Memory,
    }
}
