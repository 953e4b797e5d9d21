//! What a request's legs answered, while they are kept.

ghost use Rattle.std.specs.Prelude.{◌≡◌, IfOk};
ghost use Rattle.gw_outside.specs.Targets.{AnswersAs};
ghost use Rattle.package_rules.specs.Said.{all_hits, class_name, hides};
ghost use Rattle.package.specs.steps.Ends.{first_mark, hits_in, mark_in};
ghost use Rattle.package.specs.steps.Packages.{AreDone, answers_of};

use gw_outside::TargetAnswer;
use leg::{Leg, LegAnswer};
use route_config::Route;
use std::alloc::Global;
use virt_db::leg_at;
use z_types::{List, Mark, Memory, Sitting, Text, World, copy};

/// The mark of a leg, where it is marked.
fn mark_of<W: World, S: Sitting<W>>(leg: &Leg<W, S>) -> Option<Mark>
    ensures { result ≡ mark_in leg.now }
{
    match leg.answered() {
        Some(LegAnswer::Marked(mark)) => Some(*mark),
        _ => None,
    }
}

/// The mark of the first leg that is marked, and the leg's place in the route.
pub(crate) fn first_mark<W: World, S: Sitting<W>>(legs: &[Leg<W, S>]) -> Option<(Mark, u32)>
    ensures { result ≡ first_mark legs.now }
{
    for leg in legs {
        if let Some(mark) = mark_of(leg) {
            return Some((mark, leg.place()));
        }
    }
    None
}

/// The name of the class that a leg goes to.
pub(crate) fn class_name(alloc: Global, route: &Route, leg: u32) -> Result<Text, Memory>
    ensures { IfOk result (λ name. name ≡ class_name route.now leg) }
{
    match leg_at(route, leg) {
        Some(at) => copy(&at.class.name),
        None => Ok(Text::new(alloc)),
    }
}

/// Whether the leg's database hides the diagnostics of its hits.
fn hides(route: &Route, leg: u32) -> bool
    ensures { result ≡ hides route.now leg }
{
    match leg_at(route, leg) {
        Some(at) => at.database.hide_errors,
        None => true,
    }
}

/// The hits of a leg, or its target's diagnostic where it is not hidden.
fn hits_in<W: World, S: Sitting<W>>(route: &Route, leg: &Leg<W, S>) -> TargetAnswer<u32>
    ensures { AnswersAs result (hits_in route.now leg.now) }
{
    match leg.answered() {
        Some(LegAnswer::Hits(hits)) => TargetAnswer::Good(*hits),
        Some(LegAnswer::Refused(diag)) => {
            if hides(route, leg.place()) {
                return TargetAnswer::Good(0);
            }
            match copy(diag) {
                Ok(diag) => TargetAnswer::Refused(diag),
                Err(_) => TargetAnswer::Memory,
            }
        }
        _ => TargetAnswer::Good(0),
    }
}

/// The hits of each leg, or the first diagnostic that is not hidden.
pub(crate) fn all_hits<W: World, S: Sitting<W>>(
    alloc: Global,
    route: &Route,
    legs: &[Leg<W, S>],
) -> TargetAnswer<List<u32>>
    requires { AreDone legs.now }
    ensures { AnswersAs result (all_hits route.now (answers_of legs.now)) }
{
    let mut hits = List::new(alloc);
    for leg in legs {
        match hits_in(route, leg) {
            TargetAnswer::Good(count) => {
                let Ok(()) = hits.push(count) else {
                    return TargetAnswer::Memory;
                };
            }
            TargetAnswer::Refused(diag) => return TargetAnswer::Refused(diag),
            TargetAnswer::Memory => return TargetAnswer::Memory,
        }
    }
    TargetAnswer::Good(hits)
}
