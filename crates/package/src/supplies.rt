//! The records that legs were handed, given place by place.

ghost use Rattle.std.specs.Prelude.{◌≡◌, ◌+◌, ◌≤◌, ◌<◌, ℕ, All, IfOk, IfSome, Option, get_or, length};
ghost use Rattle.std.specs.List.{zip};
ghost use Rattle.z_types.specs.Bounds.{most_legs};
ghost use Rattle.z_types.specs.MergedOrder as merged_order;
ghost use Rattle.gateway_rules.specs.Given.{returned};
ghost use Rattle.gateway_rules.specs.Outcomes.{places_from, whole};
ghost use Rattle.package_rules.specs.Asked.{spans_of};
ghost use Rattle.package_rules.specs.Said.{fetches_of, records_said};
ghost use Rattle.package_rules.specs.declared.answered.Answered.{Answered};
ghost use Rattle.package_rules.specs.declared.spans.Span.{Span};
ghost use Rattle.package_rules.specs.steps.Answers.{AnswersAsAny};
ghost use Rattle.package.specs.steps.Ends.{fetch_of, given_next, named_next, no_supply, supply_after, supply_of};
ghost use Rattle.package.specs.steps.Packages.{AreDone, HasFitting, answer_of, answers_of};
ghost use Rattle.leg.specs.Phases.{answered};

use crate::records::{push_next, with_name};
use gw_outside::TargetAnswer;
use leg::{Leg, LegAnswer};
use multi_merge::locate;
use package_rules::{Span, spans_of};
use route_config::Route;
use std::alloc::Global;
use std::collections::VecDeque;
use std::marker::Model;
use virt_db::leg_at;
use z_types::{Diag, Fetched, Item, List, Memory, NamedRecord, Sitting, World};

/// The records of a leg that were not given yet, and the diagnostic behind them.
#[derive(Drop)]
pub(crate) struct Supply {
    leg: u32,
    items: VecDeque<Item>,
    end: Option<Diag>,
}

impl Model for Supply {
    ghost use Rattle.package.specs.steps.Ends.{SupplyView};

    ghost Value = { SupplyView };

    ghost view = { λ s. record { leg = s.leg; items = s.items.items; end = s.end } };
}

impl Supply {
    /// None.
    fn none(alloc: Global) -> Supply
        ensures { result ≡ no_supply }
    {
        Supply {
            leg: 0,
            items: VecDeque::new(alloc),
            end: None,
        }
    }

    /// What a leg that is done was handed.
    fn of<W: World, S: Sitting<W>>(alloc: Global, leg: Leg<W, S>) -> Supply
        requires { HasFitting leg.task (answered leg.phase) }
        ensures { IfSome (answer_of leg) (λ said. result ≡ supply_after 0 said) }
    {
        let place = leg.place();
        let (answer, _) = leg.answer();
        let (items, end) = match answer {
            LegAnswer::Items(items) => (items, None),
            LegAnswer::Broken(items, diag) => (items, Some(diag)),
            LegAnswer::Refused(diag) => (List::new(alloc), Some(diag)),
            LegAnswer::Hits(_count) => (List::new(alloc), None),
            LegAnswer::Scanned(_entries) => (List::new(alloc), None),
            LegAnswer::Marked(_mark) => (List::new(alloc), None),
        };
        Supply {
            leg: place,
            items: VecDeque::from_vec(items.into_vec()),
            end,
        }
    }

    /// The next record, the diagnostic behind the last, or nothing more.
    fn next(&mut self) -> Option<Result<Item, Diag>>
        ensures next { (given : ℕ) (fetch : Option (Span × Answered))
            → self.old ≡ supply_of given fetch → result ≡ given_next given fetch }
        ensures left { (given : ℕ) (fetch : Option (Span × Answered))
            → self.old ≡ supply_of given fetch → self.new ≡ supply_of (given + 1) fetch }
    {
        match self.items.pop_front() {
            Some(item) => Some(Ok(item)),
            None => match self.end.take() {
                Some(diag) => Some(Err(diag)),
                None => None,
            },
        }
    }
}

/// The next record of a leg under the name of its virtual database, the diagnostic behind the last, or
/// nothing more.
fn next_record(route: &Route, supply: &mut Supply) -> TargetAnswer<Option<NamedRecord>>
    ensures next { (given : ℕ) (fetch : Option (Span × Answered))
        → supply.old ≡ supply_of given fetch → AnswersAsAny result (named_next route.now given fetch) }
    ensures left { (given : ℕ) (fetch : Option (Span × Answered))
        → supply.old ≡ supply_of given fetch → supply.new ≡ supply_of (given + 1) fetch }
{
    let at = leg_at(route, supply.leg);
    match (supply.next(), at) {
        (Some(Ok(item)), Some(at)) => with_name(&at.database.name, item),
        (Some(Err(diag)), Some(_)) => TargetAnswer::Refused(diag),
        _ => TargetAnswer::Good(None),
    }
}

/// What legs were handed for these spans, by the place of each among so many.
fn supplies_of<W: World, S: Sitting<W>>(
    alloc: Global,
    many: usize,
    spans: &[Span],
    mut legs: Vec<Leg<W, S>>,
) -> Result<Vec<Supply>, Memory>
    requires done { AreDone legs.items }
    requires each { length legs.items ≡ length spans.now }
    requires within { All (λ span. span.leg < many) spans.now }
    ensures many { IfOk result (λ supplies. length supplies.items ≡ many) }
    ensures each { IfOk result (λ supplies. (leg : ℕ) → get_or supplies.items leg no_supply
        ≡ supply_of 0 (fetch_of (zip spans.now (answers_of legs.items)) leg)) }
{
    let mut supplies = Vec::new(alloc);
    for _ in 0..many {
        supplies.push(Supply::none(alloc))?;
    }
    while let Some(leg) = legs.pop() {
        let span = spans[legs.len()];
        supplies[span.leg as usize] = Supply::of(alloc, leg);
    }
    Ok(supplies)
}

/// The `count` records from a position on, counted from 1, that legs were handed for their places among
/// legs with these hits; or the first diagnostic in place of all of them.
pub(crate) fn records_said<W: World, S: Sitting<W>>(
    alloc: Global,
    route: &Route,
    hits: &List<u32>,
    first: u32,
    count: u32,
    legs: Vec<Leg<W, S>>,
) -> Result<Fetched, Memory>
    requires done { AreDone legs.items }
    requires each { length legs.items
        ≡ length (spans_of (length hits.now) (places_from hits.now first count)) }
    requires few { length hits.now ≤ most_legs }
    requires counted { 0 < first }
    requires within { first + count ≤ merged_order.total hits.now + 1 }
    ensures records { IfOk result (λ fetched. fetched ≡ whole (records_said route.now
        (fetches_of (length hits.now) (places_from hits.now first count) (answers_of legs.items))
        (places_from hits.now first count))) }
    ensures count { IfOk result (λ fetched. returned fetched ≤ count) }
{
    let spans = spans_of(alloc, hits.as_slice(), first, count)?;
    let mut supplies = supplies_of(alloc, hits.len(), spans.as_slice(), legs)?;
    let mut records = List::new(alloc);
    for behind in 0..count {
        let (leg, _) = locate(hits.as_slice(), first + behind);
        match next_record(route, &mut supplies[leg as usize]) {
            TargetAnswer::Good(record) => push_next(&mut records, record)?,
            TargetAnswer::Refused(diag) => return Ok(Fetched::Whole(diag)),
            TargetAnswer::Memory => return Err(Memory),
        }
    }
    Ok(Fetched::Records(records))
}
