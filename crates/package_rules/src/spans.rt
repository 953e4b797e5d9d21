//! Which records each leg is asked for.

ghost use Rattle.std.specs.Prelude.{◌≡◌, ◌+◌, ◌<◌, ◌≤◌, ◌++◌, All, OnOk, IfOk, get_or, length, set};
ghost use Rattle.z_types.specs.Bounds.{most_legs};
ghost use Rattle.z_types.specs.MergedOrder as merged_order;
ghost use Rattle.gateway_rules.specs.Outcomes.{places_from};
ghost use Rattle.package_rules.specs.Asked.{spans_of};
ghost use Rattle.package_rules.specs.steps.Spans.{IsSpanOf, met_then, none_met, span_met};

use multi_merge::locate;
use std::alloc::Global;
use z_types::{List, MOST_LEGS, Memory};

/// Records of one leg that stand at places which are asked for: their ranks are one behind another.
#[derive(Clone, Copy, PartialEq, Eq, Debug)]
pub struct Span {
    /// The place of the leg among those of the work, counted from 0.
    pub leg: u32,
    /// The rank of the first, counted from 1.
    pub first: u32,
    /// How many, at least 1.
    pub count: u32,
}

/// The ranks of a leg that were met: the first and the last, or 0 where none was.
#[derive(Clone, Copy)]
pub struct Met {
    /// The first.
    pub first: u32,
    /// The last.
    pub last: u32,
}

/// Meets a rank of a leg.
fn meet(met: &mut [Met], leg: u32, rank: u32)
    requires { leg < length met.old }
    ensures { met.new ≡ set met.old leg (met_then (get_or met.old leg none_met) rank) }
{
    let met = &mut met[leg as usize];
    if met.first == 0 {
        met.first = rank;
    }
    met.last = rank;
}

/// Pushes the span of a leg behind others, where ranks of it were met.
fn push_span(spans: &mut List<Span>, leg: u32, met: Met) -> Result<(), Memory>
    requires { met.first ≤ met.last }
    ensures { OnOk result (spans.new ≡ spans.old ++ span_met leg met) }
{
    if met.first == 0 {
        return Ok(());
    }
    spans.push(Span {
        leg,
        first: met.first,
        count: met.last - met.first + 1,
    })
}

/// The records at the `count` places from one on, counted from 1, of legs with these hits, leg by leg;
/// a leg that has none there has no span.
pub fn spans_of(alloc: Global, hits: &[u32], first: u32, count: u32) -> Result<List<Span>, Memory>
    requires few { length hits.now ≤ most_legs }
    requires counted { 0 < first }
    requires within { first + count ≤ merged_order.total hits.now + 1 }
    ensures spans { IfOk result (λ spans. spans
        ≡ spans_of (length hits.now) (places_from hits.now first count)) }
    ensures each { IfOk result (All (IsSpanOf (length hits.now) (first + count))) }
{
    let mut met = [Met { first: 0, last: 0 }; MOST_LEGS];
    for behind in 0..count {
        let (leg, rank) = locate(hits, first + behind);
        meet(&mut met, leg, rank);
    }
    let mut spans = List::new(alloc);
    for leg in 0..hits.len() {
        push_span(&mut spans, leg as u32, met[leg])?;
    }
    Ok(spans)
}
