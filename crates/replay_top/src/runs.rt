//! A whole replay over a wire.

ghost use Rattle.std.specs.Prelude.{◌≡◌, ◌<◌, ℕ, None, Some, IfOk, OnOk, false, true, is_some};
ghost use Rattle.script.specs.Events.{AreEvents};
ghost use Rattle.replay_shares.specs.replay.Report.{IsReportOf};
ghost use Rattle.replay_shares.specs.replay.Undisturbed.{IsUntroubledIf};
ghost use Rattle.replay_shares.specs.replay.Wires.{IsCountedBy};
ghost use Rattle.replay_laws.specs.Borne.{IsBorneIf, WentThrough, keeps_records};
ghost use Rattle.cache_backend.specs.Sessions.{keeping};
ghost use Rattle.replay_shares.specs.Shares.{SharesIfOrderlyOver};
ghost use Rattle.replay_top.specs.Outside.{wire_calls};
ghost use Rattle.replay_top.specs.Paid.{IsFullPaid};
ghost use Rattle.replay_top.specs.Reported.{IsPlayedReport, WentThroughBy};

use crate::lent::LentWire;
use cache_backend::{CachedBackend, CachedSession};
use gw_outside::{Events, Wire};
use pool_index::IndexedPool;
use record_cache::RecordCache;
use replay_laws::{borne_is_plain, borne_is_plain_or_full, quiet_disturbs_nobody};
use replay_shares::replay::{Report, run_over, run_with_hits};
use replay_shares::scripts_share;
use route_config::Route;
use script::Event;
use std::alloc::Global;
use z_client::{ZBackend, ZSession};
use z_types::{List, Memory, Sitting, World};

/// The sessions over a wire, of which a store answers Presents too.
type Cached<W, N> = CachedBackend<W, ZBackend<N>, RecordCache<W>>;

/// Plays the events of a script over the links of a wire, with a new pool, and with a new store of records
/// where the route keeps some.
pub fn run<W: World, N: Wire<W> + Events>(
    alloc: Global,
    route: &Route,
    events: &List<Event>,
    wire: &mut N,
) -> Result<Report, Memory>
    requires { (targets : ℕ) × AreEvents targets events.now }
    // Each client was answered to the octets that it was fed.
    ensures report { IfOk result (IsReportOf W.World route.now events.now) }

    // The sums are what an exact wire counted, and the marks have their counted cause.
    ensures counted { IfOk result (IsCountedBy W.World N.exact route.now
        (N.counts wire.old) (N.counts wire.new)) }

    // Over any wire as many links are reported, or calls failed, as there may be sessions where one
    // found the pool full.
    ensures full_paid { IfOk result (IsFullPaid W.World N.exact route.now
        (N.counts wire.old) (N.counts wire.new)) }

    // Where nothing befalls links, each request is answered as it asks, or finds the pool full.
    ensures untroubled { IfOk result (IsUntroubledIf W.World N.exact route.now events.now
        (N.counts wire.old) (N.happened wire.old)) }

    // So it is where links are cut and sets are deleted between requests, no more than is borne: by
    // what the replay went through, and by the script alone.
    ensures through { IfOk result (WentThroughBy (keeps_records route.now) W.World
        (wire_calls N.Watched ⟦<ZSession<W, N::Link> as Sitting<W>>⟧ wire.old wire.new)
        route.now events.now) }
    ensures borne { IfOk result (IsBorneIf W.World N.exact route.now events.now
        (N.happened wire.old) (N.counts wire.new)) }

    // Where no two requests are in work at once, each class costs just what sharing needs.
    ensures shared { IfOk result (SharesIfOrderlyOver W.World N.exact route.now events.now
        (N.counts wire.old) (N.happened wire.old)) }

    // It tells how many Presents kept records answered, where the route keeps some.
    ensures hits { IfOk result (λ report. is_some report.cache_hits ≡ keeps_records route.now) }
{
    play(alloc, route, events, wire)
}

/// Plays the events over the links of a wire, with records kept or without.
fn play<W: World, N: Wire<W> + Events>(
    alloc: Global,
    route: &Route,
    events: &List<Event>,
    wire: &mut N,
) -> Result<Report, Memory>
    requires events { (targets : ℕ) × AreEvents targets events.now }
    ensures played { IfOk result (IsPlayedReport W.World
        (wire_calls N.Watched ⟦<ZSession<W, N::Link> as Sitting<W>>⟧ wire.old wire.new)
        route.now events.now) }
    ensures hits { IfOk result (λ report. is_some report.cache_hits ≡ keeps_records route.now) }
{
    let most = route.parts().cache_records;
    if most > 0 {
        return play_keeping(alloc, route, events, most, wire);
    }
    play_plain(alloc, route, events, wire)
}

/// Plays the events without a record kept.
fn play_plain<W: World, N: Wire<W> + Events>(
    alloc: Global,
    route: &Route,
    events: &List<Event>,
    wire: &mut N,
) -> Result<Report, Memory>
    requires events { (targets : ℕ) × AreEvents targets events.now }
    requires keeps { keeps_records route.now ≡ false }
    ensures played { IfOk result (IsPlayedReport W.World
        (wire_calls N.Watched ⟦<ZSession<W, N::Link> as Sitting<W>>⟧ wire.old wire.new)
        route.now events.now) }
    ensures hits { IfOk result (λ report. report.cache_hits ≡ None) }
{
    let mut backend = ZBackend::new(alloc, LentWire::new(wire));
    let report = run_plain(alloc, route, events, &mut backend);
    let LentWire { wire: lent } = backend.into_wire();
    let _ = lent;
    report
}

/// Plays the events with so many records kept at most.
fn play_keeping<W: World, N: Wire<W> + Events>(
    alloc: Global,
    route: &Route,
    events: &List<Event>,
    most: u32,
    wire: &mut N,
) -> Result<Report, Memory>
    requires events { (targets : ℕ) × AreEvents targets events.now }
    requires keeps { keeps_records route.now ≡ true }
    requires most { 0 < most }
    ensures played { IfOk result (IsPlayedReport W.World
        (wire_calls N.Watched ⟦<ZSession<W, N::Link> as Sitting<W>>⟧ wire.old wire.new)
        route.now events.now) }
    ensures hits { IfOk result (λ report. is_some report.cache_hits ≡ true) }
{
    let store = RecordCache::new(alloc, most)?;
    let inner = ZBackend::new(alloc, LentWire::new(wire));
    let mut backend = CachedBackend::new(inner, store, route.parts().cache_record_bytes);
    let report = run_keeping(alloc, route, events, &mut backend);
    let LentWire { wire: lent } = backend.into_inner().into_wire();
    let _ = lent;
    report
}

/// Plays the events of a script over the sessions of a backend, with a new pool.
fn run_plain<W: World, N: Wire<W> + Events>(
    alloc: Global,
    route: &Route,
    events: &List<Event>,
    backend: &mut ZBackend<N>,
) -> Result<Report, Memory>
    requires events { (targets : ℕ) × AreEvents targets events.now }
    requires no_breach { backend.old.own.breaches ≡ 0 }
    requires no_dials { backend.old.own.dials ≡ 0 }
    ensures report { IfOk result (IsReportOf W.World route.now events.now) }
    ensures counted { IfOk result (IsCountedBy W.World N.exact route.now
        (N.counts backend.old.wire) (N.counts backend.new.wire)) }
    ensures full_paid { IfOk result (IsFullPaid W.World N.exact route.now
        (N.counts backend.old.wire) (N.counts backend.new.wire)) }
    ensures untroubled { IfOk result (IsUntroubledIf W.World N.exact route.now events.now
        (N.counts backend.old.wire) (N.happened backend.old.wire)) }
    ensures through { IfOk result (WentThrough W.World ⟦<ZSession<W, N::Link> as Sitting<W>>⟧
        N.exact route.now events.now (N.happened backend.old.wire) (N.counts backend.new.wire)) }
    ensures borne { IfOk result (IsBorneIf W.World N.exact route.now events.now
        (N.happened backend.old.wire) (N.counts backend.new.wire)) }
    ensures shared { IfOk result (SharesIfOrderlyOver W.World N.exact route.now events.now
        (N.counts backend.old.wire) (N.happened backend.old.wire)) }
    ensures lent { OnOk result
        ((N.happened backend.new.wire).lent ≡ (N.happened backend.old.wire).lent) }
    ensures hits { IfOk result (λ report. report.cache_hits ≡ None) }
{
    quiet_disturbs_nobody::<W, ZSession<W, N::Link>>();
    borne_is_plain_or_full::<W, ZSession<W, N::Link>>();
    borne_is_plain::<W, ZSession<W, N::Link>>();
    scripts_share::<W, ZSession<W, N::Link>>();
    let _ = route.parts();
    let mut door: IndexedPool<W, _> = IndexedPool::new(alloc, route)?;
    run_over::<W, _, _>(alloc, route, events, backend, &mut door)
}

/// Plays them over sessions of which a store answers Presents too, and tells how many.
fn run_keeping<W: World, N: Wire<W> + Events>(
    alloc: Global,
    route: &Route,
    events: &List<Event>,
    backend: &mut Cached<W, N>,
) -> Result<Report, Memory>
    requires events { (targets : ℕ) × AreEvents targets events.now }
    requires keeps { keeps_records route.now ≡ true }
    requires no_breach { backend.old.inner.own.breaches ≡ 0 }
    requires no_dials { backend.old.inner.own.dials ≡ 0 }
    ensures report { IfOk result (IsReportOf W.World route.now events.now) }
    ensures counted { IfOk result (IsCountedBy W.World N.exact route.now
        (N.counts backend.old.inner.wire) (N.counts backend.new.inner.wire)) }
    ensures full_paid { IfOk result (IsFullPaid W.World N.exact route.now
        (N.counts backend.old.inner.wire) (N.counts backend.new.inner.wire)) }
    ensures untroubled { IfOk result (IsUntroubledIf W.World N.exact route.now events.now
        (N.counts backend.old.inner.wire) (N.happened backend.old.inner.wire)) }
    ensures through { IfOk result (WentThrough W.World (keeping ⟦<ZSession<W, N::Link> as Sitting<W>>⟧)
        N.exact route.now events.now
        (N.happened backend.old.inner.wire) (N.counts backend.new.inner.wire)) }
    ensures borne { IfOk result (IsBorneIf W.World N.exact route.now events.now
        (N.happened backend.old.inner.wire) (N.counts backend.new.inner.wire)) }
    ensures shared { IfOk result (SharesIfOrderlyOver W.World N.exact route.now events.now
        (N.counts backend.old.inner.wire) (N.happened backend.old.inner.wire)) }
    ensures lent { OnOk result ((N.happened backend.new.inner.wire).lent
        ≡ (N.happened backend.old.inner.wire).lent) }
    ensures hits { IfOk result (λ report. report.cache_hits ≡ Some backend.new.served) }
{
    quiet_disturbs_nobody::<W, CachedSession<W, ZSession<W, N::Link>>>();
    borne_is_plain_or_full::<W, CachedSession<W, ZSession<W, N::Link>>>();
    borne_is_plain::<W, CachedSession<W, ZSession<W, N::Link>>>();
    scripts_share::<W, CachedSession<W, ZSession<W, N::Link>>>();
    let _ = route.parts();
    let mut door: IndexedPool<W, _> = IndexedPool::new(alloc, route)?;
    run_with_hits::<W, _, _>(alloc, route, events, backend, &mut door, true)
}
