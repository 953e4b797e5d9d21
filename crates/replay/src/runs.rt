//! A whole replay.

ghost use Rattle.std.specs.Prelude.{◌≡◌, ℕ, None, IfOk, OnOk};
ghost use Rattle.std.specs.Bool.{then_some};
ghost use Rattle.script.specs.Events.{AreEvents};
ghost use Rattle.replay.specs.Counts.{AreDialled, AreSums, HaveCauses};
ghost use Rattle.replay.specs.Marks.{AreMarksOf};
ghost use Rattle.replay.specs.Report.{IsReportOf};
ghost use Rattle.replay.specs.Trace.{IsRunOf, outside_of};
ghost use Rattle.replay.specs.steps.Clients.{AreNobody};
ghost use Rattle.replay.specs.steps.Quiet.{GoesWell};
ghost use Rattle.replay.specs.steps.Room.{FindsRoom};

use crate::Report;
use crate::client::Client;
use crate::clients::{give_up_all, no_clients};
use crate::closing::close_all;
use crate::laws::{connection_laws, cost_laws, run_laws};
use crate::playing::play;
use crate::reporting::report;
use gw_outside::{Backend, Events};
use pool_sets::Door;
use route_config::Route;
use script::{Event, MOST_CLIENTS};
use std::alloc::Global;
use z_types::{List, Memory, World};

/// Plays the events of a script over one backend and one pool for all clients. The clock begins at 0.
/// Behind the last event the input of each client that they name ends, and it is run, in ascending
/// order. Without memory every session that is out is given up.
pub fn run_over<W: World, B: Backend<W> + Events, D: Door<W, B::Session>>(
    alloc: Global,
    route: &Route,
    events: &List<Event>,
    backend: &mut B,
    door: &mut D,
) -> Result<Report, Memory>
    requires { (targets : ℕ) × AreEvents targets events.now }
    // Each client was answered to the octets that it was fed.
    ensures report { IfOk result (IsReportOf W.World route.now events.now) }

    // The sums are what the backend counted, and the marks have their counted cause.
    ensures sums { IfOk result (λ report. AreSums B.exact report
        (outside_of D.Door B.Watched door.old backend.old)
        (outside_of D.Door B.Watched door.new backend.new)) }
    ensures causes { IfOk result (λ report. HaveCauses route.now.pool report
        (outside_of D.Door B.Watched door.old backend.old)
        (outside_of D.Door B.Watched door.new backend.new)) }

    // Each address that the door named was dialled, or failed.
    ensures dialled { IfOk result (λ report. AreDialled
        (outside_of D.Door B.Watched door.old backend.old)
        (outside_of D.Door B.Watched door.new backend.new)) }

    // The marks say as many looks as the pool is patient, and as many sessions as the door opens.
    ensures marks { IfOk result (λ report. AreMarksOf route.now.pool
        (D.counts door.old).most report.clients) }

    // Over a quiet backend, where no event befalls links, nothing goes wrong.
    ensures calm { OnOk result (GoesWell W.World B.Session.Sitting B.exact route.now events.now
        (outside_of D.Door B.Watched door.old backend.old)
        (outside_of D.Door B.Watched door.new backend.new)) }

    // A new pool that has places for the legs of all clients is never full.
    ensures room { IfOk result (λ report. FindsRoom route.now report
        (outside_of D.Door B.Watched door.old backend.old)
        (outside_of D.Door B.Watched door.new backend.new)) }

    // The events were played, one behind another, and the report is of what came of it.
    ensures run { IfOk result (IsRunOf W.World B.Session.Sitting B.exact route.now events.now
        (outside_of D.Door B.Watched door.old backend.old)
        (outside_of D.Door B.Watched door.new backend.new)) }

    // No record is kept, or no hit is told.
    ensures hits { IfOk result (λ report. report.cache_hits ≡ None) }
{
    run_with_hits(alloc, route, events, backend, door, false)
}

/// The same; the report has how many Presents the backend's records answered, where that is to be told.
pub fn run_with_hits<W: World, B: Backend<W> + Events, D: Door<W, B::Session>>(
    alloc: Global,
    route: &Route,
    events: &List<Event>,
    backend: &mut B,
    door: &mut D,
    tells_hits: bool,
) -> Result<Report, Memory>
    requires { (targets : ℕ) × AreEvents targets events.now }
    ensures report { IfOk result (IsReportOf W.World route.now events.now) }
    ensures sums { IfOk result (λ report. AreSums B.exact report
        (outside_of D.Door B.Watched door.old backend.old)
        (outside_of D.Door B.Watched door.new backend.new)) }
    ensures causes { IfOk result (λ report. HaveCauses route.now.pool report
        (outside_of D.Door B.Watched door.old backend.old)
        (outside_of D.Door B.Watched door.new backend.new)) }
    ensures dialled { IfOk result (λ report. AreDialled
        (outside_of D.Door B.Watched door.old backend.old)
        (outside_of D.Door B.Watched door.new backend.new)) }
    ensures marks { IfOk result (λ report. AreMarksOf route.now.pool
        (D.counts door.old).most report.clients) }
    ensures calm { OnOk result (GoesWell W.World B.Session.Sitting B.exact route.now events.now
        (outside_of D.Door B.Watched door.old backend.old)
        (outside_of D.Door B.Watched door.new backend.new)) }
    ensures room { IfOk result (λ report. FindsRoom route.now report
        (outside_of D.Door B.Watched door.old backend.old)
        (outside_of D.Door B.Watched door.new backend.new)) }
    ensures run { IfOk result (IsRunOf W.World B.Session.Sitting B.exact route.now events.now
        (outside_of D.Door B.Watched door.old backend.old)
        (outside_of D.Door B.Watched door.new backend.new)) }
    ensures hits { IfOk result (λ report. report.cache_hits
        ≡ then_some tells_hits (B.Backend.served backend.new)) }
{
    run_laws::<W, B::Session>();
    let _ = route.parts();
    let mut clients = no_clients(alloc, MOST_CLIENTS as usize)?;
    let slots = clients.as_mut_slice();
    match play_all(
        alloc,
        route,
        events.as_slice(),
        backend,
        door,
        slots,
        tells_hits,
    ) {
        Ok(report) => Ok(report),
        Err(memory) => {
            give_up_all(clients.as_mut_slice(), door);
            Err(memory)
        }
    }
}

/// Plays events, closes each client, and reports them.
fn play_all<W: World, B: Backend<W> + Events, D: Door<W, B::Session>>(
    alloc: Global,
    route: &Route,
    events: &[Event],
    backend: &mut B,
    door: &mut D,
    clients: &mut [Option<Client<W, B::Session>>],
    tells_hits: bool,
) -> Result<Report, Memory>
    requires events { (targets : ℕ) × AreEvents targets events.now }
    requires nobody { AreNobody clients.old }
    ensures report { IfOk result (IsReportOf W.World route.now events.now) }
    ensures sums { IfOk result (λ report. AreSums B.exact report
        (outside_of D.Door B.Watched door.old backend.old)
        (outside_of D.Door B.Watched door.new backend.new)) }
    ensures causes { IfOk result (λ report. HaveCauses route.now.pool report
        (outside_of D.Door B.Watched door.old backend.old)
        (outside_of D.Door B.Watched door.new backend.new)) }
    ensures dialled { IfOk result (λ report. AreDialled
        (outside_of D.Door B.Watched door.old backend.old)
        (outside_of D.Door B.Watched door.new backend.new)) }
    ensures run { IfOk result (IsRunOf W.World B.Session.Sitting B.exact route.now events.now
        (outside_of D.Door B.Watched door.old backend.old)
        (outside_of D.Door B.Watched door.new backend.new)) }
    ensures hits { IfOk result (λ report. report.cache_hits
        ≡ then_some tells_hits (B.Backend.served backend.new)) }
{
    connection_laws::<W, B::Session>();
    cost_laws::<W, B::Session>();
    let now = play(alloc, route, events, backend, door, clients)?;
    close_all(alloc, route, backend, door, now, clients)?;
    let hits = tells_hits.then_some(backend.served_from_cache());
    report(alloc, route, clients, hits)
}
