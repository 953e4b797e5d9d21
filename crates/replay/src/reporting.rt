//! What is reported of clients whose connections have ended.

ghost use Rattle.std.specs.Prelude.{◌≡◌, ◌≤◌, IfOk, IfSome, IsSome, OnOk, Some, length};
ghost use Rattle.script.specs.Events.{most_clients};
ghost use Rattle.replay.specs.Trace.{AreReported, IsReported, IsReportedBehind, costs_upto};
ghost use Rattle.replay.specs.Classes.{costs_of};
ghost use Rattle.replay.specs.steps.Clients.{AreEnded};

use crate::classes::{add_totals, no_costs};
use crate::client::Client;
use crate::{ClassReport, ClientReport, Report};
use route_config::Route;
use std::alloc::Global;
use z_types::{List, Memory, Sitting, World};

/// Reports the clients of a replay of a route, and what their requests cost.
pub(crate) fn report<W: World, S: Sitting<W>>(
    alloc: Global,
    route: &Route,
    clients: &mut [Option<Client<W, S>>],
    cache_hits: Option<u64>,
) -> Result<Report, Memory>
    requires few { length clients.old ≤ most_clients }
    requires ended { AreEnded clients.old }
    ensures reported { IfOk result (IsReported route.now clients.old) }
    ensures hits { IfOk result (λ report. report.cache_hits ≡ cache_hits) }
{
    let mut costs = no_costs(alloc, route)?.into_vec();
    let clients = report_all(alloc, clients, costs.as_mut_slice())?;
    let classes = List::from_vec(costs);
    Ok(Report {
        clients,
        classes,
        cache_hits,
    })
}

/// Reports each client that is there, in ascending order, and adds what its requests cost.
fn report_all<W: World, S: Sitting<W>>(
    alloc: Global,
    clients: &mut [Option<Client<W, S>>],
    costs: &mut [ClassReport],
) -> Result<List<ClientReport>, Memory>
    requires few { length clients.old ≤ most_clients }
    requires ended { AreEnded clients.old }
    ensures reports { IfOk result (AreReported (length clients.old) clients.old) }
    ensures costs { OnOk result
        (costs.new ≡ costs_upto (length clients.old) clients.old costs.old) }
{
    let mut reports = List::new(alloc);
    for place in 0..clients.len() {
        report_place(place as u32 + 1, &mut clients[place], costs, &mut reports)?;
    }
    Ok(reports)
}

/// Reports the client of a place, where there is one, behind the others.
fn report_place<W: World, S: Sitting<W>>(
    number: u32,
    place: &mut Option<Client<W, S>>,
    costs: &mut [ClassReport],
    reports: &mut List<ClientReport>,
) -> Result<(), Memory>
    requires { IfSome place.old (λ client. IsSome client.conn.end) }
    ensures reported { OnOk result
        (IsReportedBehind number place.old reports.old reports.new) }
    ensures costs { costs.new ≡ costs_of place.old costs.old }
{
    let Some(client) = place.take() else {
        return Ok(());
    };
    report_client(number, client, costs, reports)
}

/// Reports a client of this number behind the others.
fn report_client<W: World, S: Sitting<W>>(
    number: u32,
    client: Client<W, S>,
    costs: &mut [ClassReport],
    reports: &mut List<ClientReport>,
) -> Result<(), Memory>
    requires { IsSome client.conn.end }
    ensures reported { OnOk result
        (IsReportedBehind number (Some client) reports.old reports.new) }
    ensures costs { costs.new ≡ costs_of (Some client) costs.old }
{
    add_totals(costs, client.totals().as_slice());
    reports.push(client.into_report(number))
}
