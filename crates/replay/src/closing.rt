//! Behind the last event each client is closed.

ghost use Rattle.std.specs.Prelude.{IfSome, List, OnOk};
ghost use Rattle.front_conn_costs.specs.front_conn.steps.States.{IsConnOf};
ghost use Rattle.script.specs.declared.event.Event.{Event as AnEvent};
ghost use Rattle.replay.specs.Trace.{outside_of};
ghost use Rattle.replay.specs.steps.Clients.{AreClientsOf};
ghost use Rattle.replay.specs.steps.Closing.{AreAllClosed, ClosesAt, IsClosedNow};

use crate::client::Client;
use crate::laws::{connection_laws, cost_laws};
use front_conn_costs::front_conn::stays_of_route;
use gw_outside::Backend;
use pool_sets::Door;
use route_config::Route;
use std::alloc::Global;
use z_types::{Memory, World};

/// Closes each client that is there, in ascending order.
pub(crate) fn close_all<W: World, B: Backend<W>, D: Door<W, B::Session>>(
    alloc: Global,
    route: &Route,
    backend: &mut B,
    door: &mut D,
    now: u64,
    clients: &mut [Option<Client<W, B::Session>>],
) -> Result<(), Memory>
    requires { (events : List AnEvent) × AreClientsOf W.World B.Session.Sitting
        route.now (D.counts door.old).most events clients.old }
    ensures { OnOk result (AreAllClosed W.World B.Session.Sitting B.exact route.now now
        (record {
          clients = clients.old;
          outside = outside_of D.Door B.Watched door.old backend.old;
        })
        (record {
          clients = clients.new;
          outside = outside_of D.Door B.Watched door.new backend.new;
        })) }
{
    connection_laws::<W, B::Session>();
    cost_laws::<W, B::Session>();
    let _ = route.parts();
    for place in 0..clients.len() {
        close(alloc, route, backend, door, now, &mut clients[place])?;
    }
    Ok(())
}

/// Closes the client of a place, where there is one.
fn close<W: World, B: Backend<W>, D: Door<W, B::Session>>(
    alloc: Global,
    route: &Route,
    backend: &mut B,
    door: &mut D,
    now: u64,
    place: &mut Option<Client<W, B::Session>>,
) -> Result<(), Memory>
    requires { IfSome place.old (λ client.
        IsConnOf W.World B.Session.Sitting route.now (D.counts door.old).most client.conn) }
    ensures { OnOk result (ClosesAt W.World B.Session.Sitting B.exact route.now now
        place.old place.new
        (outside_of D.Door B.Watched door.old backend.old)
        (outside_of D.Door B.Watched door.new backend.new)) }
{
    match place {
        Some(client) => close_client(alloc, route, backend, door, now, client),
        None => Ok(()),
    }
}

/// Closes a client: its input ends, and it is run.
fn close_client<W: World, B: Backend<W>, D: Door<W, B::Session>>(
    alloc: Global,
    route: &Route,
    backend: &mut B,
    door: &mut D,
    now: u64,
    client: &mut Client<W, B::Session>,
) -> Result<(), Memory>
    requires { IsConnOf W.World B.Session.Sitting
        route.now (D.counts door.old).most client.old.conn }
    ensures { OnOk result (IsClosedNow W.World B.Session.Sitting B.exact route.now now
        client.old client.new
        (outside_of D.Door B.Watched door.old backend.old)
        (outside_of D.Door B.Watched door.new backend.new)) }
{
    stays_of_route::<W, B::Session>();
    client.end_input();
    client.run(alloc, route, backend, door, now)
}
