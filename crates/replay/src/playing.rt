//! The events of a script, one behind another.

ghost use Rattle.std.specs.Prelude.{◌≡◌, ℕ, [], IfOk, OnOk};
ghost use Rattle.front_conn_costs.specs.front_conn.steps.States.{IsConnOf};
ghost use Rattle.script.specs.Events.{AreEvents, seconds_of};
ghost use Rattle.replay.specs.Trace.{ArePlayed, IsBefallen, IsPlayed, PlaysAt, PlaysFor, backend_of, moment_behind, outside_of, test_number};
ghost use Rattle.replay.specs.Clients.{client_or_new};
ghost use Rattle.replay.specs.steps.Clients.{AreClientsOf};
ghost use Rattle.replay.specs.steps.Costs.{AreCosted};
ghost use Rattle.replay.specs.steps.Playing.{CanPlay, CanTake, IsOfClient};

use crate::client::Client;
use crate::clients::name_client;
use crate::laws::{connection_laws, cost_laws};
use gw_outside::{Backend, Events};
use pool_sets::Door;
use route_config::Route;
use script::Event;
use std::alloc::Global;
use z_types::{Address, Memory, Sitting, World};

/// Plays events from moment 0 on, and answers the moment behind them.
pub(crate) fn play<W: World, B: Backend<W> + Events, D: Door<W, B::Session>>(
    alloc: Global,
    route: &Route,
    events: &[Event],
    backend: &mut B,
    door: &mut D,
    clients: &mut [Option<Client<W, B::Session>>],
) -> Result<u64, Memory>
    requires events { (targets : ℕ) × AreEvents targets events.now }
    requires none { AreClientsOf W.World B.Session.Sitting
        route.now (D.counts door.old).most [] clients.old }
    ensures moment { IfOk result (λ now. now ≡ moment_behind events.now) }
    ensures most { (D.counts door.new).most ≡ (D.counts door.old).most }
    ensures stand { OnOk result (AreClientsOf W.World B.Session.Sitting
        route.now (D.counts door.old).most events.now clients.new) }
    ensures costed { OnOk result (AreCosted B.exact route.now
        (record {
          clients = clients.old;
          outside = outside_of D.Door B.Watched door.old backend.old;
        })
        (record {
          clients = clients.new;
          outside = outside_of D.Door B.Watched door.new backend.new;
        })) }
    ensures played { OnOk result (ArePlayed W.World B.Session.Sitting B.exact route.now events.now 0
        (record {
          clients = clients.old;
          outside = outside_of D.Door B.Watched door.old backend.old;
        })
        (record {
          clients = clients.new;
          outside = outside_of D.Door B.Watched door.new backend.new;
        })) }
{
    connection_laws::<W, B::Session>();
    cost_laws::<W, B::Session>();
    let _ = route.parts();
    let mut now = 0u64;
    for event in events {
        play_event(alloc, route, event, backend, door, now, clients)?;
        now = now.saturating_add(seconds_of(event));
    }
    Ok(now)
}

/// The seconds by which an event moves the clock on.
fn seconds_of(event: &Event) -> u64
    ensures { result ≡ seconds_of event.now }
{
    match event {
        Event::Tick(seconds) => u64::from(*seconds),
        _ => 0,
    }
}

/// Plays an event of a client, or of a target; a tick does nothing more than to move the clock on.
fn play_event<W: World, B: Backend<W> + Events, D: Door<W, B::Session>>(
    alloc: Global,
    route: &Route,
    event: &Event,
    backend: &mut B,
    door: &mut D,
    now: u64,
    clients: &mut [Option<Client<W, B::Session>>],
) -> Result<(), Memory>
    requires { CanPlay W.World B.Session.Sitting
        route.now (D.counts door.old).most event.now clients.old }
    ensures most { (D.counts door.new).most ≡ (D.counts door.old).most }
    ensures played { OnOk result (IsPlayed W.World B.Session.Sitting B.exact route.now event.now now
        (record {
          clients = clients.old;
          outside = outside_of D.Door B.Watched door.old backend.old;
        })
        (record {
          clients = clients.new;
          outside = outside_of D.Door B.Watched door.new backend.new;
        })) }
{
    connection_laws::<W, B::Session>();
    match event.client() {
        Some(number) => {
            let place = number as usize - 1;
            play_client(alloc, route, event, backend, door, now, &mut clients[place])
        }
        None => befall(route, event, backend),
    }
}

/// Plays an event of a client, who is named by it.
fn play_client<W: World, B: Backend<W>, D: Door<W, B::Session>>(
    alloc: Global,
    route: &Route,
    event: &Event,
    backend: &mut B,
    door: &mut D,
    now: u64,
    place: &mut Option<Client<W, B::Session>>,
) -> Result<(), Memory>
    requires its { IsOfClient event.now }
    requires of { IsConnOf W.World B.Session.Sitting
        route.now (D.counts door.old).most (client_or_new place.old).conn }
    requires takes { CanTake event.now (client_or_new place.old) }
    ensures most { (D.counts door.new).most ≡ (D.counts door.old).most }
    ensures played { OnOk result (PlaysAt W.World B.Session.Sitting B.exact route.now
        event.now now place.old place.new
        (outside_of D.Door B.Watched door.old backend.old)
        (outside_of D.Door B.Watched door.new backend.new)) }
{
    name_client(alloc, place);
    match place {
        Some(client) => play_for(alloc, route, event, backend, door, now, client),
        None => unreachable!(),
    }
}

/// Plays an event for its client.
fn play_for<W: World, B: Backend<W>, D: Door<W, B::Session>>(
    alloc: Global,
    route: &Route,
    event: &Event,
    backend: &mut B,
    door: &mut D,
    now: u64,
    client: &mut Client<W, B::Session>,
) -> Result<(), Memory>
    requires its { IsOfClient event.now }
    requires of { IsConnOf W.World B.Session.Sitting
        route.now (D.counts door.old).most client.old.conn }
    requires takes { CanTake event.now client.old }
    ensures most { (D.counts door.new).most ≡ (D.counts door.old).most }
    ensures played { OnOk result (PlaysFor W.World B.Session.Sitting B.exact route.now
        event.now now client.old client.new
        (outside_of D.Door B.Watched door.old backend.old)
        (outside_of D.Door B.Watched door.new backend.new)) }
{
    match event {
        Event::Feed(_, octets) => client.feed(octets.as_slice()),
        Event::End(_) => {
            client.end_input();
            Ok(())
        }
        Event::Step(_) => {
            client.step(alloc, route, backend, door, now)?;
            Ok(())
        }
        Event::Run(_) => client.run(alloc, route, backend, door, now),
        _ => unreachable!(),
    }
}

/// What an event of no client makes happen to the links with a target.
fn befall<E: Events>(route: &Route, event: &Event, links: &mut E) -> Result<(), Memory>
    ensures { OnOk result (IsBefallen E.exact route.now event.now
        (backend_of E.Watched links.old) (backend_of E.Watched links.new)) }
{
    match event {
        Event::Gone(target, presents) => match test_number(route, *target) {
            Some(number) => links.gone(number, *presents),
            None => Ok(()),
        },
        Event::Cut(target) => match test_number(route, *target) {
            Some(number) => links.cut(number),
            None => Ok(()),
        },
        Event::Slow(target, looks) => match test_number(route, *target) {
            Some(number) => links.slow(number, *looks),
            None => Ok(()),
        },
        _ => Ok(()),
    }
}

/// The number of the test target at a place of the route.
fn test_number(route: &Route, place: u32) -> Option<u32>
    ensures { result ≡ test_number route.now place }
{
    match &route.parts().targets.get(place as usize)?.address {
        Address::Test(number) => Some(*number),
        Address::Tcp(_, _) | Address::Login(_, _) => None,
    }
}
