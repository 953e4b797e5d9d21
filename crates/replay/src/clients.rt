//! The clients of a replay: a place for each, that of client 1 first, with the client once it is named.

ghost use Rattle.std.specs.Prelude.{◌≡◌, IfOk, Some, length};
ghost use Rattle.replay.specs.Clients.{AreNone, client_or_new};

use crate::client::Client;
use pool_sets::Door;
use std::alloc::Global;
use z_types::{Memory, Sitting, World};

/// Places without a client.
pub(crate) fn no_clients<W: World, S: Sitting<W>>(
    alloc: Global,
    count: usize,
) -> Result<Vec<Option<Client<W, S>>>, Memory>
    ensures count { IfOk result (λ clients. length clients.items ≡ count) }
    ensures none { IfOk result (λ clients. AreNone clients.items) }
{
    let mut clients = Vec::new(alloc);
    'empty: while clients.len() < count {
        clients.push(None)?;
    }
    Ok(clients)
}

/// Names the client of a place, which is there from now on.
pub(crate) fn name_client<W: World, S: Sitting<W>>(alloc: Global, place: &mut Option<Client<W, S>>)
    ensures { place.new ≡ Some (client_or_new place.old) }
{
    if place.is_some() {
        return;
    }
    let _none = place.replace(Client::new(alloc));
}

/// Gives up what is out for each client.
pub(crate) fn give_up_all<W: World, S: Sitting<W>, D: Door<W, S>>(
    clients: &mut [Option<Client<W, S>>],
    door: &mut D,
) {
    for client in clients {
        give_up_client(client, door);
    }
}

/// Gives up what is out for a client, where there is one.
fn give_up_client<W: World, S: Sitting<W>, D: Door<W, S>>(
    client: &mut Option<Client<W, S>>,
    door: &mut D,
) {
    if let Some(client) = client {
        client.give_up(door);
    }
}
