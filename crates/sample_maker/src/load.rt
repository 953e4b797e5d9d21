//! The events of a load.

ghost use Rattle.std.specs.Prelude.{◌≡◌, ◌≤◌, ◌++◌, ℕ, IfOk, OnOk};
ghost use Rattle.script.specs.Events.{AreEvents, most_clients};
ghost use Rattle.sample_maker.specs.Load.{client_events, letter_of, load_events, octets_for};

use crate::requests::{close_request, init_request, present_request, search_request};
use script::Event;
use std::alloc::Global;
use z_types::{List, Memory, Text};
use z_write::put_request;

/// How many letters clients search for in turn.
const LETTERS: u32 = 5;

/// The events of the clients 1 to this number, in ascending order. Each is fed an Init, a Search for the
/// letter `a`, `b`, `c`, `d` or `e` in turn, a Present and a Close, and is then run. Of at most 10000
/// clients these are events that a script may have, whatever targets there are; more have no numbers in
/// scripts.
pub fn make(alloc: Global, clients: u32) -> Result<List<Event>, Memory>
    ensures events { IfOk result (λ events. events ≡ load_events clients) }
    ensures playable { clients ≤ most_clients
        → IfOk result (λ events. (targets : ℕ) → AreEvents targets events) }
{
    let mut events = List::new(alloc);
    for place in 0..clients {
        put_client(alloc, &mut events, place + 1)?;
    }
    Ok(events)
}

/// Puts the events of a client behind others.
fn put_client(alloc: Global, events: &mut List<Event>, client: u32) -> Result<(), Memory>
    requires { 1 ≤ client }
    ensures { OnOk result (events.new ≡ events.old ++ client_events client) }
{
    let octets = octets_for(alloc, letter_of(client))?;
    events.push(Event::Feed(client, octets))?;
    events.push(Event::Run(client))
}

/// The letter that a client searches for.
fn letter_of(client: u32) -> u8
    requires { 1 ≤ client }
    ensures { result ≡ letter_of client }
{
    b'a' + ((client - 1) % LETTERS) as u8
}

/// All requests of a client that searches for a letter, in their written form.
fn octets_for(alloc: Global, letter: u8) -> Result<Text, Memory>
    ensures { IfOk result (λ octets. octets ≡ octets_for letter) }
{
    let mut octets = Text::new(alloc);
    put_request(alloc, &mut octets, &init_request())?;
    put_request(alloc, &mut octets, &search_request(alloc, letter)?)?;
    put_request(alloc, &mut octets, &present_request(alloc)?)?;
    put_request(alloc, &mut octets, &close_request())?;
    Ok(octets)
}
