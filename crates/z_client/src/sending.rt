//! What a session sends: its Init over a new link, and what it is asked.

ghost use Rattle.std.specs.Prelude.{◌≡◌, Bool, true, false};
ghost use Rattle.z_types.specs.Logins.{inner, login_of};
ghost use Rattle.z_types.specs.Pending.{resting};
ghost use Rattle.gw_outside.specs.Asks.{MayAsk};
ghost use Rattle.gw_outside.specs.Counts.{WireCounts};
ghost use Rattle.gw_outside.specs.Happened.{AreLess, at_address};
ghost use Rattle.gw_outside.specs.Peers.{IsShortRequest};
ghost use Rattle.gw_outside.specs.Sessions.{IfSession, OpenHappens, open_counted, start_counted, pending_from};
ghost use Rattle.gw_outside.specs.Steady.{OpensSteadily, AsksSteadily};
ghost use Rattle.gw_outside.specs.Wires.{IsNewLink, IsRequestUnit};
ghost use Rattle.z_client.specs.Links.{link_of};
ghost use Rattle.z_client.specs.Sets.{made_in, pending_of};
ghost use Rattle.z_client.specs.TrueSession.{IsNewLinkParts, IsKept, IsTrueSession};
ghost use Rattle.z_client.specs.Units.{init_request, request_of, Takes, TookInit};

use crate::session::{LinkParts, ZSession};
use crate::sets::Waiting;
use gw_outside::{Began, Opening, Sent, Wire};
use std::alloc::Global;
use std::marker::PhantomData;
use z_ber::Scan;
use z_types::{Address, Ask, Sitting, Text, World};

/// Sends the Init over a new link to the inner address, with the login of the address.
pub(crate) fn greet<W: World, N: Wire<W>>(
    wire: &mut N,
    alloc: Global,
    mut link: N::Link,
    address: Address,
    unit: &Text,
) -> Opening<ZSession<W, N::Link>>
    requires link { IsNewLink W.World N.Link.Linked N.exact
        (inner address) (N.counts wire.old) link }
    requires unit { IsRequestUnit unit.now (init_request (login_of address)) }
    ensures session { IfSession result (IsNewLinkParts address) }
    ensures sent { IfSession result
        (λ s. TookInit W.World (N.happened wire.old) address (N.Link.peer s.link)) }
    ensures steady { W.told address → (N.happened wire.old).steady ≡ true
        → OpensSteadily ⟦<ZSession<W, N::Link> as Sitting<W>>⟧ N.exact
        (at_address (N.happened wire.old) address) (N.counts wire.new).dials result }
    ensures linked { (linked : Bool) → result ≡ Opening.Failed linked → linked ≡ true }
    ensures happened { OpenHappens result (N.happened wire.old) (N.happened wire.new) }
    ensures counts { WireCounts N.exact
        (record (open_counted result) { dial = false }) (N.counts wire.old) (N.counts wire.new) }
{
    match wire.send(alloc, &mut link, unit.as_slice()) {
        Sent::Sent => Opening::Session(ZSession {
            parts: LinkParts {
                link,
                scan: Scan::start(),
                address,
                made: Vec::new(alloc),
                waiting: Waiting::Opening,
            },
            world: PhantomData,
        }),
        Sent::Failed => Opening::Failed { linked: true },
        Sent::Memory => Opening::Memory,
    }
}

/// Sends the unit of what a session that rests is asked.
pub(crate) fn send_ask<W: World, N: Wire<W>>(
    wire: &mut N,
    alloc: Global,
    parts: &mut LinkParts<N::Link>,
    ask: Ask,
    unit: &Text,
) -> Began
    requires rests { pending_of parts.old.waiting ≡ resting }
    requires kept { IsKept W.World N.Link.Linked parts.old }
    requires may { MayAsk (made_in parts.old.made.items) ask }
    requires unit { IsRequestUnit unit.now (request_of ask) }
    requires short { IsShortRequest (request_of ask) }
    ensures pending { pending_of parts.new.waiting ≡ pending_from ask result }
    ensures made { parts.new.made.items ≡ parts.old.made.items }
    ensures address { parts.new.address ≡ parts.old.address }
    ensures kept { IsTrueSession W.World N.Link.Linked parts.new }
    ensures sent { result ≡ Began.Started → Takes W.World (N.happened wire.old)
        (request_of ask) (N.Link.peer parts.old.link) (N.Link.peer parts.new.link) }
    ensures steady { W.told parts.old.address → (N.happened wire.old).steady ≡ true
        → AsksSteadily W.World false parts.old.address ask
        (link_of N.Link.Linked parts.old.link) (link_of N.Link.Linked parts.new.link)
        (N.happened wire.old) (N.happened wire.new) result }
    ensures happened { AreLess (N.happened wire.old) (N.happened wire.new) }
    ensures counts { WireCounts N.exact
        (start_counted ask result) (N.counts wire.old) (N.counts wire.new) }
{
    parts.waiting = Waiting::Broken;
    match wire.send(alloc, &mut parts.link, unit.as_slice()) {
        Sent::Sent => {
            parts.waiting = Waiting::Answer(ask);
            Began::Started
        }
        Sent::Failed => {
            drop(ask);
            Began::Failed
        }
        Sent::Memory => {
            drop(ask);
            Began::Memory
        }
    }
}
