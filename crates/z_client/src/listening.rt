//! A look of a session at its link: what is heard of the unit that has arrived, or a breach.

ghost use Rattle.std.specs.Prelude.{◌≡◌, ◌≤◌, length, take, drop, Some, IfOk, OnOk, true, false};
ghost use Rattle.z_types.specs.Pending.{IsPending};
ghost use Rattle.gw_outside.specs.Happened.{AreSame};
ghost use Rattle.gw_outside.specs.Steady.{LooksSteadily};
ghost use Rattle.gw_outside.specs.Wires.{IsSameLink};
ghost use Rattle.z_client.specs.Links.{link_of};
ghost use Rattle.z_client.specs.Looks.{IsHeardIn, IsOwed, HasArrived, IsListened, FoundFits, FoundIn, FoundCounts, KeepsBreach, answer_of, heard_if_kept};
ghost use Rattle.z_client.specs.Sets.{made_in, pending_of};
ghost use Rattle.z_client.specs.TrueSession.{IsKept};

use crate::arrivals::{Arrival, await_unit};
use crate::found::Found;
use crate::hearing::heard_in;
use crate::session::LinkParts;
use crate::sets::{Waiting, keep};
use gw_outside::{Heard, Wire};
use std::alloc::Global;
use std::mem;
use z_ber::Scan;
use z_types::{Memory, Text, World};

/// Looks for the reply that a session waits for.
pub(crate) fn listen<W: World, N: Wire<W>>(
    wire: &mut N,
    alloc: Global,
    parts: &mut LinkParts<N::Link>,
) -> Found
    requires pending { IsPending (pending_of parts.old.waiting) }
    requires kept { IsKept W.World N.Link.Linked parts.old }
    ensures listened { IsListened W.World N.Link.Linked parts.old.address
        (made_in parts.old.made.items) (pending_of parts.old.waiting) parts.new (answer_of result) }
    ensures found { FoundFits (W.told parts.old.address)
        (pending_of parts.old.waiting) (N.Link.arrived parts.new.link) result }
    ensures owed { W.told parts.old.address → IsOwed (N.Link.peer parts.old.link)
        (pending_of parts.old.waiting) (answer_of result) }
    ensures steady { W.told parts.old.address → (N.happened wire.old).steady ≡ true
        → LooksSteadily false parts.old.address (N.happened wire.old)
        (link_of N.Link.Linked parts.old.link) (link_of N.Link.Linked parts.new.link)
        (answer_of result) }
    ensures happened { AreSame (N.happened wire.old) (N.happened wire.new) }
    ensures counts { FoundCounts N.exact result (N.counts wire.old) (N.counts wire.new) }
{
    let waiting = mem::replace(&mut parts.waiting, Waiting::Broken);
    match await_unit(wire, alloc, &mut parts.link, &mut parts.scan) {
        Arrival::Unit(size) => hear(wire, alloc, parts, waiting, size),
        Arrival::NotYet => {
            parts.waiting = waiting;
            Found::Heard(Heard::NotYet)
        }
        Arrival::Breach => {
            drop(waiting);
            breach(wire, alloc, &parts.link)
        }
        Arrival::Failed => {
            drop(waiting);
            Found::Heard(Heard::Failed)
        }
        Arrival::Memory => {
            drop(waiting);
            Found::Heard(Heard::Memory)
        }
    }
}

/// What is found of the unit of `size` octets that has arrived.
#[tactic(auto, using(crate::proofs::HappenedLemmas::same_self, crate::proofs::HappenedLemmas::same_again, crate::proofs::HappenedLemmas::same_link))]
fn hear<W: World, N: Wire<W>>(
    wire: &mut N,
    alloc: Global,
    parts: &mut LinkParts<N::Link>,
    waiting: Waiting,
    size: usize,
) -> Found
    requires { HasArrived W.World N.Link.Linked parts.old (pending_of waiting) size }
    ensures listened { IsListened W.World N.Link.Linked parts.old.address
        (made_in parts.old.made.items) (pending_of waiting) parts.new (answer_of result) }
    ensures found { FoundIn (W.told parts.old.address) (pending_of waiting)
        (take size (N.Link.arrived parts.old.link)) (N.Link.arrived parts.new.link) result }
    ensures link { IsSameLink N.Link.Linked parts.old.link parts.new.link }
    ensures happened { AreSame (N.happened wire.old) (N.happened wire.new) }
    ensures counts { N.counts wire.new ≡ N.counts wire.old }
{
    match unit_heard(wire, alloc, &parts.link, &waiting, size) {
        Ok(Some(heard)) => settle(wire, alloc, parts, waiting, heard, size),
        Ok(None) => {
            drop(waiting);
            breach(wire, alloc, &parts.link)
        }
        Err(_) => {
            drop(waiting);
            Found::Heard(Heard::Memory)
        }
    }
}

/// What is heard of the unit of `size` octets that has arrived.
fn unit_heard<W: World, N: Wire<W>>(
    wire: &N,
    alloc: Global,
    link: &N::Link,
    waiting: &Waiting,
    size: usize,
) -> Result<Option<Heard>, Memory>
    requires { size ≤ length (N.Link.arrived link.now) }
    ensures { IfOk result (λ heard. IsHeardIn
        (pending_of waiting.now) (take size (N.Link.arrived link.now)) heard) }
{
    let arrived = wire.arrived(link);
    heard_in(alloc, waiting, &arrived[..size])
}

/// Keeps what was heard of a unit, and lets the session rest. Where a result set is gone the octets that
/// had arrived are kept.
#[tactic(auto, using(crate::proofs::HappenedLemmas::same_self, crate::proofs::HappenedLemmas::same_again, crate::proofs::HappenedLemmas::same_link))]
fn settle<W: World, N: Wire<W>>(
    wire: &mut N,
    alloc: Global,
    parts: &mut LinkParts<N::Link>,
    waiting: Waiting,
    heard: Heard,
    size: usize,
) -> Found
    requires arrived { HasArrived W.World N.Link.Linked parts.old (pending_of waiting) size }
    requires said { IsHeardIn (pending_of waiting)
        (take size (N.Link.arrived parts.old.link)) (Some heard) }
    ensures listened { IsListened W.World N.Link.Linked parts.old.address
        (made_in parts.old.made.items) (pending_of waiting) parts.new (answer_of result) }
    ensures found { FoundIn (W.told parts.old.address) (pending_of waiting)
        (take size (N.Link.arrived parts.old.link)) (N.Link.arrived parts.new.link) result }
    ensures link { IsSameLink N.Link.Linked parts.old.link parts.new.link }
    ensures happened { AreSame (N.happened wire.old) (N.happened wire.new) }
    ensures counts { N.counts wire.new ≡ N.counts wire.old }
{
    if let Heard::Gone = heard {
        drop(heard);
        return settle_gone(wire, alloc, parts, waiting, size);
    }
    match rest(wire, parts, waiting, &heard, size) {
        Ok(()) => Found::Heard(heard),
        Err(_) => {
            drop(heard);
            Found::Heard(Heard::Memory)
        }
    }
}

/// The same where a result set is gone.
#[tactic(auto, using(crate::proofs::HappenedLemmas::same_self, crate::proofs::HappenedLemmas::same_again, crate::proofs::HappenedLemmas::same_link))]
fn settle_gone<W: World, N: Wire<W>>(
    wire: &mut N,
    alloc: Global,
    parts: &mut LinkParts<N::Link>,
    waiting: Waiting,
    size: usize,
) -> Found
    requires arrived { HasArrived W.World N.Link.Linked parts.old (pending_of waiting) size }
    requires said { IsHeardIn (pending_of waiting)
        (take size (N.Link.arrived parts.old.link)) (Some Heard.Gone) }
    ensures listened { IsListened W.World N.Link.Linked parts.old.address
        (made_in parts.old.made.items) (pending_of waiting) parts.new (answer_of result) }
    ensures found { FoundIn (W.told parts.old.address) (pending_of waiting)
        (take size (N.Link.arrived parts.old.link)) (N.Link.arrived parts.new.link) result }
    ensures link { IsSameLink N.Link.Linked parts.old.link parts.new.link }
    ensures happened { AreSame (N.happened wire.old) (N.happened wire.new) }
    ensures counts { N.counts wire.new ≡ N.counts wire.old }
{
    let Ok(octets) = Text::copy_of(alloc, wire.arrived(&parts.link)) else {
        drop(waiting);
        return Found::Heard(Heard::Memory);
    };
    match rest(wire, parts, waiting, &Heard::Gone, size) {
        Ok(()) => Found::Gone(octets),
        Err(_) => Found::Heard(Heard::Memory),
    }
}

/// Keeps what was heard, drops the unit, and lets the session rest.
#[tactic(auto, using(crate::proofs::HappenedLemmas::same_self, crate::proofs::HappenedLemmas::same_again, crate::proofs::HappenedLemmas::same_link))]
fn rest<W: World, N: Wire<W>>(
    wire: &mut N,
    parts: &mut LinkParts<N::Link>,
    waiting: Waiting,
    heard: &Heard,
    size: usize,
) -> Result<(), Memory>
    requires arrived { HasArrived W.World N.Link.Linked parts.old (pending_of waiting) size }
    requires said { IsHeardIn (pending_of waiting)
        (take size (N.Link.arrived parts.old.link)) (Some heard.now) }
    ensures listened { IsListened W.World N.Link.Linked parts.old.address
        (made_in parts.old.made.items) (pending_of waiting) parts.new
        (heard_if_kept result heard.now) }
    ensures left { OnOk result
        (N.Link.arrived parts.new.link ≡ drop size (N.Link.arrived parts.old.link)) }
    ensures link { IsSameLink N.Link.Linked parts.old.link parts.new.link }
    ensures happened { AreSame (N.happened wire.old) (N.happened wire.new) }
    ensures counts { N.counts wire.new ≡ N.counts wire.old }
{
    keep(&mut parts.made, waiting, heard)?;
    wire.consume(&mut parts.link, size);
    parts.scan = Scan::start();
    parts.waiting = Waiting::Nothing;
    Ok(())
}

/// The octets that had arrived at a breach.
fn breach<W: World, N: Wire<W>>(wire: &N, alloc: Global, link: &N::Link) -> Found
    ensures { KeepsBreach (N.Link.arrived link.now) result }
{
    match Text::copy_of(alloc, wire.arrived(link)) {
        Ok(octets) => Found::Breach(octets),
        Err(_) => Found::Heard(Heard::Memory),
    }
}
