//! Units as they arrive over a link. Each octet is looked at once: the scan stands where it ended.

ghost use Rattle.std.specs.Prelude.{◌≡◌, [], false, true, IsSome};
ghost use Rattle.z_ber.specs.Due.{Stands};
ghost use Rattle.gw_outside.specs.Counts.{WireCounts};
ghost use Rattle.gw_outside.specs.Happened.{AreSame};
ghost use Rattle.gw_outside.specs.Wires.{LooksSteadily, look_counted};
ghost use Rattle.z_client.specs.Arrivals.{ArrivalFits, ArrivesBy, AwaitsSteadily, IsInFront, IsLooked, arrival_counted, looked_for};

use gw_outside::{Looked, Wire};
use std::alloc::Global;
use z_ber::{BerFault, Scan, stands_on};
use z_types::World;

/// What has arrived.
#[derive(Clone, Copy, PartialEq, Eq, Debug)]
pub enum Arrival {
    /// A unit: its number of octets.
    Unit(usize),
    /// No whole unit, and nothing at the last look.
    NotYet,
    /// Octets that begin with no unit, however they go on.
    Breach,
    /// The link is of no more use.
    Failed,
    /// No memory could be had.
    Memory,
}

/// Looks at a link until a unit or a breach stands in what has arrived, or nothing more arrives.
#[tactic(auto, using(crate::proofs::ArrivalLemmas::comes_first, crate::proofs::SteadyArrivals::awaited_first, crate::proofs::HappenedLemmas::same_self, crate::proofs::CountLemmas::uncounted))]
pub(crate) fn await_unit<W: World, N: Wire<W>>(
    wire: &mut N,
    alloc: Global,
    link: &mut N::Link,
    scan: &mut Scan,
) -> Arrival
    requires { Stands (N.Link.arrived link.old) scan.old.passed scan.old.opened }
    ensures fits { ArrivalFits (N.Link.arrived link.new) result }
    ensures peer { N.Link.arrived link.old ≡ [] → ArrivesBy N.exact (N.Link.peer link.old)
        (N.Link.peer link.new) (N.Link.arrived link.new)
        (N.counts wire.old) (N.counts wire.new) result }
    ensures scanned { result ≡ Arrival.NotYet
        → Stands (N.Link.arrived link.new) scan.new.passed scan.new.opened }
    ensures steady { N.Link.arrived link.old ≡ [] → IsSome (N.Link.peer link.old)
        → (N.happened wire.old).steady ≡ true
        → AwaitsSteadily N.Link.Linked (N.happened wire.old) link.old link.new result }
    ensures happened { AreSame (N.happened wire.old) (N.happened wire.new) }
    ensures counts { WireCounts false
        (arrival_counted result) (N.counts wire.old) (N.counts wire.new) }
{
    stands_on();
    for _ in 0..u64::MAX {
        if let Some(front) = in_front(scan, wire.arrived(link)) {
            return front;
        }
        if let Some(end) = look_again(wire, alloc, link) {
            return end;
        }
    }
    Arrival::Memory
}

/// What stands in front of octets that have arrived, if it is whole or can never be.
fn in_front(scan: &mut Scan, arrived: &[u8]) -> Option<Arrival>
    requires { Stands arrived.now scan.old.passed scan.old.opened }
    ensures front { IsInFront arrived.now result }
    ensures stands { Stands arrived.now scan.new.passed scan.new.opened }
{
    match scan.whole(arrived) {
        Ok(size) => Some(Arrival::Unit(size)),
        Err(BerFault::Short) => None,
        Err(_) => Some(Arrival::Breach),
    }
}

/// One look at a link: nothing where more has arrived.
fn look_again<W: World, N: Wire<W>>(
    wire: &mut N,
    alloc: Global,
    link: &mut N::Link,
) -> Option<Arrival>
    ensures looked { IsLooked (N.Link.peer link.old) (N.Link.peer link.new)
        (N.Link.arrived link.old) (N.Link.arrived link.new) result }
    ensures steady { LooksSteadily N.Link.Linked link.old link.new
        (N.happened wire.old) (N.happened wire.new) (looked_for result) }
    ensures happened { AreSame (N.happened wire.old) (N.happened wire.new) }
    ensures counts { WireCounts N.exact (look_counted (N.Link.peer link.old) (looked_for result))
        (N.counts wire.old) (N.counts wire.new) }
{
    match wire.look(alloc, link) {
        Looked::Arrived => None,
        Looked::NotYet => Some(Arrival::NotYet),
        Looked::Failed => Some(Arrival::Failed),
        Looked::Memory => Some(Arrival::Memory),
    }
}
