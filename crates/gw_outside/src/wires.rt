//! Links with targets, over which octets go both ways.

ghost use Rattle.std.specs.Prelude.{◌≡◌, ◌≤◌, length, drop, true, None};
ghost use Rattle.z_types.specs.Logins.{login_of};
ghost use Rattle.gw_outside.specs.Counts.{WireCounts};
ghost use Rattle.gw_outside.specs.Happened.{AreSame};
ghost use Rattle.gw_outside.specs.Wires.{IfLink, IsNewLink, IsSameLink, SendFits, LookFits, SendsSteadily, LooksSteadily, SendCounts, dial_counted, look_counted};

use crate::{Linked, Watched};
use std::alloc::Global;
use z_types::{Address, World};

/// What a dial gave.
#[derive(Drop)]
pub enum Dialled<L> {
    /// A new link.
    Link(L),
    /// There is no link, and the count of faults rose.
    Failed,
    /// No memory could be had.
    Memory,
}

/// What became of a unit that was to be sent.
#[derive(Clone, Copy, PartialEq, Eq, Debug)]
pub enum Sent {
    /// It was sent whole.
    Sent,
    /// It was not, and the count of faults rose. The link is of no more use.
    Failed,
    /// No memory could be had. The link is of no more use.
    Memory,
}

/// What a look at a link found.
#[derive(Clone, Copy, PartialEq, Eq, Debug)]
pub enum Looked {
    /// Octets arrived.
    Arrived,
    /// Nothing arrived at this look.
    NotYet,
    /// The link is of no more use, and the count of faults rose.
    Failed,
    /// No memory could be had. The link is of no more use.
    Memory,
}

/// Links with the targets of a world. Where an address is told its links tell their peers.
///
/// A link is dialled, sent units, and looked at; octets that arrived are lent and consumed. Once a send
/// or a look on it answered `Failed` or `Memory` it is dropped.
pub trait Wire<W: World>: Watched {
    /// One link.
    type Link: Linked;

    /// Makes a link to an address. It fails at one inside a login, and a steady wire fails at no other that
    /// is told.
    fn dial(&mut self, alloc: Global, address: &Address) -> Dialled<Self::Link>
        ensures link { IfLink result (IsNewLink W.World Self.Link.Linked
            Self.exact address.now (Self.counts self.new)) }
        ensures fails { result ≡ Dialled.Failed
            → (Self.happened self.old).steady ≡ true → login_of address.now ≡ None
            → ¬ W.told address.now }
        ensures happened { AreSame (Self.happened self.old) (Self.happened self.new) }
        ensures counts { WireCounts Self.exact
            (dial_counted result) (Self.counts self.old) (Self.counts self.new) };

    /// Sends one unit over a link.
    fn send(&mut self, alloc: Global, link: &mut Self::Link, unit: &[u8]) -> Sent
        ensures arrived { Self.Link.arrived link.new ≡ Self.Link.arrived link.old }
        ensures peer { SendFits W.World unit.now (Self.happened self.old)
            (Self.Link.peer link.old) (Self.Link.peer link.new) result }
        ensures steady { SendsSteadily Self.Link.Linked unit.now link.old link.new
            (Self.happened self.old) (Self.happened self.new) result }
        ensures counts { SendCounts Self.exact unit.now
            result (Self.counts self.old) (Self.counts self.new) };

    /// Looks whether octets have arrived.
    fn look(&mut self, alloc: Global, link: &mut Self::Link) -> Looked
        ensures fits { LookFits (Self.Link.peer link.old) (Self.Link.peer link.new)
            (Self.Link.arrived link.old) (Self.Link.arrived link.new) result }
        ensures steady { LooksSteadily Self.Link.Linked link.old link.new
            (Self.happened self.old) (Self.happened self.new) result }
        ensures counts { WireCounts Self.exact (look_counted (Self.Link.peer link.old) result)
            (Self.counts self.old) (Self.counts self.new) };

    /// The octets that arrived and are not consumed.
    fn arrived<'a>(&self, link: &'a Self::Link) -> &'a [u8]
        ensures { result.now ≡ Self.Link.arrived link.now };

    /// Drops the first of them, at most as many as there are.
    fn consume(&mut self, link: &mut Self::Link, count: usize)
        requires { count ≤ length (Self.Link.arrived link.old) }
        ensures arrived { Self.Link.arrived link.new ≡ drop count (Self.Link.arrived link.old) }
        ensures link { IsSameLink Self.Link.Linked link.old link.new }
        ensures happened { AreSame (Self.happened self.old) (Self.happened self.new) }
        ensures counts { Self.counts self.new ≡ Self.counts self.old };

    /// An exact wire has exact links.
    ghost exact_links: { Self.exact ≡ true → Self.Link.exact ≡ true };
}
