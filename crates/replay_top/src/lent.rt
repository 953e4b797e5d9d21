//! A wire that is lent.

ghost use Rattle.std.specs.Prelude.{◌≡◌};

use gw_outside::{Dialled, Events, Looked, Sent, Watched, Wire};
use std::alloc::Global;
use z_types::{Address, Memory, World};

/// A wire that another owns. It tells by which reference it is lent, and that stays the same: so what
/// becomes of it becomes of its owner's.
#[derive(Drop)]
pub(crate) struct LentWire<'a, N> {
    pub(crate) wire: &'a mut N,
}

impl<'a, N> LentWire<'a, N> {
    /// This wire.
    pub(crate) fn new(wire: &'a mut N) -> LentWire<'a, N>
        ensures same_reference { result.wire.ghost_name ≡ wire.entry.ghost_name }
        ensures wire { result.wire.now ≡ wire.old }
    {
        LentWire { wire }
    }
}

impl<N: Watched> Watched for LentWire<'_, N> {
    ghost use Rattle.replay_top.specs.Lent.{lent_by};

    ghost counts = { λ lent. N.counts lent.wire.now };

    ghost exact = { N.exact };

    ghost happened = { λ lent. lent_by lent.wire.ghost_name (N.happened lent.wire.now) };
}

impl<W: World, N: Wire<W>> Wire<W> for LentWire<'_, N> {
    type Link = N::Link;

    ghost exact_links = { N.exact_links };

    #[tactic(auto, using(crate::proofs::LentLemmas::lent_same))]
    fn dial(&mut self, alloc: Global, address: &Address) -> Dialled<N::Link> {
        self.wire.dial(alloc, address)
    }

    #[tactic(auto, using(crate::proofs::LentLemmas::lent_fits))]
    fn send(&mut self, alloc: Global, link: &mut N::Link, unit: &[u8]) -> Sent {
        self.wire.send(alloc, link, unit)
    }

    #[tactic(auto, using(crate::proofs::LentLemmas::lent_looks))]
    fn look(&mut self, alloc: Global, link: &mut N::Link) -> Looked {
        self.wire.look(alloc, link)
    }

    fn arrived<'b>(&self, link: &'b N::Link) -> &'b [u8] {
        self.wire.arrived(link)
    }

    #[tactic(auto, using(crate::proofs::LentLemmas::lent_same))]
    fn consume(&mut self, link: &mut N::Link, count: usize) {
        self.wire.consume(link, count);
    }
}

impl<N: Events> Events for LentWire<'_, N> {
    #[tactic(auto, using(crate::proofs::LentLemmas::lent_made_if, crate::proofs::LentLemmas::lent_same_if))]
    fn gone(&mut self, target: u32, presents: u32) -> Result<(), Memory> {
        self.wire.gone(target, presents)
    }

    #[tactic(auto, using(crate::proofs::LentLemmas::lent_cut_if, crate::proofs::LentLemmas::lent_same_if))]
    fn cut(&mut self, target: u32) -> Result<(), Memory> {
        self.wire.cut(target)
    }

    #[tactic(auto, using(crate::proofs::LentLemmas::lent_made_if, crate::proofs::LentLemmas::lent_same_if))]
    fn slow(&mut self, target: u32, looks: u32) -> Result<(), Memory> {
        self.wire.slow(target, looks)
    }
}
