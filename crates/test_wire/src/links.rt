//! A link with a test target.

ghost use Rattle.std.specs.Prelude.{◌≡◌, true, OnOk, OnErr};
ghost use Rattle.gw_outside.specs.Happened.{AreSame, AreLess, IsMade, sets_found, happening_after};
ghost use Rattle.gw_outside.specs.Peers.{TakesRequest};
ghost use Rattle.test_wire.specs.Happened.{happening_of, happened_in};
ghost use Rattle.test_wire.specs.Links.{HasTaken, peer_of, delays_of};

use crate::happenings::Happenings;
use crate::owed::Owed;
use bytes::BytesMut;
use gw_outside::{Happening, Linked};
use std::alloc::Global;
use test_target::{Peer, TestWorld, peer_step};
use z_types::{Memory, Request, World};

/// A link with a test target: the target's end, the number of its dial, the octets that have arrived and
/// the replies that have not.
#[derive(Drop)]
pub struct TestLink {
    pub(crate) peer: Peer,
    pub(crate) number: u64,
    pub(crate) arrived: BytesMut<Global>,
    pub(crate) owed: Vec<Owed>,
}

impl Linked for TestLink {
    ghost use Rattle.std.specs.Prelude.{Some, true};

    ghost arrived = { λ link. link.arrived.items };

    ghost peer = { λ link. Some (peer_of link.peer link.owed.items) };

    ghost number = { λ link. link.number };

    ghost delays = { λ link. delays_of link.owed.items };

    ghost exact = { true };
}

impl TestLink {
    /// Hands a request to the target's end, and owes its reply.
    #[tactic(auto, using(crate::proofs::WireLemmas::asked_less, crate::proofs::WireLemmas::same_less))]
    pub(crate) fn take(
        &mut self,
        alloc: Global,
        happenings: &mut Happenings,
        request: &Request,
    ) -> Result<(), Memory>
        ensures taken { OnOk result (HasTaken
            (happening_of happenings.old.table self.old.peer.target) request.now
            self.old.peer self.new.peer self.old.owed.items self.new.owed.items) }
        ensures peer { OnOk result (TakesRequest ⟦<TestWorld as World>⟧ true (sets_found
            (happening_of happenings.old.table self.old.peer.target) request.now
            self.old.peer.sets.items) request.now
            (peer_of self.old.peer self.old.owed.items)
            (peer_of self.new.peer self.new.owed.items)) }
        ensures happened { OnOk result (IsMade self.old.peer.target
            (λ happening. happening_after happening request.now)
            (happened_in happenings.old.table) (happened_in happenings.new.table)) }
        ensures less { AreLess
            (happened_in happenings.old.table) (happened_in happenings.new.table) }
        ensures arrived { self.new.arrived ≡ self.old.arrived }
        ensures number { self.new.number ≡ self.old.number }
    {
        let happening = happenings.of(self.peer.target);
        find_sets(happenings, &mut self.peer, happening, request)?;
        let reply = peer_step(alloc, &mut self.peer, request)?;
        self.owed.push(Owed::new(alloc, reply, happening.delay)?)?;
        Ok(())
    }
}

/// Leaves the sets that a request finds, and counts a Present that finds none.
fn find_sets(
    happenings: &mut Happenings,
    peer: &mut Peer,
    happening: Happening,
    request: &Request,
) -> Result<(), Memory>
    requires { happening ≡ happening_of happenings.old.table peer.old.target }
    ensures target { peer.new.target ≡ peer.old.target }
    ensures login { peer.new.login ≡ peer.old.login }
    ensures sets { OnOk result
        (peer.new.sets.items ≡ sets_found happening request.now peer.old.sets.items) }
    ensures happened { OnOk result (IsMade peer.old.target
        (λ happening. happening_after happening request.now)
        (happened_in happenings.old.table) (happened_in happenings.new.table)) }
    ensures err { OnErr result
        (AreSame (happened_in happenings.old.table) (happened_in happenings.new.table)) }
{
    if let Request::Present(_) = request {
        if 0 < happening.presents {
            happenings.put(
                peer.target,
                Happening {
                    presents: happening.presents - 1,
                    ..happening
                },
            )?;
            peer.sets.clear();
        }
    }
    Ok(())
}
