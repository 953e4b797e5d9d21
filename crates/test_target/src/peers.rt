//! The target's end of a link.

ghost use Rattle.std.specs.Prelude.{◌≡◌, [], None, IfOk, OnOk, true};
ghost use Rattle.z_types.specs.Logins.{inside};
ghost use Rattle.test_target.specs.World.{number_inside};
ghost use Rattle.z_types.specs.declared.replies.Reply.TheVariants as GivenReply;
ghost use Rattle.z_types.specs.declared.address.Address.TheVariants as At;
ghost use Rattle.gw_outside.specs.Peers.{IsPeerStep, held, login_after};
ghost use Rattle.std.specs.Option.{option_copied};
ghost use Rattle.test_target.specs.Peer.{agreed, without, reply_to, sets_after, close_reply};

use crate::presents::present_reply;
use crate::scan_replies::scan_reply;
use crate::searches::search_reply;
use crate::worlds::{TestWorld, number_inside};
use std::alloc::Global;
use z_types::{
    Close, Init, MOST_UNIT_OCTETS, Memory, OWN_OPTIONS, OWN_VERSIONS, Reply, Request, SetKey, Text,
    World, copy,
};

/// The peer of a test target: its number, the login of the last Init, if that had one, and the result sets
/// that it holds.
#[derive(Drop)]
pub struct Peer {
    /// The target's number.
    pub target: u32,
    /// The login by which it answers.
    pub login: Option<Text>,
    /// The sets, each under its name.
    pub sets: Vec<(Text, SetKey)>,
}

impl Peer {
    /// The peer of a target that holds no set.
    pub fn new(alloc: Global, target: u32) -> Peer
        ensures target { result.target ≡ target }
        ensures login { result.login ≡ None }
        ensures sets { result.sets.items ≡ [] }
    {
        Peer {
            target,
            login: None,
            sets: Vec::new(alloc),
        }
    }

    /// The set of a name.
    pub(crate) fn held(&self, name: &Text) -> Option<&SetKey>
        ensures { option_copied result ≡ held self.now.sets.items name.now }
    {
        for set in self.sets.as_slice() {
            if set.0 == *name {
                return Some(&set.1);
            }
        }
        None
    }

    /// Forgets the set of a name.
    pub(crate) fn remove(&mut self, name: &Text)
        ensures target { self.new.target ≡ self.old.target }
        ensures login { self.new.login ≡ self.old.login }
        ensures sets { self.new.sets.items ≡ without name.now self.old.sets.items }
    {
        self.sets.retain(|set| set.0 != *name);
    }
}

/// The reply of a peer to a request, and what it holds then: a step of a target that answers as the world
/// of the test targets says.
pub fn peer_step(alloc: Global, peer: &mut Peer, request: &Request) -> Result<Reply, Memory>
    ensures reply { IfOk result (λ reply. reply
        ≡ reply_to (number_inside peer.old.login peer.old.target) peer.old.sets.items request.now) }
    ensures sets { OnOk result (peer.new.sets.items
        ≡ sets_after (number_inside peer.old.login peer.old.target)
        peer.old.sets.items request.now) }
    ensures step { IfOk result (λ reply. IsPeerStep ⟦<TestWorld as World>⟧
        (inside peer.old.login (At.Test peer.old.target))
        request.now peer.old.sets.items peer.new.sets.items reply) }
    ensures login { IfOk result
        (λ reply. peer.new.login ≡ login_after peer.old.login request.now reply) }
    ensures target { peer.new.target ≡ peer.old.target }
{
    let number = number_inside(peer.target, &peer.login)?;
    answer(alloc, peer, number, request)
}

/// The reply by the kind of the request, of a target that answers as that of this number.
fn answer(alloc: Global, peer: &mut Peer, number: u32, request: &Request) -> Result<Reply, Memory>
    ensures reply { IfOk result
        (λ reply. reply ≡ reply_to number peer.old.sets.items request.now) }
    ensures sets { OnOk result (peer.new.sets.items
        ≡ sets_after number peer.old.sets.items request.now) }
    ensures login { IfOk result
        (λ reply. peer.new.login ≡ login_after peer.old.login request.now reply) }
    ensures target { peer.new.target ≡ peer.old.target }
{
    match request {
        Request::Init(init) => init_taken(peer, init),
        Request::Search(search) => search_reply(alloc, peer, number, search),
        Request::Present(present) => present_reply(alloc, peer, number, present),
        Request::Scan(scan) => scan_reply(alloc, number, scan),
        Request::Close(close) => close_reply(close),
    }
}

/// The reply to an Init, by whose login the peer answers from now on.
fn init_taken(peer: &mut Peer, init: &Init) -> Result<Reply, Memory>
    ensures reply { IfOk result (λ reply. reply ≡ GivenReply.Init (agreed init.now) true) }
    ensures login { OnOk result (peer.new.login ≡ init.now.login) }
    ensures target { peer.new.target ≡ peer.old.target }
    ensures sets { peer.new.sets ≡ peer.old.sets }
{
    let reply = init_reply(init)?;
    peer.login = copy(&init.login)?;
    Ok(reply)
}

/// The reply to an Init, which is accepted.
fn init_reply(init: &Init) -> Result<Reply, Memory>
    ensures { IfOk result (λ reply. reply ≡ GivenReply.Init (agreed init.now) true) }
{
    Ok(Reply::Init {
        init: Init {
            ref_id: copy(&init.ref_id)?,
            versions: init.versions & OWN_VERSIONS,
            options: init.options & OWN_OPTIONS,
            preferred: init.preferred.min(MOST_UNIT_OCTETS as u32),
            exceptional: init.exceptional.min(MOST_UNIT_OCTETS as u32),
            login: None,
        },
        result: true,
    })
}

/// The reply to a Close.
fn close_reply(close: &Close) -> Result<Reply, Memory>
    ensures { IfOk result (λ reply. reply ≡ close_reply close.now) }
{
    Ok(Reply::Close(Close {
        ref_id: copy(&close.ref_id)?,
        reason: 0,
        info: None,
    }))
}
