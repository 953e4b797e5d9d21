//! A steady wire to the test targets: links fail where they are cut, and nowhere else.

ghost use Rattle.std.specs.Prelude.{None};
ghost use Rattle.z_types.specs.Logins.{login_of};
ghost use Rattle.std.specs.Prelude.{◌≡◌, ◌≤◌, false, true, drop, length, OnOk, OnErr};
ghost use Rattle.z_types.specs.declared.address.Address.TheVariants as At;
ghost use Rattle.z_types.specs.Counts.{one_more};
ghost use Rattle.gw_outside.specs.Counts.{WireCounts, after, no_counts, nothing};
ghost use Rattle.gw_outside.specs.Happened.{AreSame, AreLess, AreCut, IsAsked, IsMade, IsQuietWire, is_cut, sets_found};
ghost use Rattle.gw_outside.specs.Peers.{TakesRequest};
ghost use Rattle.gw_outside.specs.Replies as Said;
ghost use Rattle.gw_outside.specs.Wires.{IfLink, IsNewLink, IsSameLink, IsReplyUnit, SendFits, LookFits, SendsSteadily, LooksSteadily, SendCounts, dial_counted, send_counted, look_counted};
ghost use Rattle.test_wire.specs.Happened.{happening_of};
ghost use Rattle.test_wire.specs.Links.{peer_of, HasTaken, SendTakes, FindsNext, HasArrived, brings_gone, has_not_sent, has_not_looked};
ghost use Rattle.test_wire.specs.Steady.{counts_in, happened_in_all};

use crate::happenings::Happenings;
use crate::links::TestLink;
use crate::owed::{Owed, next_reply};
use bytes::BytesMut;
use gw_outside::{Dialled, Events, Happening, Linked, Looked, Sent, Watched, Wire};
use std::alloc::Global;
use test_target::{Peer, TestWorld};
use z_read::read_unit;
use z_types::{Address, Body, Memory, Reply, Request, World};

/// A wire to the built-in test targets that fails at every other address, and on links that are cut.
#[derive(Drop)]
pub(crate) struct SteadyWire {
    happenings: Happenings,
    dials: u64,
    searches: u64,
    gones: u64,
    faults: u64,
    waits: u64,
}

impl SteadyWire {
    /// A quiet wire: without links, and nothing is made to happen to any target. It counted nothing.
    pub(crate) fn new(alloc: Global) -> SteadyWire
        ensures counts { counts_in result ≡ no_counts }
        ensures quiet { IsQuietWire (counts_in result) (happened_in_all result) }
    {
        SteadyWire {
            happenings: Happenings::new(alloc),
            dials: 0,
            searches: 0,
            gones: 0,
            faults: 0,
            waits: 0,
        }
    }

    /// Counts a call that fails for another cause.
    pub(crate) fn count_fault(&mut self)
        ensures counts { WireCounts true (record nothing { fault = true })
            (counts_in self.old) (counts_in self.new) }
        ensures happenings { self.new.happenings ≡ self.old.happenings }
    {
        self.faults = self.faults.saturating_add(1);
    }

    /// Whether a link is cut.
    fn is_cut(&self, link: &TestLink) -> bool
        ensures { result ≡ is_cut
            (happening_of self.now.happenings.table link.now.peer.target) link.now.number }
    {
        link.number <= self.happenings.of(link.peer.target).cut
    }
}

impl SteadyWire {
    /// Hands a request to the target's end of a link, and counts a Search.
    fn hand(&mut self, alloc: Global, link: &mut TestLink, request: &Request) -> Sent
        ensures peer { result ≡ Sent.Sent → TakesRequest ⟦<TestWorld as World>⟧ true (sets_found
            (happening_of self.old.happenings.table link.old.peer.target) request.now
            link.old.peer.sets.items) request.now
            (peer_of link.old.peer link.old.owed.items)
            (peer_of link.new.peer link.new.owed.items) }
        ensures taken { result ≡ Sent.Sent → HasTaken
            (happening_of self.old.happenings.table link.old.peer.target) request.now
            link.old.peer link.new.peer link.old.owed.items link.new.owed.items }
        ensures happened { result ≡ Sent.Sent → IsAsked (At.Test link.old.peer.target)
            request.now (happened_in_all self.old) (happened_in_all self.new) }
        ensures less { AreLess (happened_in_all self.old) (happened_in_all self.new) }
        ensures arrived { link.new.arrived ≡ link.old.arrived }
        ensures number { link.new.number ≡ link.old.number }
        ensures sent { has_not_sent result ≡ false }
        ensures counts { counts_in self.new
            ≡ after (send_counted request.now result) (counts_in self.old) }
    {
        if let Err(_) = link.take(alloc, &mut self.happenings, request) {
            return Sent::Memory;
        }
        if let Request::Search(_) = request {
            self.searches = self.searches.saturating_add(1);
        }
        Sent::Sent
    }

    /// Puts a reply behind the octets that have arrived, and counts one that says that a set is gone.
    fn arrive(&mut self, link: &mut TestLink, owed: &Owed) -> Looked
        ensures arrived { HasArrived owed.now.octets
            link.old.arrived.items link.new.arrived.items result }
        ensures unit { IsReplyUnit owed.now.octets owed.now.reply }
        ensures counts { counts_in self.new ≡ record (counts_in self.old) {
          gones = one_more (brings_gone owed.now.reply result) self.old.gones;
        } }
        ensures peer { link.new.peer ≡ link.old.peer }
        ensures owed { link.new.owed.items ≡ link.old.owed.items }
        ensures number { link.new.number ≡ link.old.number }
        ensures happenings { self.new.happenings ≡ self.old.happenings }
    {
        if let Err(_) = link.arrived.extend_from_slice(owed.octets()) {
            return Looked::Memory;
        }
        if says_gone(owed.reply()) {
            self.gones = self.gones.saturating_add(1);
        }
        Looked::Arrived
    }
}

impl Watched for SteadyWire {
    ghost use Rattle.std.specs.Prelude.{true};
    ghost use Rattle.test_wire.specs.Steady.{counts_in, happened_in_all};

    ghost counts = { counts_in };

    ghost exact = { true };

    ghost happened = { happened_in_all };
}

impl Wire<TestWorld> for SteadyWire {
    type Link = TestLink;

    #[tactic(auto, using(crate::proofs::WireLemmas::told_inside))]
    fn dial(&mut self, alloc: Global, address: &Address) -> Dialled<TestLink>
        ensures link { IfLink result (IsNewLink ⟦<TestWorld as World>⟧ ⟦<TestLink as Linked>⟧
            true address.now (counts_in self.new)) }
        ensures fails { result ≡ Dialled.Failed → login_of address.now ≡ None
            → ¬ ⟦<TestWorld as World>⟧.told address.now }
        ensures happened { AreSame (happened_in_all self.old) (happened_in_all self.new) }
        ensures counts { WireCounts true
            (dial_counted result) (counts_in self.old) (counts_in self.new) }
    {
        let Address::Test(target) = address else {
            self.faults = self.faults.saturating_add(1);
            return Dialled::Failed;
        };
        self.dials = self.dials.saturating_add(1);
        Dialled::Link(TestLink {
            peer: Peer::new(alloc, *target),
            number: self.dials,
            arrived: BytesMut::new(alloc),
            owed: Vec::new(alloc),
        })
    }

    fn send(&mut self, alloc: Global, link: &mut TestLink, unit: &[u8]) -> Sent
        ensures arrived { link.new.arrived.items ≡ link.old.arrived.items }
        ensures peer { SendFits ⟦<TestWorld as World>⟧ unit.now (happened_in_all self.old)
            (⟦<TestLink as Linked>⟧.peer link.old) (⟦<TestLink as Linked>⟧.peer link.new) result }
        ensures steady { SendsSteadily ⟦<TestLink as Linked>⟧ unit.now link.old link.new
            (happened_in_all self.old) (happened_in_all self.new) result }
        ensures counts { SendCounts true unit.now
            result (counts_in self.old) (counts_in self.new) }
        ensures fails { has_not_sent result
            ≡ is_cut (happening_of self.old.happenings.table link.old.peer.target) link.old.number }
        ensures faults { self.new.faults ≡ one_more (has_not_sent result) self.old.faults }
        ensures taken { SendTakes unit.now
            (happening_of self.old.happenings.table link.old.peer.target)
            link.old.peer link.new.peer link.old.owed.items link.new.owed.items result }
    {
        if self.is_cut(link) {
            self.faults = self.faults.saturating_add(1);
            return Sent::Failed;
        }
        match read_unit(alloc, unit) {
            Ok(Some(request)) => self.hand(alloc, link, &request),
            Ok(None) => Sent::Sent,
            Err(_) => Sent::Memory,
        }
    }

    fn look(&mut self, _: Global, link: &mut TestLink) -> Looked
        ensures fits { LookFits
            (⟦<TestLink as Linked>⟧.peer link.old) (⟦<TestLink as Linked>⟧.peer link.new)
            link.old.arrived.items link.new.arrived.items result }
        ensures steady { LooksSteadily ⟦<TestLink as Linked>⟧ link.old link.new
            (happened_in_all self.old) (happened_in_all self.new) result }
        ensures counts { WireCounts true
            (look_counted (⟦<TestLink as Linked>⟧.peer link.old) result)
            (counts_in self.old) (counts_in self.new) }
        ensures fails { has_not_looked result
            ≡ is_cut (happening_of self.old.happenings.table link.old.peer.target) link.old.number }
        ensures next { FindsNext link.old.owed.items link.new.owed.items result }
    {
        if self.is_cut(link) {
            self.faults = self.faults.saturating_add(1);
            return Looked::Failed;
        }
        match next_reply(&mut link.owed) {
            Some(owed) => self.arrive(link, &owed),
            None => {
                self.waits = self.waits.saturating_add(1);
                Looked::NotYet
            }
        }
    }

    fn arrived<'a>(&self, link: &'a TestLink) -> &'a [u8] {
        link.arrived.as_slice()
    }

    fn consume(&mut self, link: &mut TestLink, count: usize)
        requires { count ≤ length link.old.arrived.items }
        ensures arrived { link.new.arrived.items ≡ drop count link.old.arrived.items }
        ensures link { IsSameLink ⟦<TestLink as Linked>⟧ link.old link.new }
        ensures happened { AreSame (happened_in_all self.old) (happened_in_all self.new) }
        ensures counts { counts_in self.new ≡ counts_in self.old }
    {
        link.arrived.advance(count);
    }

    ghost exact_links = { λ e. e };
}

/// Whether a reply says of a Present's result set that it is gone.
fn says_gone(reply: &Reply) -> bool
    ensures { result ≡ Said.says_gone reply.now }
{
    match reply {
        Reply::Present { body, .. } => match body {
            Body::Diag(diag) => diag.is_gone(),
            Body::Diags(diags) => diags.as_slice().first().is_some_and(|diag| diag.is_gone()),
            Body::None | Body::Records(_) => false,
        },
        _ => false,
    }
}

impl Events for SteadyWire {
    #[tactic(auto, using(crate::proofs::WireLemmas::made_if))]
    fn gone(&mut self, target: u32, presents: u32) -> Result<(), Memory>
        ensures made { OnOk result (IsMade target
            (λ happening. record happening { presents = presents })
            (happened_in_all self.old) (happened_in_all self.new)) }
        ensures err { OnErr result (AreSame (happened_in_all self.old) (happened_in_all self.new)) }
        ensures counts { counts_in self.new ≡ counts_in self.old }
    {
        let happening = self.happenings.of(target);
        self.happenings.put(
            target,
            Happening {
                presents,
                ..happening
            },
        )
    }

    #[tactic(auto, using(crate::proofs::WireLemmas::cut_if))]
    fn cut(&mut self, target: u32) -> Result<(), Memory>
        ensures made { OnOk result (AreCut true target self.old.dials
            (happened_in_all self.old) (happened_in_all self.new)) }
        ensures err { OnErr result (AreSame (happened_in_all self.old) (happened_in_all self.new)) }
        ensures counts { counts_in self.new ≡ counts_in self.old }
    {
        let happening = self.happenings.of(target);
        self.happenings.put(
            target,
            Happening {
                cut: self.dials,
                ..happening
            },
        )
    }

    #[tactic(auto, using(crate::proofs::WireLemmas::made_if))]
    fn slow(&mut self, target: u32, looks: u32) -> Result<(), Memory>
        ensures made { OnOk result (IsMade target
            (λ happening. record happening { delay = looks })
            (happened_in_all self.old) (happened_in_all self.new)) }
        ensures err { OnErr result (AreSame (happened_in_all self.old) (happened_in_all self.new)) }
        ensures counts { counts_in self.new ≡ counts_in self.old }
    {
        let happening = self.happenings.of(target);
        self.happenings.put(
            target,
            Happening {
                delay: looks,
                ..happening
            },
        )
    }
}
