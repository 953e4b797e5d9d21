//! Sessions with targets over the links of a wire.

ghost use Rattle.std.specs.Prelude.{◌≡◌, ◌≢◌, List, ℕ, [], false, true, IfOk};
ghost use Rattle.z_ber.specs.Frames.{IsFrame};
ghost use Rattle.z_ber.specs.Header.{IsOpenFor};
ghost use Rattle.z_types.specs.Pending.{IsPending, resting};
ghost use Rattle.z_types.specs.Logins.{inner, login_of};
ghost use Rattle.unit_forms.specs.Logins.{HasLogin};
ghost use Rattle.gw_outside.specs.Asks.{MayAsk};
ghost use Rattle.gw_outside.specs.Counts.{BackendCounts};
ghost use Rattle.gw_outside.specs.Happened.{AreSame, AreLess, at_address};
ghost use Rattle.gw_outside.specs.Sessions.{IfSession, IsNewSession, OpenHappens, OpenCounts, LookCounts, Fits, IsWorlds, made_after, pending_from, pending_after, start_counted};
ghost use Rattle.gw_outside.specs.Steady.{OpensSteadily, AsksSteadily, LooksSteadily};
ghost use Rattle.z_client.specs.Counts.{counts_over};
ghost use Rattle.z_client.specs.Heard.{IsBreach, BeginsWithGone};
ghost use Rattle.z_client.specs.Links.{link_of};
ghost use Rattle.z_client.specs.Looks.{IsOwed};
ghost use Rattle.z_client.specs.Sets.{made_in, pending_of};
ghost use Rattle.z_client.specs.Units.{request_of, IsAskUnit, Takes, TookInit};

use crate::found::Found;
use crate::listening::listen;
use crate::own::Own;
use crate::sending::{greet, send_ask};
use crate::session::ZSession;
use crate::sets::Waiting;
use crate::units::{ask_unit, init_unit};
use gw_outside::{Backend, Began, Dialled, Events, Heard, Opening, Watched, Wire};
use std::alloc::Global;
use z_types::{Address, Ask, Memory, Sitting, Text, World, copy};

/// A backend over a wire. It counts the breaches of targets beside the faults of its wire, and keeps the
/// octets that had arrived at the last breach or at the last result set that was gone.
#[derive(Drop)]
pub struct ZBackend<N> {
    /// The wire.
    wire: N,
    /// What it counts itself.
    own: Own,
    /// The octets that had arrived when the last breach was found, or the last result set found gone.
    last: Text,
}

impl<N> ZBackend<N> {
    /// A backend over this wire, with all counts of its own at 0. It takes no memory.
    pub fn new(alloc: Global, wire: N) -> ZBackend<N>
        ensures wire { result.wire ≡ wire }
        ensures own { result.own ≡ record { breaches = 0; dials = 0; searches = 0; gones = 0 } }
        ensures last { result.last ≡ [] }
    {
        ZBackend {
            wire,
            own: Own::zero(),
            last: Text::new(alloc),
        }
    }

    /// The octets that had arrived at the last look that failed for a breach or found a result set gone;
    /// none before one. A breach is octets that begin with no reply to what is pending (X.690:2021, 8.1;
    /// ANSI/NISO Z39.50-2003, 3.2.1 to 3.2.3 and 3.2.8).
    pub fn last(&self) -> &[u8]
        ensures { result.now ≡ self.now.last }
    {
        self.last.as_slice()
    }

    /// The wire, where no more is asked over it.
    pub fn into_wire(self) -> N
        ensures { result ≡ self.wire }
    {
        self.wire
    }
}

impl<N: Watched> Watched for ZBackend<N> {
    ghost counts = { λ backend. counts_over N.exact (N.counts backend.wire) backend.own };

    ghost exact = { N.exact };

    ghost happened = { λ backend. N.happened backend.wire };
}

impl<W: World, N: Wire<W>> Backend<W> for ZBackend<N> {
    type Session = ZSession<W, N::Link>;

    ghost served = { λ _. 0 };

    fn open_(&mut self, alloc: Global, address: &Address) -> Opening<ZSession<W, N::Link>>
        requires login { HasLogin address.now }
        ensures session { IfSession result
            (IsNewSession ⟦<ZSession<W, N::Link> as Sitting<W>>⟧ address.now) }
        ensures sent { IfSession result
            (λ s. TookInit W.World (N.happened self.old.wire) address.now (N.Link.peer s.link)) }
        ensures happened { OpenHappens result
            (N.happened self.old.wire) (N.happened self.new.wire) }
        ensures steady { W.told address.now → (N.happened self.old.wire).steady ≡ true
            → OpensSteadily ⟦<ZSession<W, N::Link> as Sitting<W>>⟧ N.exact
            (at_address (N.happened self.old.wire) address.now)
            (counts_over N.exact (N.counts self.new.wire) self.new.own).dials result }
        ensures counts { OpenCounts N.exact result
            (counts_over N.exact (N.counts self.old.wire) self.old.own)
            (counts_over N.exact (N.counts self.new.wire) self.new.own) }
        ensures breaches { self.new.own.breaches ≡ self.old.own.breaches }
        ensures last { self.new.last ≡ self.old.last }
    {
        let Ok(own) = copy(address) else {
            return Opening::Memory;
        };
        let Ok((inner, login)) = apart(address) else {
            return Opening::Memory;
        };
        let Ok(unit) = init_unit(alloc, login) else {
            return Opening::Memory;
        };
        match self.wire.dial(alloc, &inner) {
            Dialled::Link(link) => {
                self.own.count_dial();
                greet(&mut self.wire, alloc, link, own, &unit)
            }
            Dialled::Failed => Opening::Failed { linked: false },
            Dialled::Memory => Opening::Memory,
        }
    }

    #[tactic(auto, using(crate::proofs::SendLemmas::asking))]
    fn start(&mut self, alloc: Global, session: &mut ZSession<W, N::Link>, ask: &Ask) -> Began
        requires rests { pending_of session.old.waiting ≡ resting }
        requires may { MayAsk (made_in session.old.made.items) ask.now }
        ensures pending { pending_of session.new.waiting ≡ pending_from ask.now result }
        ensures address { session.new.address ≡ session.old.address }
        ensures made { (name : List ℕ)
            → made_in session.new.made.items name ≡ made_in session.old.made.items name }
        ensures sent { result ≡ Began.Started
            → Takes W.World (N.happened self.old.wire) (request_of ask.now)
            (N.Link.peer session.old.link) (N.Link.peer session.new.link) }
        ensures happened { AreLess (N.happened self.old.wire) (N.happened self.new.wire) }
        ensures steady { W.told session.old.address → (N.happened self.old.wire).steady ≡ true
            → AsksSteadily W.World false session.old.address ask.now
            (link_of N.Link.Linked session.old.link) (link_of N.Link.Linked session.new.link)
            (N.happened self.old.wire) (N.happened self.new.wire) result }
        ensures counts { BackendCounts N.exact (Unit {0}) (start_counted ask.now result)
            (counts_over N.exact (N.counts self.old.wire) self.old.own)
            (counts_over N.exact (N.counts self.new.wire) self.new.own) }
        ensures breaches { self.new.own.breaches ≡ self.old.own.breaches }
        ensures last { self.new.last ≡ self.old.last }
    {
        let parts = &mut session.parts;
        let Ok((own, unit)) = own_ask(alloc, ask) else {
            parts.waiting = Waiting::Broken;
            return Began::Memory;
        };
        let began = send_ask(&mut self.wire, alloc, parts, own, &unit);
        self.own.count_ask(ask, began);
        began
    }

    #[tactic(auto, using(crate::proofs::SendLemmas::waits_unbroken))]
    fn look(&mut self, alloc: Global, session: &mut ZSession<W, N::Link>) -> Heard
        requires { IsPending (pending_of session.old.waiting) }
        ensures fits { Fits (pending_of session.old.waiting) result }
        ensures worlds { W.told session.old.address → IsWorlds W.World session.old.address
            (made_in session.old.made.items) (pending_of session.old.waiting) result }
        ensures pending { pending_of session.new.waiting
            ≡ pending_after (pending_of session.old.waiting) result }
        ensures made { (name : List ℕ) → made_in session.new.made.items name
            ≡ made_after (pending_of session.old.waiting) result
            (made_in session.old.made.items) name }
        ensures address { session.new.address ≡ session.old.address }
        ensures happened { AreSame (N.happened self.old.wire) (N.happened self.new.wire) }
        ensures steady { W.told session.old.address → (N.happened self.old.wire).steady ≡ true
            → LooksSteadily false session.old.address (N.happened self.old.wire)
            (link_of N.Link.Linked session.old.link) (link_of N.Link.Linked session.new.link)
            result }
        ensures counts { LookCounts N.exact (W.told session.old.address) result
            (counts_over N.exact (N.counts self.old.wire) self.old.own)
            (counts_over N.exact (N.counts self.new.wire) self.new.own) }
        ensures not_yet { result ≡ Heard.NotYet
            → IsOpenFor IsFrame (N.Link.arrived session.new.link) }
        ensures owed { W.told session.old.address → IsOwed (N.Link.peer session.old.link)
            (pending_of session.old.waiting) result }
        ensures breach { self.new.own.breaches ≢ self.old.own.breaches
            → IsBreach (pending_of session.old.waiting) self.new.last }
        ensures last { self.new.own.breaches ≢ self.old.own.breaches
            → self.new.last ≡ N.Link.arrived session.new.link }
        ensures gone { result ≡ Heard.Gone
            → BeginsWithGone self.new.last (N.Link.arrived session.new.link) }
        ensures same_breaches { result ≢ Heard.Failed
            → self.new.own.breaches ≡ self.old.own.breaches }
        ensures same_last { result ≢ Heard.Failed → result ≢ Heard.Gone
            → self.new.last ≡ self.old.last }
    {
        match listen(&mut self.wire, alloc, &mut session.parts) {
            Found::Heard(heard) => heard,
            Found::Gone(octets) => {
                self.last = octets;
                self.own.count_gone();
                Heard::Gone
            }
            Found::Breach(octets) => {
                self.last = octets;
                self.own.count_breach();
                Heard::Failed
            }
        }
    }

    fn served_from_cache(&self) -> u64 {
        0
    }
}

/// An address apart: without its login, and its login, if any.
fn apart(address: &Address) -> Result<(Address, Option<Text>), Memory>
    ensures inner { IfOk result (λ both. both.0 ≡ inner address.now) }
    ensures login { IfOk result (λ both. both.1 ≡ login_of address.now) }
{
    let inner = address.inner()?;
    let login = match address.login() {
        Some(login) => Some(copy(login)?),
        None => None,
    };
    Ok((inner, login))
}

/// An ask of one's own, and its unit.
fn own_ask(alloc: Global, ask: &Ask) -> Result<(Ask, Text), Memory>
    ensures own { IfOk result (λ made. made.0 ≡ ask.now) }
    ensures unit { IfOk result (λ made. IsAskUnit ask.now made.1) }
{
    let unit = ask_unit(alloc, ask)?;
    Ok((copy(ask)?, unit))
}

impl<N: Events> Events for ZBackend<N> {
    fn gone(&mut self, target: u32, presents: u32) -> Result<(), Memory> {
        self.wire.gone(target, presents)
    }

    fn cut(&mut self, target: u32) -> Result<(), Memory> {
        self.wire.cut(target)
    }

    fn slow(&mut self, target: u32, looks: u32) -> Result<(), Memory> {
        self.wire.slow(target, looks)
    }
}
