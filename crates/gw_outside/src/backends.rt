//! Sessions with targets.

ghost use Rattle.std.specs.Prelude.{◌≡◌, List, ℕ, true};
ghost use Rattle.z_types.specs.Pending.{IsPending, resting};
ghost use Rattle.unit_forms.specs.Logins.{HasLogin};
ghost use Rattle.gw_outside.specs.Asks.{MayAsk};
ghost use Rattle.gw_outside.specs.Counts.{BackendCounts};
ghost use Rattle.gw_outside.specs.Happened.{AreSame, AreLess, at_address};
ghost use Rattle.gw_outside.specs.Sessions.{IfSession, IsNewSession, OpenHappens, OpenCounts, LookCounts, Fits, IsWorlds, pending_from, pending_after, made_after, start_counted};
ghost use Rattle.gw_outside.specs.Steady.{OpensSteadily, AsksSteadily, LooksSteadily};

use crate::Watched;
use std::alloc::Global;
use z_types::{Address, Ask, Diag, Item, List, ScanAnswer, Sitting, World};

/// What an opening gave.
#[derive(Drop)]
pub enum Opening<S> {
    /// A session that waits for the reply to its Init.
    Session(S),
    /// There is no session, and the count of faults rose.
    Failed {
        /// Whether a link had been made.
        linked: bool,
    },
    /// No memory could be had.
    Memory,
}

/// What became of an ask.
#[derive(Clone, Copy, PartialEq, Eq, Debug)]
pub enum Began {
    /// It was sent, and its reply is awaited.
    Started,
    /// It was not, and the count of faults rose. The session is broken.
    Failed,
    /// No memory could be had. The session is broken.
    Memory,
}

/// What a look at a session heard.
#[derive(Drop)]
pub enum Heard {
    /// The session is open.
    Opened,
    /// How many records a search found.
    Hits(u32),
    /// The target's diagnostic.
    Refused(Diag),
    /// The first of the records that were asked for, at least one.
    Items(List<Item>),
    /// The target says that the result set is gone: bib-1 condition 27 or 30.
    Gone,
    /// What a scan found.
    Scanned(ScanAnswer),
    /// No reply has come.
    NotYet,
    /// No reply to what was asked, and the count of faults rose. The session is broken.
    Failed,
    /// No memory could be had. The session is broken.
    Memory,
}

/// Sessions with the targets of a world.
///
/// A session is opened, and looked at until the reply to its Init has come. Then it is asked for one
/// thing at a time, each time looked at until the answer has come. Once a call on it answered `Failed`
/// or `Memory` it is dropped.
pub trait Backend<W: World>: Watched {
    /// One session.
    type Session: Sitting<W>;

    /// How many Presents it has answered by records that it kept, without asking a target.
    ghost served: { Self → ℕ };

    /// Makes a link to an address and sends an Init over it. Inside a login it is the inner address that
    /// the link is made to, and the Init has the login.
    fn open_(&mut self, alloc: Global, address: &Address) -> Opening<Self::Session>
        requires login { HasLogin address.now }
        ensures session { IfSession result (IsNewSession Self.Session.Sitting address.now) }
        ensures happened { OpenHappens result (Self.happened self.old) (Self.happened self.new) }
        ensures steady { W.told address.now → (Self.happened self.old).steady ≡ true
            → OpensSteadily Self.Session.Sitting Self.exact
            (at_address (Self.happened self.old) address.now)
            (Self.counts self.new).dials result }
        ensures counts { OpenCounts Self.exact
            result (Self.counts self.old) (Self.counts self.new) };

    /// Asks a session that rests.
    fn start(&mut self, alloc: Global, session: &mut Self::Session, ask: &Ask) -> Began
        requires rests { Self.Session.pending session.old ≡ resting }
        requires may { MayAsk (Self.Session.made session.old) ask.now }
        ensures pending { Self.Session.pending session.new ≡ pending_from ask.now result }
        ensures address { Self.Session.address session.new ≡ Self.Session.address session.old }
        ensures made { (name : List ℕ)
            → Self.Session.made session.new name ≡ Self.Session.made session.old name }
        ensures happened { AreLess (Self.happened self.old) (Self.happened self.new) }
        ensures steady { W.told (Self.Session.address session.old)
            → (Self.happened self.old).steady ≡ true
            → AsksSteadily W.World Self.Session.keeps (Self.Session.address session.old) ask.now
            (Self.Session.link session.old) (Self.Session.link session.new)
            (Self.happened self.old) (Self.happened self.new) result }
        ensures counts { BackendCounts Self.exact (Unit {0})
            (start_counted ask.now result) (Self.counts self.old) (Self.counts self.new) };

    /// Looks for the reply that a session waits for. At an address that is told no reply is a breach.
    fn look(&mut self, alloc: Global, session: &mut Self::Session) -> Heard
        requires { IsPending (Self.Session.pending session.old) }
        ensures fits { Fits (Self.Session.pending session.old) result }
        ensures worlds { W.told (Self.Session.address session.old)
            → IsWorlds W.World (Self.Session.address session.old)
            (Self.Session.made session.old) (Self.Session.pending session.old) result }
        ensures pending { Self.Session.pending session.new
            ≡ pending_after (Self.Session.pending session.old) result }
        ensures made { (name : List ℕ) → Self.Session.made session.new name
            ≡ made_after (Self.Session.pending session.old) result
            (Self.Session.made session.old) name }
        ensures address { Self.Session.address session.new ≡ Self.Session.address session.old }
        ensures happened { AreSame (Self.happened self.old) (Self.happened self.new) }
        ensures steady { W.told (Self.Session.address session.old)
            → (Self.happened self.old).steady ≡ true
            → LooksSteadily Self.Session.keeps (Self.Session.address session.old) (Self.happened self.old)
            (Self.Session.link session.old) (Self.Session.link session.new) result }
        ensures counts { LookCounts Self.exact (W.told (Self.Session.address session.old))
            result (Self.counts self.old) (Self.counts self.new) };

    /// How many Presents it has answered by records that it kept, to tell that.
    fn served_from_cache(&self) -> u64
        ensures { result ≡ served self.now };
}
