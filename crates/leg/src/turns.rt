//! A leg.

use crate::phases::seat_of;
use crate::steps::turn_phase;
use crate::tasks::task_of;
use crate::terms::terms_of;
use crate::{Account, LegAnswer, LegAsk, Phase, Task, Turned};
use gw_outside::Backend;
use pool_sets::Door;
use route_config::Route;
use std::alloc::Global;
use std::marker::{Model, PhantomData};
use std::mem;
use z_types::{Sitting, Text, World};

/// One leg of a request: it takes a session of its class and of the login of who asks from a door, opens it
/// over a backend where it is dialled, inside that login, does its job there and puts the session back, one
/// deed a turn. It is turned until it is done, or given up; then no session is out for it.
#[derive(Drop)]
pub struct Leg<W: World, S: Sitting<W>> {
    leg: u32,
    login: Option<Text>,
    task: Task,
    phase: Phase<S>,
    account: Account,
    world: PhantomData<W>,
}

impl<W: World, S: Sitting<W>> Model for Leg<W, S> {
    ghost use Rattle.std.specs.Coded.{codes};
    ghost use Rattle.z_types.specs.Tree.{tree_code};
    ghost use Rattle.leg.specs.LegView.{LegView};

    ghost Value = { LegView S };

    ghost coded = { Prim.hlevel (codes, tree_code) };

    ghost use Rattle.leg.specs.Kept.{IsKeptLeg};

    ghost view = { λ l. record { leg = l.leg; login = l.login; task = l.task; phase = l.phase; account = l.account } };

    ghost invariant = { λ l. IsKeptLeg W.World S.Sitting l.login l.task l.phase l.account };
}

impl<W: World, S: Sitting<W>> Leg<W, S> {
    ghost use Rattle.std.specs.Prelude.{◌≡◌, ◌↔◌, ◌≤◌, ◌+◌, Some, IfSome, IsTrue};
    ghost use Rattle.unit_forms.specs.Logins.{IsLoginIf};
    ghost use Rattle.leg.specs.Accounts.{no_account, AccountFits};
    ghost use Rattle.std.specs.Option.{option_copied};
    ghost use Rattle.leg.specs.Phases.{IsDone, answered, is_done, given_up};
    ghost use Rattle.leg.specs.Right.{AnswerFits};
    ghost use Rattle.leg.specs.Tasks.{task_of, MayBeAsked};
    ghost use Rattle.leg.specs.Terms.{terms_of};
    ghost use Rattle.leg.specs.Turns.{IsTurn, IsLegOf, GivesUp, is_done_answer};
    ghost use Rattle.leg.specs.declared.phases.Phase.TheVariants.{Begin, Done};

    /// A leg that is to do what is asked, under a login that can be read in an Init, or under none.
    pub fn new(ask: LegAsk) -> Leg<W, S>
        requires login { IsLoginIf ask.login }
        requires may { MayBeAsked (task_of ask.key ask.job) }
        ensures leg { result.leg ≡ ask.leg }
        ensures login { result.login ≡ ask.login }
        ensures task { task_of ask.key ask.job ≡ Some result.task }
        ensures phase { result.phase ≡ Begin }
        ensures account { result.account ≡ no_account }
    {
        let LegAsk {
            leg,
            login,
            key,
            job,
        } = ask;
        Leg {
            leg,
            login,
            task: task_of(key, job),
            phase: Phase::Begin,
            account: Account::new(),
            world: PhantomData,
        }
    }

    /// Does the one deed that is due: at most one call of the door or of the backend. All turns are given
    /// the same route. Where it answers `Memory` the leg has its seat alone, and is to be given up; where
    /// nothing was taken yet it may be turned again.
    pub fn turn<B: Backend<W, Session = S>, D: Door<W, S>>(
        &mut self,
        alloc: Global,
        route: &Route,
        backend: &mut B,
        door: &mut D,
        now: u64,
    ) -> Turned
        requires of { IsLegOf W.World S.Sitting route.now (D.counts door.old).most self.old }
        ensures of { IsLegOf W.World S.Sitting route.now (D.counts door.new).most self.new }
        ensures leg { self.new.leg ≡ self.old.leg }
        ensures login { self.new.login ≡ self.old.login }
        ensures task { self.new.task ≡ self.old.task }
        ensures done { is_done_answer result ≡ is_done self.new.phase }
        ensures bounds { AccountFits self.new.account }
        ensures most { (D.counts door.new).most ≡ (D.counts door.old).most }
        ensures law { IsTurn W.World S.Sitting B.exact
            (terms_of route.now self.old.login self.old.leg) self.old.task now
            self.old.phase self.new.phase self.old.account self.new.account result
            (record { pool = D.pool door.old; counts = D.counts door.old })
            (record { pool = D.pool door.new; counts = D.counts door.new })
            (record { counts = B.counts backend.old; happened = B.happened backend.old })
            (record { counts = B.counts backend.new; happened = B.happened backend.new }) }
    {
        let terms = terms_of(route, &self.login, self.leg);
        let phase = mem::replace(&mut self.phase, Phase::Ended);
        let (phase, turned) = turn_phase(
            alloc,
            &terms,
            &self.task,
            phase,
            &mut self.account,
            backend,
            door,
            now,
        );
        drop(mem::replace(&mut self.phase, phase));
        turned
    }

    /// Its place in the route, counted from 0.
    pub fn place(&self) -> u32
        ensures { result ≡ self.now.leg }
    {
        self.leg
    }

    /// Whether the leg is done.
    pub fn is_done(&self) -> bool
        ensures { IsTrue result ↔ IsDone self.now.phase }
    {
        matches!(self.phase, Phase::Done { .. })
    }

    /// What the leg counted so far.
    pub fn account(&self) -> Account
        ensures account { result ≡ self.now.account }
        ensures bounds { AccountFits result }
    {
        self.account
    }

    /// The answer of a leg that is done, lent; none before.
    pub fn answered(&self) -> Option<&LegAnswer>
        ensures answer { option_copied result ≡ answered self.now.phase }
        ensures fits { IfSome (answered self.now.phase) (AnswerFits self.now.task) }
    {
        match &self.phase {
            Phase::Done { answer } => Some(answer),
            _ => None,
        }
    }

    /// The answer of a leg that is done, with its account.
    pub fn answer(self) -> (LegAnswer, Account)
        requires { IsDone self.phase }
        ensures answer { self.phase ≡ Done result.0 }
        ensures account { result.1 ≡ self.account }
        ensures fits { AnswerFits self.task result.0 }
        ensures bounds { AccountFits result.1 }
        ensures opens { result.1.opens ≤ result.1.dials + result.1.faults }
    {
        let Leg {
            leg: _,
            login: _,
            task: _,
            phase,
            account,
            world: _,
        } = self;
        match phase {
            Phase::Done { answer } => (answer, account),
            _ => unreachable!(),
        }
    }

    /// Gives the session up that is out for the leg, where one is. A leg that was given up does nothing
    /// more.
    pub fn give_up<D: Door<W, S>>(&mut self, door: &mut D)
        ensures phase { self.new.phase ≡ given_up self.old.phase }
        ensures task { self.new.task ≡ self.old.task }
        ensures leg { self.new.leg ≡ self.old.leg }
        ensures login { self.new.login ≡ self.old.login }
        ensures account { self.new.account ≡ self.old.account }
        ensures bounds { AccountFits self.new.account }
        ensures pool { GivesUp self.old.phase (D.pool door.old) (D.pool door.new) }
        ensures counts { D.counts door.new ≡ D.counts door.old }
    {
        let Some(seat) = seat_of(&self.phase) else {
            return;
        };
        drop(mem::replace(&mut self.phase, Phase::Ended));
        door.lost(seat);
    }
}
