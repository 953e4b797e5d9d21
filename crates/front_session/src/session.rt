//! A client's session.

ghost use Rattle.std.specs.Prelude.{◌≡◌, ◌+◌, ◌<◌, ◌≤◌, ◌^◌, Some, None, length, All, IfOk, OnOk};
ghost use Rattle.z_types.specs.Numbers.{HasNumbersInRange};
ghost use Rattle.gateway_rules.specs.Course.{accepts};
ghost use Rattle.gateway_rules.specs.Settling.{agreed_by};
ghost use Rattle.unit_forms.specs.Logins.{AsksWithLogin};
ghost use Rattle.gateway_rules.specs.Works.{CanBegin, FitsWork, IsAskable};
ghost use Rattle.front_session.specs.Admitting.{IsAdmitted, IsGivenAdmitted, IsWorkAdmitted, counted, is_in_place_after, waits};
ghost use Rattle.front_session.specs.Refusals.{IsReady};
ghost use Rattle.front_session.specs.WaitingOf.{waiting_of};
ghost use Rattle.front_session.specs.Sessions.{CanWait, IsKeptSet, HasRoomFor, IsKept, new_session, spent_of, whose_of};
ghost use Rattle.front_session.specs.Settling.{FitsWaiting, IsSettledBy, IsSettledWith, ended, sets_ended};

use crate::Admitted;
use crate::asking::{Asking, due_for};
use crate::kept::end_sets;
use crate::limited::are_units_spent;
use crate::settle::{Answer, Pending, answer_to, searches_behind};
use access_rules::Who;
use gateway_rules::{Agreement, Sizes, agreed_by, is_accepted};
use limit_rules::Spent;
use route_config::Route;
use std::alloc::Global;
use std::marker::Model;
use z_types::{KnownSet, List, Memory, Outcome, Reply, Request, Work};

/// What is kept of a client between its requests.
#[derive(Drop)]
pub struct FrontSession {
    accepted: bool,
    units: u32,
    agreed: Agreement,
    searches: u32,
    records: u32,
    sets: List<KnownSet>,
    pending: Option<Pending>,
}

impl Model for FrontSession {
    ghost use Rattle.std.specs.Coded.{codes};
    ghost use Rattle.z_types.specs.Tree.{tree_code};
    ghost use Rattle.front_session.specs.Sessions.{SessionState, IsKept};

    ghost Value = { SessionState };

    ghost coded = { Prim.hlevel (codes, tree_code) };

    ghost use Rattle.front_session.specs.SessionView.{state_of};

    ghost view = { state_of };

    ghost invariant = { λ s. IsKept (state_of s) };
}

impl FrontSession {
    /// The session of a client that has sent nothing. It takes no memory.
    pub fn new(alloc: Global) -> FrontSession
        ensures { result ≡ new_session }
    {
        FrontSession {
            accepted: false,
            units: 0,
            agreed: Agreement::none(),
            searches: 0,
            records: 0,
            sets: List::new(alloc),
            pending: None,
        }
    }

    /// Whose its client is, once an Init was accepted.
    pub fn whose(&self) -> Option<Who>
        ensures { result ≡ whose_of self.now }
    {
        match self.accepted {
            true => Some(self.agreed.whose),
            false => None,
        }
    }

    /// How many units its client has sent. Until an Init is accepted each is an Init that was refused.
    pub fn units(&self) -> u32
        ensures { result ≡ self.now.units }
    {
        self.units
    }

    /// What a request is admitted as, after what its client has sent before, under one route for all of
    /// its calls. Its numbers are within their range, and its login is one, as those of a request that was
    /// read are; the legs of a work that is handed out may be asked for it. It is `Memory` also where a
    /// number of 32 bits would not count the units.
    pub fn admit(&mut self, alloc: Global, route: &Route, request: &Request) -> Admitted
        requires numbers { HasNumbersInRange request.now }
        requires login { AsksWithLogin request.now }
        ensures { IsAdmitted route.now request.now self.old self.new result }
    {
        let spent = self.spent();
        if are_units_spent(&route.parts().limits, &spent) {
            return Admitted::Limited;
        }
        if !is_in_place(self.accepted, request) {
            return Admitted::Bad;
        }
        match due_for(alloc, route, &self.agreed, &spent, &self.sets, request) {
            Ok(due) => self.admit_due(route, request, due),
            Err(_) => Admitted::Memory,
        }
    }

    /// What its client has used of the limits.
    fn spent(&self) -> Spent
        ensures spent { result ≡ spent_of self.now }
        ensures kept { IsKept self.now }
    {
        Spent {
            units: self.units,
            searches: self.searches,
            records: self.records,
            sets: self.sets.len() as u32,
        }
    }

    /// Counts a unit more, which may be an Init that is accepted, and keeps what that settles.
    #[tactic(auto, using(crate::proofs::WaitLemmas::agreed_login))]
    fn count(&mut self, route: &Route, units: u32, request: &Request, agreed: Option<Agreement>)
        requires units { units ≡ self.old.units + 1 }
        requires login { AsksWithLogin request.now }
        requires agreed { agreed ≡ agreed_by route.now request.now }
        ensures { self.new ≡ counted route.now self.old request.now }
    {
        self.units = units;
        self.accepted = self.accepted || accepts(route, request);
        if let Some(agreed) = agreed {
            self.agreed = agreed;
        }
    }

    /// Admits a request that is in its place.
    fn admit_due(&mut self, route: &Route, request: &Request, due: Asking) -> Admitted
        requires kept { IsKept self.old }
        requires login { AsksWithLogin request.now }
        requires ready { IsReady (spent_of self.old) due }
        ensures { IsGivenAdmitted route.now due request.now self.old self.new result }
    {
        let Some(units) = self.units.checked_add(1) else {
            drop(due);
            return Admitted::Memory;
        };
        let Ok(agreed) = agreed_by(route, request) else {
            drop(due);
            return Admitted::Memory;
        };
        match due {
            Asking::AtOnce(reply) => {
                self.count(route, units, request, agreed);
                Admitted::Reply(reply)
            }
            Asking::Works(work) => self.admit_work(route, units, request, agreed, work),
        }
    }

    /// Lets a request wait for its work.
    fn admit_work(
        &mut self,
        route: &Route,
        units: u32,
        request: &Request,
        agreed: Option<Agreement>,
        work: Work,
    ) -> Admitted
        requires kept { IsKept self.old }
        requires login { AsksWithLogin request.now }
        requires agreed { agreed ≡ agreed_by route.now request.now }
        requires units { units ≡ self.old.units + 1 }
        requires begins { CanBegin work }
        requires asks { IsAskable work }
        requires records { HasRoomFor self.old.records work }
        ensures { IsWorkAdmitted route.now work request.now self.old self.new result }
    {
        match Pending::of(request, &work) {
            Ok(pending) => {
                self.wait(route, units, request, agreed, pending);
                Admitted::Work(work)
            }
            Err(_) => {
                drop(agreed);
                drop(work);
                Admitted::Memory
            }
        }
    }

    /// Counts a unit more, whose request waits.
    fn wait(
        &mut self,
        route: &Route,
        units: u32,
        request: &Request,
        agreed: Option<Agreement>,
        pending: Pending,
    )
        requires kept { IsKept self.old }
        requires login { AsksWithLogin request.now }
        requires agreed { agreed ≡ agreed_by route.now request.now }
        requires units { units ≡ self.old.units + 1 }
        requires begins { CanBegin pending.work }
        requires asks { IsAskable pending.work }
        requires records { HasRoomFor self.old.records pending.work }
        ensures { self.new ≡ waits route.now self.old request.now (waiting_of pending) }
    {
        self.count(route, units, request, agreed);
        fill(&mut self.pending, pending);
    }

    /// What an outcome of the work that waits leaves: the reply to its request, and what is kept of the
    /// client. Only want of memory fails; the session is then of no more use.
    pub fn settle(&mut self, alloc: Global, outcome: Outcome) -> Result<Reply, Memory>
        requires { FitsWaiting self.old.waiting outcome }
        ensures { IfOk result (IsSettledBy self.old.waiting self.old self.new outcome) }
    {
        let Some(pending) = self.pending.take() else {
            unreachable!()
        };
        self.settle_for(alloc, pending, outcome)
    }

    /// The sizes that its client's Init agreed on.
    fn sizes(&self) -> Sizes
        ensures { result ≡ self.now.agreed.sizes }
    {
        self.agreed.sizes
    }

    /// The reply to a request that waited for its work, and what is kept behind it.
    fn settle_for(
        &mut self,
        alloc: Global,
        pending: Pending,
        outcome: Outcome,
    ) -> Result<Reply, Memory>
        requires kept { IsKept self.old }
        requires none { self.old.waiting ≡ None }
        requires waits { CanWait self.old (waiting_of pending) }
        requires fits { FitsWork pending.work outcome }
        ensures { IfOk result (IsSettledWith self.old self.new pending outcome) }
    {
        match answer_to(alloc, self.sizes(), &pending, outcome) {
            Ok(answer) => self.end_answered(alloc, pending, answer),
            Err(memory) => {
                drop(pending);
                Err(memory)
            }
        }
    }

    /// The reply to a request that was answered, and what is kept behind it.
    fn end_answered(
        &mut self,
        alloc: Global,
        pending: Pending,
        answer: Answer,
    ) -> Result<Reply, Memory>
        requires kept { IsKept self.old }
        requires none { self.old.waiting ≡ None }
        requires waits { CanWait self.old (waiting_of pending) }
        requires records { self.old.records + answer.given < 2 ^ 32 }
        requires after { All IsKeptSet
            (sets_ended pending answer.is_good answer.hits self.old.sets) }
        ensures reply { IfOk result (λ reply. reply ≡ answer.reply) }
        ensures ended { OnOk result (self.new
            ≡ ended self.old pending answer.is_good answer.hits answer.given) }
    {
        let Answer {
            reply,
            is_good,
            hits,
            given,
        } = answer;
        match self.end(alloc, pending, is_good, hits, given) {
            Ok(()) => Ok(reply),
            Err(memory) => {
                drop(reply);
                Err(memory)
            }
        }
    }

    /// Keeps what a request has left that was settled.
    fn end(
        &mut self,
        alloc: Global,
        pending: Pending,
        is_good: bool,
        hits: List<u32>,
        given: u32,
    ) -> Result<(), Memory>
        requires none { self.old.waiting ≡ None }
        requires searches { self.old.searches < self.old.units }
        requires records { self.old.records + given < 2 ^ 32 }
        requires sets { length self.old.sets ≤ self.old.searches }
        requires each { All IsKeptSet self.old.sets }
        requires after { All IsKeptSet (sets_ended pending is_good hits self.old.sets) }
        ensures { OnOk result (self.new ≡ ended self.old pending is_good hits given) }
    {
        self.records += given;
        self.searches = searches_behind(&pending.request, self.searches);
        end_sets(alloc, &mut self.sets, pending, is_good, hits)
    }
}

/// Fills the place of what waits.
fn fill(place: &mut Option<Pending>, pending: Pending)
    ensures { place.new ≡ Some pending }
{
    drop(place.replace(pending));
}

/// Whether a request is in its place: an Init until one was accepted, and another after it.
fn is_in_place(accepted: bool, request: &Request) -> bool
    ensures { result ≡ is_in_place_after accepted request.now }
{
    match request {
        Request::Init(_) => !accepted,
        _ => accepted,
    }
}

/// Whether a request is an Init that is accepted.
fn accepts(route: &Route, request: &Request) -> bool
    requires login { AsksWithLogin request.now }
    ensures { result ≡ accepts route.now (Some request.now) }
{
    match request {
        Request::Init(init) => is_accepted(route, init),
        _ => false,
    }
}
