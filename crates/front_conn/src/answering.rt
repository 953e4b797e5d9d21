//! What answers a client: its session or its GET, and the request in work (ANSI/NISO Z39.50-2003, 4.2;
//! SRU 1.2, searchRetrieve).

ghost use Rattle.std.specs.Prelude.{◌≡◌, ◌++◌, ◌∷◌, [], IfOk, IfSome, IsSome, None, OnErr, OnOk, Some, is_some, option_to_list, take};
ghost use Rattle.z_types.specs.declared.marks.End.TheVariants.{Malformed};
ghost use Rattle.unit_forms.specs.Replies.{spell_reply};
ghost use Rattle.front_z.specs.front_session.Sessions.{whose_of};
ghost use Rattle.front_z.specs.gateway_rules.Replies.{bad_unit_reply};
ghost use Rattle.std.specs.List.{AllByRecursion};
ghost use Rattle.std.specs.Option.{option_map};
ghost use Rattle.front_z.specs.Units.{IsEnded};
ghost use Rattle.front_z.specs.gateway_rules.Works.{CanBegin, FitsWork, IsAskable};
ghost use Rattle.package.specs.steps.Ends.{cause_in, lost_seats, outcome_in};
ghost use Rattle.package.specs.steps.Packages.{AsksSo, IsOver, IsPackageOf};
ghost use Rattle.package.specs.package_rules.Planned.{AreThere};
ghost use Rattle.front_http.specs.front_sru.Gets.{work_of};
ghost use Rattle.front_conn.specs.steps.Answering.{EndsWork, IsBegunSo, IsGetEndedIf, IsHeadBegunSo, IsListed, IsReady, IsRequestEndedIf, IsWorkBegun, TurnsWork, given_up, legs_in};
ghost use Rattle.front_conn.specs.steps.Drives.{DrivesWork, outside_of};
ghost use Rattle.front_conn.specs.steps.States.{HasLegsOf, IsOneWork, IsWaitedFor};

use crate::Stepped;
use crate::ends::end_step;
use crate::totals::{Total, add_accounts, make_totals};
use front_http::begin_head;
use front_http::front_sru::{SruState, end_get};
use front_z::front_session::FrontSession;
use front_z::gateway_rules::access_rules::Who;
use front_z::gateway_rules::{bad_unit_reply, mark_of};
use front_z::z_write::put_reply;
use front_z::{Begun, begin_unit, end_unit};
use gw_outside::{Backend, Clock};
use package::leg::Turned;
use package::package_rules::finished_has_mark;
use package::{Package, package_outcome_fits};
use pool_sets::Door;
use route_config::Route;
use sru_request::{Get, HeadFault};
use std::alloc::Global;
use std::marker::Model;
use std::mem;
use std::sync::Wait;
use z_types::{End, List, Mark, Memory, Sitting, Text, Work, World};

/// The session of a client and its GET, the legs of its request in work, and what was answered.
#[derive(Drop)]
pub(crate) struct Answering<W: World, S: Sitting<W>> {
    alloc: Global,
    session: FrontSession,
    get: SruState,
    work: Option<Package<W, S>>,
    totals: List<Total>,
    marks: List<Mark>,
    out: Text,
}

impl<W: World, S: Sitting<W>> Model for Answering<W, S> {
    ghost use Rattle.std.specs.Coded.{codes};
    ghost use Rattle.z_types.specs.Tree.{tree_code};
    ghost use Rattle.front_conn.specs.steps.Answering.{AnsweringState};

    ghost Value = { AnsweringState S };

    ghost coded = { Prim.hlevel (codes, tree_code) };

    ghost view = { λ a. record {
      session = a.session;
      stage = a.get;
      in_work = a.work;
      totals = a.totals;
      marks = a.marks;
      out = a.out;
    } };
}

/// Lists the mark of a request behind the others, where it has one. Without memory nothing is listed,
/// and what was written behind so many octets is taken back.
fn list_mark(
    marks: &mut List<Mark>,
    mark: Option<Mark>,
    out: &mut Text,
    written: usize,
) -> Result<(), Memory>
    ensures ok { OnOk result (marks.new ≡ marks.old ++ option_to_list mark) }
    ensures out_ok { OnOk result (out.new ≡ out.old) }
    ensures err { OnErr result (marks.new ≡ marks.old) }
    ensures out_err { OnErr result (out.new ≡ take written out.old) }
{
    let Some(mark) = mark else {
        return Ok(());
    };
    let listed = marks.push(mark);
    if listed.is_err() {
        out.truncate(written);
    }
    listed
}

/// Fills the place of the request in work.
fn fill<W: World, S: Sitting<W>>(place: &mut Option<Package<W, S>>, begun: Package<W, S>)
    ensures { place.new ≡ Some begun }
{
    drop(place.replace(begun));
}

/// Answers the request that waits by what came of its legs, and lists the mark of their cause. Without
/// memory nothing is written and no mark is listed.
fn settle<W: World, S: Sitting<W>>(
    alloc: Global,
    route: &Route,
    done: Package<W, S>,
    session: &mut FrontSession,
    marks: &mut List<Mark>,
    out: &mut Text,
) -> Result<(), Memory>
    requires asks { AsksSo route.now done }
    requires over { IsOver done }
    requires waits { IsSome session.old.waiting }
    requires fits { IfSome session.old.waiting (λ waiting.
        FitsWork waiting.work (outcome_in route.now done)) }
    ensures ended { OnOk result (IfSome session.old.waiting (λ waiting.
        IsEnded (record { session = session.old; out = out.old })
        (record { session = session.new; out = out.new }) waiting (outcome_in route.now done))) }
    ensures marks { OnOk result (marks.new ≡ marks.old ++ (cause_in route.now done).mark ∷ []) }
    ensures out_err { OnErr result (out.new ≡ out.old) }
    ensures marks_err { OnErr result (marks.new ≡ marks.old) }
{
    finished_has_mark();
    let written = out.len();
    let outcome = done.finish(alloc, route)?;
    let mark = mark_of(&outcome);
    end_unit(alloc, session, outcome, out)?;
    list_mark(marks, Some(mark), out, written)
}

impl<W: World, S: Sitting<W>> Answering<W, S> {
    ghost use Rattle.front_conn.specs.steps.Answering.{nothing_answered};

    /// Nothing was answered.
    pub(crate) fn new(alloc: Global) -> Answering<W, S>
        ensures { result ≡ nothing_answered }
    {
        Answering {
            alloc,
            session: FrontSession::new(alloc),
            get: SruState::new(),
            work: None,
            totals: List::new(alloc),
            marks: List::new(alloc),
            out: Text::new(alloc),
        }
    }

    /// Whether a request is in work.
    pub(crate) fn is_in_work(&self) -> bool
        ensures { result ≡ is_some self.now.in_work }
    {
        self.work.is_some()
    }

    /// Whose the client is, once an Init was accepted.
    pub(crate) fn whose(&self) -> Option<Who>
        ensures { result ≡ whose_of self.now.session }
    {
        self.session.whose()
    }

    /// How many units were begun.
    pub(crate) fn units(&self) -> u32
        ensures { result ≡ self.now.session.units }
    {
        self.session.units()
    }

    /// Under which mark each request was answered, in their order.
    pub(crate) fn marks(&self) -> &List<Mark>
        ensures { result.now ≡ self.now.marks }
    {
        &self.marks
    }

    /// The marks, given back.
    pub(crate) fn into_marks(mut self) -> List<Mark>
        ensures { result ≡ self.marks }
    {
        let none = List::new(self.alloc);
        mem::replace(&mut self.marks, none)
    }

    /// What the legs of its requests counted, but for the request in work.
    pub(crate) fn totals(&self) -> &List<Total>
        ensures { result.now ≡ self.now.totals }
    {
        &self.totals
    }

    /// What is to be written.
    pub(crate) fn out(&self) -> &[u8]
        ensures { result.now ≡ self.now.out }
    {
        self.out.as_slice()
    }

    /// All that was to be written has been written.
    pub(crate) fn clear_out(&mut self)
        ensures { self.new ≡ record self.old { out = [] } }
    {
        self.out.truncate(0);
    }

    /// Answers octets that begin no unit, at this offset. Without memory nothing is written.
    #[inline(never)]
    pub(crate) fn refuse(&mut self, at: u64) -> Result<Option<End>, Memory>
        ensures ok { IfOk result (λ ended. ended ≡ Some (Malformed at)) }
        ensures written { OnOk result
            (self.new ≡ record self.old { out = self.old.out ++ spell_reply bad_unit_reply }) }
        ensures err { OnErr result (self.new ≡ self.old) }
    {
        put_reply(&mut self.out, &bad_unit_reply())?;
        Ok(Some(End::Malformed(at)))
    }

    /// Begins a unit at an offset: it is answered at once, and ends the connection so, if it does, or the
    /// legs for its request are begun. No GET waits where units come. Without memory nothing is written.
    #[inline(never)]
    pub(crate) fn begin(
        &mut self,
        alloc: Global,
        route: &Route,
        unit: &[u8],
        at: u64,
    ) -> Result<Option<End>, Memory>
        requires idle { self.old.in_work ≡ None }
        requires sets { AllByRecursion (HasLegsOf route.now) self.old.session.sets }
        ensures { IsBegunSo W.World S.Sitting route.now at unit.now self.old self.new result }
    {
        let _ = route.parts();
        self.get = SruState::new();
        if make_totals(alloc, route, &mut self.totals).is_err() {
            return Err(Memory);
        }
        let written = self.out.len();
        match begin_unit(alloc, &mut self.session, route, unit, at, &mut self.out) {
            Begun::Write(mark, end) => self.list(mark, end, written),
            Begun::Work(work) => self.start(alloc, route, work),
            Begun::Memory => Err(Memory),
        }
    }

    /// Begins the head of an HTTP connection: it is answered at once, and ends the connection so, or the
    /// legs for the search of a GET are begun. Without memory nothing is written.
    #[inline(never)]
    pub(crate) fn begin_head(
        &mut self,
        alloc: Global,
        route: &Route,
        head: Result<Get, HeadFault>,
    ) -> Result<Option<End>, Memory>
        requires idle { self.old.in_work ≡ None }
        ensures { IsHeadBegunSo W.World S.Sitting route.now head self.old self.new result }
    {
        let _ = route.parts();
        if make_totals(alloc, route, &mut self.totals).is_err() {
            return Err(Memory);
        }
        let written = self.out.len();
        match begin_head(alloc, &mut self.get, route, head, &mut self.out) {
            front_http::front_sru::Begun::Write(mark, end) => self.list(mark, end, written),
            front_http::front_sru::Begun::Work(work) => self.start(alloc, route, work),
            front_http::front_sru::Begun::Memory => Err(Memory),
        }
    }

    /// Lists the mark of a request that was answered, where it has one, and how the connection has ended.
    /// Without memory what was written behind so many octets is taken back.
    fn list(
        &mut self,
        mark: Option<Mark>,
        end: Option<End>,
        written: usize,
    ) -> Result<Option<End>, Memory>
        ensures { IsListed mark end written self.old self.new result }
    {
        match list_mark(&mut self.marks, mark, &mut self.out, written) {
            Ok(()) => Ok(end),
            Err(memory) => Err(memory),
        }
    }

    /// Begins the legs for a work, which ends no connection.
    fn start(&mut self, alloc: Global, route: &Route, work: Work) -> Result<Option<End>, Memory>
        requires there { AreThere route.now work }
        requires can_begin { CanBegin work }
        requires askable { IsAskable work }
        ensures { IsWorkBegun W.World S.Sitting route.now work self.old self.new result }
    {
        match Package::start(alloc, route, work) {
            Ok(begun) => {
                fill(&mut self.work, begun);
                Ok(None)
            }
            Err(memory) => Err(memory),
        }
    }

    /// Turns the legs of the request in work, and answers it where all are done, or goes on with the
    /// fetch of a GET; and how the connection has ended so, if it did.
    pub(crate) fn turn<B: Backend<W, Session = S>, D: Door<W, S>>(
        &mut self,
        alloc: Global,
        route: &Route,
        backend: &mut B,
        door: &mut D,
        now: u64,
        end: &mut Option<End>,
    ) -> Stepped
        requires goes_on { end.old ≡ None }
        requires works { IsSome self.old.in_work }
        requires one_work { IsOneWork route.now
            self.old.session.waiting self.old.stage self.old.in_work }
        requires of { IfSome self.old.in_work
            (IsPackageOf W.World S.Sitting route.now (D.counts door.old).most) }
        ensures most { (D.counts door.new).most ≡ (D.counts door.old).most }
        ensures turns { IfSome self.old.in_work (λ view.
            TurnsWork W.World S.Sitting B.exact route.now now view self.old self.new result end.new
            (record {
              door = record { pool = D.pool door.old; counts = D.counts door.old };
              backend = record { counts = B.counts backend.old; happened = B.happened backend.old };
            })
            (record {
              door = record { pool = D.pool door.new; counts = D.counts door.new };
              backend = record { counts = B.counts backend.new; happened = B.happened backend.new };
            })) }
    {
        package_outcome_fits::<W, S>();
        let Some(package) = &mut self.work else {
            unreachable!()
        };
        match package.turn(alloc, route, backend, door, now) {
            Turned::Went => Stepped::Went,
            Turned::NotYet => Stepped::NotYet,
            Turned::Memory => end_step(end, Err(Memory)),
            Turned::Done => {
                let done = self.end_work(alloc, route);
                end_step(end, done)
            }
        }
    }

    /// Drives the legs of the request in work until all are done, and answers it, or goes on with the fetch
    /// of a GET; and how the connection has ended so, if it did. The clock is read before each turn.
    pub(crate) fn drive<R: Wait, B: Backend<W, Session = S>, D: Door<W, S>, C: Clock>(
        &mut self,
        rt: &R,
        alloc: Global,
        route: &Route,
        backend: &mut B,
        door: &mut D,
        clock: &mut C,
        end: &mut Option<End>,
    ) -> Stepped
        requires goes_on { end.old ≡ None }
        requires works { IsSome self.old.in_work }
        requires one_work { IsOneWork route.now
            self.old.session.waiting self.old.stage self.old.in_work }
        requires of { IfSome self.old.in_work
            (IsPackageOf W.World S.Sitting route.now (D.counts door.old).most) }
        ensures most { (D.counts door.new).most ≡ (D.counts door.old).most }
        ensures drives { IfSome self.old.in_work (λ view.
            DrivesWork W.World S.Sitting B.exact route.now view self.old self.new result end.new
            (outside_of D.Door B.Watched door.old backend.old)
            (outside_of D.Door B.Watched door.new backend.new)) }
    {
        package_outcome_fits::<W, S>();
        let Some(package) = &mut self.work else {
            unreachable!()
        };
        match package.drive(rt, alloc, route, backend, door, clock) {
            Err(memory) => end_step(end, Err(memory)),
            Ok(()) => {
                let done = self.end_work(alloc, route);
                end_step(end, done)
            }
        }
    }

    /// Answers the request whose legs are done, or goes on with the fetch of a GET. A connection that is
    /// answered a GET has ended so.
    fn end_work(&mut self, alloc: Global, route: &Route) -> Result<Option<End>, Memory>
        requires works { IsSome self.old.in_work }
        requires one_work { IsOneWork route.now
            self.old.session.waiting self.old.stage self.old.in_work }
        requires over { IfSome self.old.in_work IsOver }
        requires asks { IfSome self.old.in_work (AsksSo route.now) }
        requires fits { IfSome self.old.in_work
            (λ view. FitsWork view.work (outcome_in route.now view)) }
        ensures ended { IfSome self.old.in_work
            (λ view. EndsWork route.now view self.old self.new result) }
        ensures ready { OnOk result (IsReady W.World S.Sitting route.now self.new) }
    {
        let Some(package) = self.work.take() else {
            unreachable!()
        };
        add_accounts(alloc, &mut self.totals, package.accounts());
        if self.get.is_idle() {
            self.end_request(alloc, route, package)
        } else {
            self.end_get(alloc, route, package)
        }
    }

    /// Answers the request of the session whose legs are done.
    fn end_request(
        &mut self,
        alloc: Global,
        route: &Route,
        done: Package<W, S>,
    ) -> Result<Option<End>, Memory>
        requires rests { self.old.in_work ≡ None }
        requires asks { AsksSo route.now done }
        requires over { IsOver done }
        requires waits { IsWaitedFor self.old.session.waiting done.work }
        requires fits { FitsWork done.work (outcome_in route.now done) }
        ensures ended { IsRequestEndedIf route.now done self.old self.new result }
        ensures totals { self.new.totals ≡ self.old.totals }
        ensures ready { OnOk result (IsReady W.World S.Sitting route.now self.new) }
    {
        let (session, marks, out) = (&mut self.session, &mut self.marks, &mut self.out);
        settle(alloc, route, done, session, marks, out)?;
        Ok(None)
    }

    /// Ends the work of a GET whose legs are done: the GET is answered, and the connection has ended so,
    /// or the legs for its fetch are begun. Without memory nothing is written.
    fn end_get(
        &mut self,
        alloc: Global,
        route: &Route,
        done: Package<W, S>,
    ) -> Result<Option<End>, Memory>
        requires rests { self.old.in_work ≡ None }
        requires asks { AsksSo route.now done }
        requires over { IsOver done }
        requires waits { work_of route.now self.old.stage ≡ Some done.work }
        requires fits { FitsWork done.work (outcome_in route.now done) }
        ensures ended { IsGetEndedIf route.now done self.old self.new result }
        ensures totals { self.new.totals ≡ self.old.totals }
        ensures ready { OnOk result (IsReady W.World S.Sitting route.now self.new) }
    {
        finished_has_mark();
        let written = self.out.len();
        let outcome = done.finish(alloc, route)?;
        match end_get(alloc, &mut self.get, route, outcome, &mut self.out) {
            front_http::front_sru::Begun::Write(mark, end) => self.list(mark, end, written),
            front_http::front_sru::Begun::Work(work) => self.start(alloc, route, work),
            front_http::front_sru::Begun::Memory => Err(Memory),
        }
    }

    /// Gives up each session that is out for the request in work; what its legs counted is added.
    pub(crate) fn give_up<D: Door<W, S>>(&mut self, door: &mut D)
        ensures state { self.new ≡ given_up self.old }
        ensures pool { D.pool door.new
            ≡ option_map (lost_seats (legs_in self.old.in_work)) (D.pool door.old) }
        ensures counts { D.counts door.new ≡ D.counts door.old }
    {
        let Some(mut package) = self.work.take() else {
            return;
        };
        add_accounts(self.alloc, &mut self.totals, package.accounts());
        package.give_up(door);
        drop(package);
    }
}
