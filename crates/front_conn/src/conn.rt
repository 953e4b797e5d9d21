//! A connection.

ghost use Rattle.std.specs.Prelude.{◌≡◌, ◌↔◌, ℕ, IfSome, IsSome, IsTrue, None, OnErr, OnOk, Some, false};
ghost use Rattle.std.specs.List.{AllByRecursion};
ghost use Rattle.std.specs.Option.{option_map};
ghost use Rattle.route_config.specs.declared.route.Route.{Route};
ghost use Rattle.front_z.specs.front_session.Sessions.{new_session, whose_of};
ghost use Rattle.package.specs.steps.Ends.{lost_seats};
ghost use Rattle.package.specs.steps.Packages.{IsPackageOf};
ghost use Rattle.front_conn.specs.steps.Answering.{legs_in};
ghost use Rattle.front_conn.specs.steps.Drives.{HasDriven, IsInWork, conn_at};
ghost use Rattle.front_conn.specs.steps.Feeding.{with_end, with_piece, without_out, without_work};
ghost use Rattle.front_conn.specs.steps.States.{HasLegsOf, IsConnOf, IsOneWork, nothing_yet};
ghost use Rattle.front_conn.specs.steps.Steps.{GoesAhead, HasTurned, IsStepped, KeepsState, UnlessMemory};

use crate::ahead::{Ahead, awaits_more, look};
use crate::answering::Answering;
use crate::ends::end_step;
use crate::{Stepped, Total};
use front_http::sru_rules::{head_is_refused, works_answer};
use front_http::{gets_go_on, heads_answer};
use front_z::gateway_rules::access_rules::Who;
use gw_outside::{Backend, Clock};
use package::package_rules::have_members;
use package::{package_cause_is_allowed, package_outcome_is_true};
use pool_sets::Door;
use route_config::Route;
use std::alloc::Global;
use std::marker::Model;
use std::sync::Wait;
use z_frame::Framer;
use z_types::{End, List, Mark, Memory, Sitting, World};

/// A connection of one client: the octets that were not taken yet, its session or its GET, the request in
/// work, and what was answered. It speaks HTTP where its first octet is an ASCII letter, and else Z39.50.
/// An HTTP connection answers one GET, and what follows the head is never taken.
///
/// ```text
/// new    once, first
/// feed   for each piece that comes, until the input has ended
/// end_input   once no more will come
/// step   after each piece, and after the end of the input, again until it is Idle or Memory, also
///        after NotYet; with one route for all, and doors that open as many sessions at most
/// drive  in place of steps, where a request is_in_work: until it is answered
/// out, clear_out   after steps: what is to be written, then cleared once it is written
/// end    tells whether it has ended: from then on feed and step do nothing
/// give_up   where it is left before its end, and after a step's Memory
/// marks, totals, into_marks   last
/// ```
#[derive(Drop)]
pub struct Conn<W: World, S: Sitting<W>> {
    framer: Framer,
    passed: usize,
    answering: Answering<W, S>,
    end: Option<End>,
    has_ended: bool,
}

impl<W: World, S: Sitting<W>> Model for Conn<W, S> {
    ghost use Rattle.std.specs.Prelude.{◌≡◌, None};
    ghost use Rattle.std.specs.Coded.{codes};
    ghost use Rattle.z_types.specs.Tree.{tree_code};
    ghost use Rattle.front_http.specs.Seeking.{HasPassed};
    ghost use Rattle.front_conn.specs.steps.States.{ConnectionState};

    ghost Value = { ConnectionState S };

    ghost coded = { Prim.hlevel (codes, tree_code) };

    ghost view = { λ c. record {
      session = c.answering.session;
      stage = c.answering.stage;
      in_work = c.answering.in_work;
      totals = c.answering.totals;
      marks = c.answering.marks;
      out = c.answering.out;
      at = c.framer.end;
      left = c.framer.rest;
      has_ended = c.has_ended;
      end = c.end;
    } };

    ghost invariant = { λ c. c.end ≡ None
        → (c.framer.refused ≡ None) × HasPassed c.framer.rest c.passed };
}

impl<W: World, S: Sitting<W>> Conn<W, S> {
    /// A connection of which nothing has come.
    pub fn new(alloc: Global) -> Conn<W, S>
        ensures new { result ≡ nothing_yet new_session }
        ensures of { (route : Route) (most : ℕ) → IsConnOf W.World S.Sitting route most result }
    {
        Conn {
            framer: Framer::new(alloc),
            passed: 0,
            answering: Answering::new(alloc),
            end: None,
            has_ended: false,
        }
    }

    /// Takes the next piece of the input; a connection that has ended takes no more. Without memory
    /// nothing is changed.
    pub fn feed(&mut self, piece: &[u8]) -> Result<(), Memory>
        requires { self.old.has_ended ≡ false }
        ensures ok { OnOk result (self.new ≡ with_piece self.old piece.now) }
        ensures err { OnErr result (self.new ≡ self.old) }
    {
        if self.end.is_some() {
            return Ok(());
        }
        self.framer.feed(piece)
    }

    /// The input has ended.
    pub fn end_input(&mut self)
        ensures { self.new ≡ with_end self.old }
    {
        self.has_ended = true;
    }

    /// What is to be written to the client.
    pub fn out(&self) -> &[u8]
        ensures { result.now ≡ self.now.out }
    {
        self.answering.out()
    }

    /// All that was to be written has been written.
    pub fn clear_out(&mut self)
        ensures { self.new ≡ without_out self.old }
    {
        self.answering.clear_out();
    }

    /// Under which mark each request was answered, in their order.
    pub fn marks(&self) -> &List<Mark>
        ensures { result.now ≡ self.now.marks }
    {
        self.answering.marks()
    }

    /// Whose the client is, once an Init was accepted.
    pub fn whose(&self) -> Option<Who>
        ensures { result ≡ whose_of self.now.session }
    {
        self.answering.whose()
    }

    /// How many units were begun. Until an Init is accepted each is an Init that was refused.
    pub fn units(&self) -> u32
        ensures { result ≡ self.now.session.units }
    {
        self.answering.units()
    }

    /// What the legs of its requests counted: a sum for each class of the route, in their order, once a
    /// unit or a head was begun. What the legs of the request in work counted is not in them yet.
    pub fn totals(&self) -> &List<Total>
        ensures { result.now ≡ self.now.totals }
    {
        self.answering.totals()
    }

    /// How the connection has ended, if it did.
    pub fn end(&self) -> Option<End>
        ensures { result ≡ self.now.end }
    {
        self.end
    }

    /// The marks, given back.
    pub fn into_marks(self) -> List<Mark>
        ensures { result ≡ self.marks }
    {
        self.answering.into_marks()
    }

    /// One step: the request in work has its turn, in which each of its legs that is not done goes on, and
    /// is answered once all are done, or a GET goes on with its fetch; or else the next unit of the client
    /// is begun, or the head of an HTTP connection, and answered at once where it asks nothing of a target;
    /// or the connection ends, by the end of its input or by octets that are no unit. Without memory the
    /// connection ends so, with nothing written in that step.
    pub fn step<B: Backend<W, Session = S>, D: Door<W, S>>(
        &mut self,
        alloc: Global,
        route: &Route,
        backend: &mut B,
        door: &mut D,
        now: u64,
    ) -> Stepped
        requires of { IsConnOf W.World S.Sitting route.now (D.counts door.old).most self.old }
        ensures of { IsConnOf W.World S.Sitting route.now (D.counts door.new).most self.new }
        ensures most { (D.counts door.new).most ≡ (D.counts door.old).most }
        ensures stepped { IsStepped W.World S.Sitting B.exact route.now now self.old self.new result
            (record {
              door = record { pool = D.pool door.old; counts = D.counts door.old };
              backend = record { counts = B.counts backend.old; happened = B.happened backend.old };
            })
            (record {
              door = record { pool = D.pool door.new; counts = D.counts door.new };
              backend = record { counts = B.counts backend.new; happened = B.happened backend.new };
            }) }
        ensures keeps { UnlessMemory result (KeepsState W.World route.now self.old self.new) }
    {
        if self.end.is_some() {
            return Stepped::Idle;
        }
        if self.answering.is_in_work() {
            return self.turn(alloc, route, backend, door, now);
        }
        self.go_ahead(alloc, route)
    }

    /// Turns the request in work.
    #[inline(never)]
    fn turn<B: Backend<W, Session = S>, D: Door<W, S>>(
        &mut self,
        alloc: Global,
        route: &Route,
        backend: &mut B,
        door: &mut D,
        now: u64,
    ) -> Stepped
        requires goes_on { self.old.end ≡ None }
        requires works { IsSome self.old.in_work }
        requires of { IfSome self.old.in_work
            (IsPackageOf W.World S.Sitting route.now (D.counts door.old).most) }
        requires sets { AllByRecursion (HasLegsOf route.now) self.old.session.sets }
        requires one_work { IsOneWork route.now
            self.old.session.waiting self.old.stage self.old.in_work }
        ensures of { IsConnOf W.World S.Sitting route.now (D.counts door.new).most self.new }
        ensures most { (D.counts door.new).most ≡ (D.counts door.old).most }
        ensures turns { IfSome self.old.in_work (λ view.
            HasTurned W.World S.Sitting B.exact route.now now view self.old self.new result
            (record {
              door = record { pool = D.pool door.old; counts = D.counts door.old };
              backend = record { counts = B.counts backend.old; happened = B.happened backend.old };
            })
            (record {
              door = record { pool = D.pool door.new; counts = D.counts door.new };
              backend = record { counts = B.counts backend.new; happened = B.happened backend.new };
            })) }
        ensures keeps { UnlessMemory result (KeepsState W.World route.now self.old self.new) }
    {
        let _ = route.parts();
        have_members(route);
        package_cause_is_allowed::<W, S>();
        package_outcome_is_true::<W, S>();
        works_answer::<W>();
        gets_go_on::<W>();
        let end = &mut self.end;
        self.answering.turn(alloc, route, backend, door, now, end)
    }

    /// Whether a request is in work, so that the connection is to be driven.
    pub fn is_in_work(&self) -> bool
        ensures { IsTrue result ↔ IsInWork self.now }
    {
        self.end.is_none() && self.answering.is_in_work()
    }

    /// Drives the package in work until all its legs are done, and answers its request, or goes on with the
    /// fetch of a GET.
    pub(crate) fn drive_package<R: Wait, B: Backend<W, Session = S>, D: Door<W, S>, C: Clock>(
        &mut self,
        rt: &R,
        alloc: Global,
        route: &Route,
        backend: &mut B,
        door: &mut D,
        clock: &mut C,
    ) -> Stepped
        requires in_work { IsInWork self.old }
        requires of { IsConnOf W.World S.Sitting route.now (D.counts door.old).most self.old }
        ensures of { IsConnOf W.World S.Sitting route.now (D.counts door.new).most self.new }
        ensures most { (D.counts door.new).most ≡ (D.counts door.old).most }
        ensures driven { HasDriven W.World S.Sitting B.exact route.now
            (conn_at D.Door B.Watched self.old door.old backend.old)
            (conn_at D.Door B.Watched self.new door.new backend.new) result }
        ensures keeps { UnlessMemory result (KeepsState W.World route.now self.old self.new) }
    {
        let _ = route.parts();
        have_members(route);
        package_cause_is_allowed::<W, S>();
        package_outcome_is_true::<W, S>();
        works_answer::<W>();
        gets_go_on::<W>();
        let end = &mut self.end;
        self.answering
            .drive(rt, alloc, route, backend, door, clock, end)
    }

    /// Goes ahead where no request is in work: idles where more of a head is awaited, and else takes what
    /// comes next. (Heads that come in many pieces are awaited here, at little cost for each.)
    fn go_ahead(&mut self, alloc: Global, route: &Route) -> Stepped
        requires goes_on { self.old.end ≡ None }
        requires rests { self.old.in_work ≡ None }
        requires sets { AllByRecursion (HasLegsOf route.now) self.old.session.sets }
        ensures of { (most : ℕ) → IsConnOf W.World S.Sitting route.now most self.new }
        ensures goes { GoesAhead route.now self.old self.new result }
        ensures keeps { UnlessMemory result (KeepsState W.World route.now self.old self.new) }
    {
        if awaits_more(&self.framer, &mut self.passed, self.has_ended) {
            return Stepped::Idle;
        }
        self.take_next(alloc, route)
    }

    /// Takes and begins the next unit, or the head of an HTTP connection, or ends the connection.
    #[inline(never)]
    fn take_next(&mut self, alloc: Global, route: &Route) -> Stepped
        requires goes_on { self.old.end ≡ None }
        requires rests { self.old.in_work ≡ None }
        requires sets { AllByRecursion (HasLegsOf route.now) self.old.session.sets }
        ensures of { (most : ℕ) → IsConnOf W.World S.Sitting route.now most self.new }
        ensures goes { GoesAhead route.now self.old self.new result }
        ensures keeps { UnlessMemory result (KeepsState W.World route.now self.old self.new) }
    {
        heads_answer::<W>();
        head_is_refused::<W>();
        match look(alloc, &mut self.framer, &mut self.passed, self.has_ended) {
            Ahead::Nothing => Stepped::Idle,
            Ahead::Ended(end) => end_step(&mut self.end, Ok(Some(end))),
            Ahead::Bad(at) => {
                let done = self.answering.refuse(at);
                end_step(&mut self.end, done)
            }
            Ahead::Head(head) => {
                let done = self.answering.begin_head(alloc, route, head);
                end_step(&mut self.end, done)
            }
            Ahead::Whole(start, end) => {
                let unit = self.framer.unit(start, end);
                let done = self.answering.begin(alloc, route, unit, start);
                end_step(&mut self.end, done)
            }
        }
    }

    /// Gives up each session that is out for the request in work, which is answered no more; what its legs
    /// counted is added to the sums. The connection is then of no more use.
    pub fn give_up<D: Door<W, S>>(&mut self, door: &mut D)
        ensures state { self.new ≡ without_work self.old }
        ensures pool { D.pool door.new
            ≡ option_map (lost_seats (legs_in self.old.in_work)) (D.pool door.old) }
        ensures counts { D.counts door.new ≡ D.counts door.old }
    {
        self.answering.give_up(door);
    }
}
