//! A connection as a task, which is polled.

ghost use Rattle.std.specs.Prelude.{◌≡◌, ℕ, IsSome, None, Some};
ghost use Rattle.std.specs.Option.{option_map};
ghost use Rattle.route_config.specs.declared.route.Route.{Route};
ghost use Rattle.conn_served.specs.Serving.{IsServed, Streams};
ghost use Rattle.conn_served.specs.front_conn.steps.Answering.{legs_in};
ghost use Rattle.conn_served.specs.front_conn.steps.Drives.{conn_at};
ghost use Rattle.conn_served.specs.front_conn.steps.States.{IsConnOf, nothing_yet};
ghost use Rattle.conn_served.specs.front_session.Sessions.{new_session};
ghost use Rattle.conn_served.specs.package.steps.Ends.{lost_seats};
ghost use Rattle.conn_served.specs.steps.Rounds.{GoesSo};
ghost use Rattle.event_front.specs.Edges.{looks, source_view, streams};
ghost use Rattle.event_front.specs.Polls.{IsAwaited, MakesFew, ReadsFew};
ghost use Rattle.event_front.specs.Tasks.{Answers, IsOpen, Owes, OwesFew, Stands, is_busy_at};

use crate::Awaits;
use crate::came::Came;
use crate::rounds::make_rounds;
use conn_served::front_conn::{Conn, stands_at_start};
use conn_served::front_conn_costs::costs_nothing;
use conn_served::{Served, whose_of};
use event_outside::{EdgeSink, EdgeSource};
use gw_outside::{Backend, Clock, Whose};
use pool_sets::Door;
use route_config::Route;
use std::alloc::Global;
use std::marker::Model;
use z_types::{End, Sitting, World};

/// What a poll answered.
#[derive(Clone, Copy, PartialEq, Eq, Debug)]
pub enum Polled {
    /// The connection goes on.
    Pending,
    /// It has ended, and is to be handed over.
    Ready,
    /// It has ended for want of memory, and is to be handed over.
    Memory,
}

/// A connection of a client as a task (ANSI/NISO Z39.50-2003, 4.2; SRU 1.2): the connection, where its
/// octets come from and where they go, how many of those that are out were written, how it ended once it
/// did, and what it awaits else.
///
/// ```text
/// new      once, first
/// poll     again and again, until it is Ready or Memory; with one route for all, and doors that open
///          as many sessions at most
/// awaits   after Pending: when a poll can find something
/// into_parts   after Ready and Memory: what came of it, and what it was made of
/// abandon  at any time: what it was made of
/// ```
#[derive(Drop)]
pub struct ConnTask<W: World, S: Sitting<W>, I: EdgeSource, K: EdgeSink> {
    conn: Conn<W, S>,
    input: I,
    output: K,
    written: usize,
    ended: Option<End>,
    awaits: Awaits,
    cached: u64,
}

impl<W: World, S: Sitting<W>, I: EdgeSource, K: EdgeSink> Model for ConnTask<W, S, I, K> {
    ghost use Rattle.std.specs.Prelude.{◌≤◌, length};
    ghost use Rattle.std.specs.Coded.{codes};
    ghost use Rattle.z_types.specs.Tree.{tree_code};
    ghost use Rattle.event_front.specs.Tasks.{TaskView};

    ghost Value = { TaskView S I K };

    ghost coded = { Prim.hlevel (codes, tree_code) };

    ghost view = { λ t. record {
      conn = t.conn;
      input = t.input;
      output = t.output;
      written = t.written;
      ended = t.ended;
      awaits = t.awaits;
    } };

    ghost invariant = { λ t. t.written ≤ length t.conn.out };
}

impl<W: World, S: Sitting<W>, I: EdgeSource, K: EdgeSink> ConnTask<W, S, I, K> {
    /// A connection of which nothing has come.
    pub fn new(alloc: Global, input: I, output: K) -> ConnTask<W, S, I, K>
        ensures conn { result.conn ≡ nothing_yet new_session }
        ensures input { result.input ≡ input }
        ensures output { result.output ≡ output }
        ensures ended { result.ended ≡ None }
        ensures of { (route : Route) (most : ℕ)
            → IsConnOf W.World S.Sitting route most result.conn }
        ensures stands { (route : Route) → IsOpen W.World route
            (streams I.EdgeSource K.EdgeSink input output)
            (streams I.EdgeSource K.EdgeSink input output) result.conn result.written }
        ensures owes { OwesFew result.conn }
    {
        stands_at_start::<W, S>();
        ConnTask {
            conn: Conn::new(alloc),
            input,
            output,
            written: 0,
            ended: None,
            awaits: Awaits::Nothing,
            cached: 0,
        }
    }

    /// Lets the connection go on, in up to 1000 rounds: each writes what is out, and where all of it is,
    /// makes one step, and reads once where that step found nothing to do. It is pending where its sink has
    /// no room yet, its source nothing, or a target has not replied; where it has read 65536 octets, and
    /// where it has made 1000 steps. A connection that has come to its end stays there.
    ///
    /// After a failed read (`ReadFault`) all that was read is answered. After a failed write (`WriteFault`)
    /// and without memory (`Memory`) a front of the answers was written.
    pub fn poll<B: Backend<W, Session = S>, D: Door<W, S>, C: Clock>(
        &mut self,
        alloc: Global,
        route: &Route,
        backend: &mut B,
        door: &mut D,
        clock: &mut C,
    ) -> Polled
        requires of { IsConnOf W.World S.Sitting route.now (D.counts door.old).most self.old.conn }
        ensures of { IsConnOf W.World S.Sitting route.now (D.counts door.new).most self.new.conn }
        ensures most { (D.counts door.new).most ≡ (D.counts door.old).most }

        // Wherever it stood since a start, it stands again: what was written answers what was read.
        ensures goes { (start : Streams)
            → Stands W.World route.now start
            (streams I.EdgeSource K.EdgeSink self.old.input self.old.output)
            self.old.conn self.old.written self.old.ended
            → Stands W.World route.now start
            (streams I.EdgeSource K.EdgeSink self.new.input self.new.output)
            self.new.conn self.new.written self.new.ended }

        // The causes of its marks were met, and what it called is paid for, now or once it has ended.
        ensures so { GoesSo W.World S.Sitting B.exact route.now
            (conn_at D.Door B.Watched self.old.conn door.old backend.old)
            (conn_at D.Door B.Watched self.new.conn door.new backend.new) }
        ensures owes { Owes self.old.conn self.old.ended → Owes self.new.conn self.new.ended }

        // It makes 1000 steps at most, and reads 65536 octets at most, only while nothing is out.
        ensures steps { MakesFew W.World S.Sitting B.exact route.now
            (conn_at D.Door B.Watched self.old.conn door.old backend.old)
            (conn_at D.Door B.Watched self.new.conn door.new backend.new) }
        ensures reads { ReadsFew (source_view I.EdgeSource self.old.input)
            (source_view I.EdgeSource self.new.input) }
        ensures answers { Answers self.new.ended result }
        ensures over { ¬ (result ≡ Polled.Pending) → IsSome self.new.ended }
        ensures pending { result ≡ Polled.Pending
            → IsAwaited W.World S.Sitting B.exact route.now self.new.awaits
            (conn_at D.Door B.Watched self.old.conn door.old backend.old)
            (conn_at D.Door B.Watched self.new.conn door.new backend.new)
            (looks I.EdgeSource K.EdgeSink self.old.input self.old.output)
            (looks I.EdgeSource K.EdgeSink self.new.input self.new.output)
            (source_view I.EdgeSource self.old.input) (source_view I.EdgeSource self.new.input) }
    {
        costs_nothing::<W, S>();
        if let Some(end) = self.ended {
            return answer_of(end);
        }
        let conn = &mut self.conn;
        let (input, output) = (&mut self.input, &mut self.output);
        let written = &mut self.written;
        let before = backend.served_from_cache();
        match make_rounds(
            alloc, route, conn, input, output, written, backend, door, clock,
        ) {
            Came::To(awaits) => {
                self.awaits = awaits;
                self.cached = cached_since(self.cached, before, backend.served_from_cache());
                Polled::Pending
            }
            Came::End(end) => {
                self.ended = Some(end);
                self.cached = cached_since(self.cached, before, backend.served_from_cache());
                answer_of(end)
            }
        }
    }

    /// What it awaits, where its last poll was pending: a poll before that can find nothing.
    pub fn awaits(&self) -> Awaits
        ensures { result ≡ self.now.awaits }
    {
        self.awaits
    }

    /// Whether a poll may find something: where not, it would find nothing yet. A poll that could look at its
    /// target alone is one where targets are due, and it is woken by one of its own.
    pub fn may_go_on(&self, targets_are_due: bool) -> bool {
        match self.awaits {
            Awaits::Client if self.conn.out().is_empty() => self.input.may_give(),
            Awaits::Client => self.output.may_take(),
            Awaits::Target => targets_are_due && self.input.is_woken(),
            Awaits::Nothing => true,
        }
    }

    /// Whether it goes on though its client does nothing.
    pub fn is_busy(&self) -> bool
        ensures { result ≡ is_busy_at self.now.awaits }
    {
        self.awaits != Awaits::Client
    }

    /// Whose it is, by the Inits of its client.
    pub fn whose<'a>(&self, route: &'a Route) -> Whose<'a> {
        whose_of(route, self.conn.whose(), self.conn.units())
    }

    /// How many Presents to targets were answered by records that were kept, in its polls.
    pub fn cached(&self) -> u64 {
        self.cached
    }

    /// What came of it, and what it was made of. Sessions with targets that are out for it are given up.
    pub fn into_parts<D: Door<W, S>>(self, door: &mut D) -> (Served, I, K)
        requires ended { IsSome self.ended }
        ensures served { (route : Route) (start : Streams)
            → Stands W.World route start (streams I.EdgeSource K.EdgeSink self.input self.output)
            self.conn self.written self.ended
            → IsServed W.World route start (streams I.EdgeSource K.EdgeSink result.1 result.2)
            result.0.marks result.0.end }
        ensures marks { result.0.marks ≡ self.conn.marks }
        ensures end { Some result.0.end ≡ self.ended }
        ensures input { result.1 ≡ self.input }
        ensures output { result.2 ≡ self.output }
        ensures pool { D.pool door.new
            ≡ option_map (lost_seats (legs_in self.conn.in_work)) (D.pool door.old) }
        ensures counts { D.counts door.new ≡ D.counts door.old }
    {
        let ConnTask {
            mut conn,
            input,
            output,
            written: _,
            ended,
            awaits: _,
            cached: _,
        } = self;
        conn.give_up(door);
        let served = Served {
            marks: conn.into_marks(),
            end: ended.unwrap_or(End::Memory),
        };
        (served, input, output)
    }

    /// What it was made of. Sessions with targets that are out for it are given up.
    pub fn abandon<D: Door<W, S>>(self, door: &mut D) -> (I, K)
        ensures input { result.0 ≡ self.input }
        ensures output { result.1 ≡ self.output }
        ensures pool { D.pool door.new
            ≡ option_map (lost_seats (legs_in self.conn.in_work)) (D.pool door.old) }
        ensures counts { D.counts door.new ≡ D.counts door.old }
    {
        let ConnTask {
            conn: mut left,
            input,
            output,
            written: _,
            ended: _,
            awaits: _,
            cached: _,
        } = self;
        left.give_up(door);
        let _marks = left.into_marks();
        (input, output)
    }
}

/// How many Presents were answered by records that were kept, with those of one poll more.
fn cached_since(cached: u64, before: u64, behind: u64) -> u64 {
    cached.saturating_add(behind.saturating_sub(before))
}

/// What a poll answers of a connection that has come to its end so.
fn answer_of(end: End) -> Polled
    ensures { Answers (Some end) result }
{
    match end {
        End::Memory => Polled::Memory,
        _ => Polled::Ready,
    }
}
