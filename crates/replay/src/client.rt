//! One client of a replay: its connection, and what was written to it.

ghost use Rattle.std.specs.Prelude.{◌≡◌, IfOk, IsSome, OnOk, false};
ghost use Rattle.front_conn_costs.specs.front_conn.steps.States.{IsConnOf};
ghost use Rattle.replay.specs.Trace.{HasRun, IsClientStep, IsReportedAs, outside_of, with_no_more, with_octets};
ghost use Rattle.replay.specs.Clients.{is_idle, new_client};
ghost use Rattle.replay.specs.steps.Clients.{left};

use crate::ClientReport;
use front_conn_costs::front_conn::{Conn, Stepped, Total, stays_of_route};
use gw_outside::Backend;
use pool_sets::Door;
use route_config::Route;
use std::alloc::Global;
use std::marker::Model;
use z_types::{List, Memory, Sitting, Text, World};

/// A client that a script names.
#[derive(Drop)]
pub(crate) struct Client<W: World, S: Sitting<W>> {
    conn: Conn<W, S>,
    written: Text,
}

impl<W: World, S: Sitting<W>> Model for Client<W, S> {
    ghost use Rattle.std.specs.Coded.{codes};
    ghost use Rattle.z_types.specs.Tree.{tree_code};
    ghost use Rattle.replay.specs.Clients.{ClientState};

    ghost Value = { ClientState S };

    ghost coded = { Prim.hlevel (codes, tree_code) };

    ghost view = { λ c. record { conn = c.conn; written = c.written } };
}

impl<W: World, S: Sitting<W>> Client<W, S> {
    /// A client to which nothing has happened.
    pub(crate) fn new(alloc: Global) -> Client<W, S>
        ensures { result ≡ new_client }
    {
        Client {
            conn: Conn::new(alloc),
            written: Text::new(alloc),
        }
    }

    /// Octets come from the client, whose input has not ended.
    pub(crate) fn feed(&mut self, octets: &[u8]) -> Result<(), Memory>
        requires { self.old.conn.has_ended ≡ false }
        ensures { OnOk result (self.new ≡ with_octets octets.now self.old) }
    {
        self.conn.feed(octets)
    }

    /// The client's input has ended.
    pub(crate) fn end_input(&mut self)
        ensures { self.new ≡ with_no_more self.old }
    {
        self.conn.end_input();
    }

    /// One step of the client's connection at a moment, behind which what it wrote is the client's:
    /// whether it was idle.
    pub(crate) fn step<B: Backend<W, Session = S>, D: Door<W, S>>(
        &mut self,
        alloc: Global,
        route: &Route,
        backend: &mut B,
        door: &mut D,
        now: u64,
    ) -> Result<bool, Memory>
        requires { IsConnOf W.World S.Sitting route.now (D.counts door.old).most self.old.conn }
        ensures most { (D.counts door.new).most ≡ (D.counts door.old).most }
        ensures of { OnOk result
            (IsConnOf W.World S.Sitting route.now (D.counts door.new).most self.new.conn) }
        ensures steps { IfOk result (λ idle.
            IsClientStep W.World S.Sitting B.exact route.now now idle self.old self.new
            (outside_of D.Door B.Watched door.old backend.old)
            (outside_of D.Door B.Watched door.new backend.new)) }
    {
        stays_of_route::<W, S>();
        let stepped = self.conn.step(alloc, route, backend, door, now);
        if let Stepped::Memory = stepped {
            return Err(Memory);
        }
        self.written.append(self.conn.out())?;
        self.conn.clear_out();
        Ok(is_idle(stepped))
    }

    /// Steps at one moment until one finds the connection idle; a step that finds that a target has not
    /// replied yet is followed by another. Each reply is awaited for so many looks at most, so the count
    /// of steps never comes to its end.
    pub(crate) fn run<B: Backend<W, Session = S>, D: Door<W, S>>(
        &mut self,
        alloc: Global,
        route: &Route,
        backend: &mut B,
        door: &mut D,
        now: u64,
    ) -> Result<(), Memory>
        requires { IsConnOf W.World S.Sitting route.now (D.counts door.old).most self.old.conn }
        ensures most { (D.counts door.new).most ≡ (D.counts door.old).most }
        ensures runs { OnOk result (HasRun W.World S.Sitting B.exact route.now now self.old self.new
            (outside_of D.Door B.Watched door.old backend.old)
            (outside_of D.Door B.Watched door.new backend.new)) }
    {
        for _ in 0..u64::MAX {
            if self.step(alloc, route, backend, door, now)? {
                return Ok(());
            }
        }
        Err(Memory)
    }

    /// Gives up the sessions that are out for the client.
    pub(crate) fn give_up<D: Door<W, S>>(&mut self, door: &mut D)
        ensures { self.new ≡ left self.old }
    {
        self.conn.give_up(door);
    }

    /// What the legs of the client's requests counted, where none is in work.
    pub(crate) fn totals(&self) -> &List<Total>
        ensures { result.now ≡ self.now.conn.totals }
    {
        self.conn.totals()
    }

    /// The report of a client of this number, whose connection has ended.
    pub(crate) fn into_report(self, number: u32) -> ClientReport
        requires { IsSome self.conn.end }
        ensures { IsReportedAs number self result }
    {
        let Some(end) = self.conn.end() else {
            unreachable!()
        };
        ClientReport {
            number,
            bytes: self.written,
            marks: self.conn.into_marks(),
            end,
        }
    }
}

/// Whether a step found nothing to do.
fn is_idle(stepped: Stepped) -> bool
    ensures { result ≡ is_idle stepped }
{
    matches!(stepped, Stepped::Idle)
}
