//! One connection, polled until it has ended.

ghost use Rattle.std.specs.Prelude.{IsSome, IsTrue};
ghost use Rattle.event_front.specs.conn_served.front_conn.steps.States.{IsConnOf};

use event_front::{Awaits, ConnTask, Polled};
use event_outside::{EdgeSink, EdgeSource};
use gw_outside::{Backend, Clock};
use pool_sets::Door;
use route_config::Route;
use std::alloc::Global;
use z_types::{Sitting, World};

/// The most polls of a connection.
const MOST_POLLS: u32 = 100_000;

/// How often polls were pending, by what they awaited.
#[derive(Clone, Copy, PartialEq, Eq, Debug)]
pub(crate) struct Pauses {
    pub(crate) client: u32,
    pub(crate) target: u32,
    pub(crate) nothing: u32,
}

impl Pauses {
    /// So many.
    pub(crate) fn new(client: u32, target: u32, nothing: u32) -> Pauses {
        Pauses {
            client,
            target,
            nothing,
        }
    }

    /// One more was.
    fn count(&mut self, awaits: Awaits) {
        match awaits {
            Awaits::Client => self.client = self.client.saturating_add(1),
            Awaits::Target => self.target = self.target.saturating_add(1),
            Awaits::Nothing => self.nothing = self.nothing.saturating_add(1),
        }
    }
}

/// Polls a connection until it has ended, and counts how often it was pending. Tells whether it has ended.
pub(crate) fn poll_out<
    W: World,
    S: Sitting<W>,
    I: EdgeSource,
    K: EdgeSink,
    B: Backend<W, Session = S>,
    D: Door<W, S>,
    C: Clock,
>(
    alloc: Global,
    route: &Route,
    task: &mut ConnTask<W, S, I, K>,
    backend: &mut B,
    door: &mut D,
    clock: &mut C,
    pauses: &mut Pauses,
) -> bool
    requires of { IsConnOf W.World S.Sitting route.now (D.counts door.old).most task.old.conn }
    ensures ended { IsTrue result → IsSome task.new.ended }
{
    for _poll in 0..MOST_POLLS {
        match task.poll(alloc, route, backend, door, clock) {
            Polled::Pending => pauses.count(task.awaits()),
            Polled::Ready | Polled::Memory => return true,
        }
    }
    false
}
