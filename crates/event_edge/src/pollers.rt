//! The wait for all sockets.

ghost use Rattle.std.specs.Prelude.{◌≡◌};

use crate::Readiness;
use crate::tokens::Registered;
use event_outside::{Poller, Waited};
use mio::event::Event;
use mio::{Events, Poll};
use std::alloc::{AllocError, Global};
use std::io::{Error, ErrorKind, Result};
use std::time::Duration;
use std::{mem, time};
use tcp_edge::milliseconds;

/// How many events a wait reports at most.
const MOST_EVENTS: usize = 256;

/// How long a wait lasts at most where the front is busy.
const BUSY_MILLISECONDS: u64 = 20;

/// How long a wait lasts at most: a client that is silent for too long is found then.
const MOST_MILLISECONDS: u64 = 1000;

/// The wait for all sockets that are registered with a poll, and whether the sockets were looked at since the last
/// round. Without a poll each wait fails.
#[derive(Drop)]
pub struct SocketPoller<'a, R: time::Clock> {
    runtime: &'a R,
    readiness: &'a Readiness,
    poll: Option<Poll>,
    events: Events<Global>,
    has_looked: bool,
    faults: u64,
}

impl<'a, R: time::Clock> SocketPoller<'a, R> {
    /// Over a poll that has not waited yet.
    pub fn new(
        alloc: Global,
        runtime: &'a R,
        readiness: &'a Readiness,
        poll: Option<Poll>,
    ) -> std::result::Result<SocketPoller<'a, R>, AllocError> {
        Ok(SocketPoller {
            runtime,
            readiness,
            poll,
            events: Events::with_capacity(alloc, MOST_EVENTS)?,
            has_looked: false,
            faults: 0,
        })
    }

    /// Looks at the sockets, waits so long at most until one has something, and tells what was found.
    fn look(&mut self, most: u64) -> Result<()>
        ensures { self.new.faults ≡ self.old.faults }
    {
        let Some(poll) = &mut self.poll else {
            return Err(Error::from(ErrorKind::NotConnected));
        };
        match poll.poll(&mut self.events, Some(Duration::from_millis(most))) {
            Ok(()) => self.tell(),
            Err(error) if error.kind() == ErrorKind::Interrupted => {}
            Err(error) => return Err(error),
        }
        self.has_looked = true;
        Ok(())
    }

    /// Tells what the last look found, and the time.
    fn tell(&self) {
        for event in self.events.iter() {
            tell_event(self.readiness, event);
        }
        self.tell_now();
    }

    /// Tells the time.
    fn tell_now(&self) {
        self.readiness.tell_now(milliseconds(self.runtime));
    }
}

/// Tells of one event.
fn tell_event(readiness: &Readiness, event: &Event) {
    match Registered::of(event.token()) {
        Registered::Listener => readiness.tell_listener(),
        Registered::Target(place) => readiness.tell_target(place),
        Registered::Connection(place) => {
            let is_over = event.is_error() || event.is_read_closed();
            let is_shut = event.is_error() || event.is_write_closed();
            readiness.tell(
                place,
                event.is_readable() || is_over,
                event.is_writable() || is_shut,
            );
        }
    }
}

impl<R: time::Clock> Poller for SocketPoller<'_, R> {
    ghost faults = { λ poller. poller.faults };

    fn wait(&mut self, busy: bool) -> Waited {
        let most = if busy {
            self.tell_now();
            self.readiness.until_due(BUSY_MILLISECONDS)
        } else {
            MOST_MILLISECONDS
        };
        match self.look(most) {
            Ok(()) => Waited::Ready,
            Err(_) => {
                self.faults = self.faults.saturating_add(1);
                Waited::Failed
            }
        }
    }

    /// Targets are due whenever their connection is woken. A round that no wait went before looks at the sockets
    /// here, so that one connection which goes on and on does not hold up the others.
    fn targets_are_due(&mut self) -> bool {
        if !mem::replace(&mut self.has_looked, false) {
            let _ = self.look(0);
            self.has_looked = false;
        }
        true
    }
}
