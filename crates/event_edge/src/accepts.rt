//! The connections of a listener, which does not wait.

ghost use Rattle.std.specs.Prelude.{◌≡◌, ◌≤◌, None};
ghost use Rattle.z_types.specs.Counts.{Rose};

use crate::Readiness;
use crate::sinks::SocketEdgeSink;
use crate::sources::SocketEdgeSource;
use crate::tokens::Registered;
use event_outside::{EdgeAccept, EdgeAccepted};
use gw_outside::{Came, Clock};
use log::{Log, info};
use mio::net::{TcpListener, TcpStream};
use mio::{Interest, Poll, Registry};
use std::io::{Error, ErrorKind, Result};
use std::net::{IpAddr, Net, SocketAddr};
use std::{net, time};
use tcp_edge::{SystemClock, Told, Totals, accept_passes};

/// How long the next try waits after one that failed for now.
const PAUSE_SECONDS: u64 = 1;

/// How many tries one after another may fail for now.
const TRIES: u32 = 60;

/// A listener, the registry of the poll, and whether a wait is told of it.
#[derive(Drop)]
pub struct Listening {
    listener: TcpListener,
    registry: Registry,
    is_watched: bool,
}

impl Listening {
    /// The address and the port that it listens at.
    pub fn local_addr(&self) -> Result<SocketAddr> {
        self.listener.local_addr()
    }

    /// Has a wait be told of it, or not.
    fn watch(&mut self, is_watched: bool) -> Result<()> {
        if is_watched && !self.is_watched {
            let token = Registered::Listener.token();
            self.registry
                .register(&mut self.listener, token, Interest::READABLE)?;
        }
        if !is_watched && self.is_watched {
            self.registry.deregister(&mut self.listener)?;
        }
        self.is_watched = is_watched;
        Ok(())
    }
}

/// Listens at a port of an address of this machine.
pub fn listen<R: Net>(runtime: &R, poll: &Poll, address: IpAddr, port: u16) -> Result<Listening> {
    let listener = TcpListener::bind(runtime, SocketAddr::from((address, port)))?;
    let registry = poll.registry().try_clone()?;
    let mut listening = Listening {
        listener,
        registry,
        is_watched: false,
    };
    listening.watch(true)?;
    Ok(listening)
}

/// The connections of a listener. It logs each that is accepted and each that has ended, and counts them in the
/// totals. Where as many are open as may be, no wait is told of the listener. Without one each accept fails.
#[derive(Drop)]
pub struct SocketEdgeAccept<'a, R: time::Clock, L: Log> {
    runtime: &'a R,
    log: &'a L,
    totals: &'a Totals,
    readiness: &'a Readiness,
    listening: Option<Listening>,
    tries: u32,
    next_try: u64,
    faults: u64,
    waits: u64,
}

/// What a look at a listener found.
enum Next {
    /// A connection, its peer, and its place.
    Stream(TcpStream, SocketAddr, usize),
    /// None yet.
    None,
    /// It is not looked at now.
    Unseen,
    /// A fault.
    Failed(Error),
}

/// A connection's source and sink.
type Ends<'a> = (SocketEdgeSource<'a>, SocketEdgeSink<'a>);

impl<'a, R: time::Clock, L: Log> SocketEdgeAccept<'a, R, L> {
    /// An acceptor that has not failed yet.
    pub fn new(
        runtime: &'a R,
        log: &'a L,
        totals: &'a Totals,
        readiness: &'a Readiness,
        listening: Option<Listening>,
    ) -> SocketEdgeAccept<'a, R, L> {
        SocketEdgeAccept {
            runtime,
            log,
            totals,
            readiness,
            listening,
            tries: 0,
            next_try: 0,
            faults: 0,
            waits: 0,
        }
    }

    /// The second of the system's clock.
    fn second(&self) -> u64 {
        SystemClock::new(self.runtime).now()
    }

    /// None has come yet.
    fn count_wait(&mut self) -> EdgeAccepted<SocketEdgeSource<'a>, SocketEdgeSink<'a>>
        ensures wait { result ≡ EdgeAccepted.NotReady }
        ensures counted { Rose self.old.waits self.new.waits }
        ensures rising { self.old.waits ≤ self.new.waits }
        ensures faults { self.new.faults ≡ self.old.faults }
    {
        self.waits = self.waits.saturating_add(1);
        EdgeAccepted::NotReady
    }

    /// One fault more.
    fn count_fault(&mut self) -> EdgeAccepted<SocketEdgeSource<'a>, SocketEdgeSink<'a>>
        ensures failed { result ≡ EdgeAccepted.Failed }
        ensures counted { Rose self.old.faults self.new.faults }
        ensures rising { self.old.faults ≤ self.new.faults }
        ensures waits { self.new.waits ≡ self.old.waits }
    {
        self.faults = self.faults.saturating_add(1);
        EdgeAccepted::Failed
    }

    /// Waits for the next try after one that failed for now, unless too many have, one after another.
    fn try_later(&mut self) -> EdgeAccepted<SocketEdgeSource<'a>, SocketEdgeSink<'a>>
        ensures failed { result ≡ EdgeAccepted.Failed → Rose self.old.faults self.new.faults }
        ensures not_ready { result ≡ EdgeAccepted.NotReady → Rose self.old.waits self.new.waits }
        ensures faults { self.old.faults ≤ self.new.faults }
        ensures waits { self.old.waits ≤ self.new.waits }
    {
        self.tries = self.tries.saturating_add(1);
        self.next_try = self.second().saturating_add(PAUSE_SECONDS);
        if self.tries < TRIES {
            self.count_wait()
        } else {
            self.count_fault()
        }
    }

    /// Looks at the listener, where one stands, there is a place for a connection more, and one may have come.
    fn next(&self) -> Option<Next> {
        let listening = self.listening.as_ref()?;
        if self.tries > 0 && self.second() < self.next_try {
            return Some(Next::Unseen);
        }
        Some(next_of(listening, self.readiness))
    }

    /// A connection at its place, or nothing where it was lost.
    fn welcome(&mut self, stream: TcpStream, peer: SocketAddr, place: usize) -> Option<Ends<'a>>
        ensures faults { self.new.faults ≡ self.old.faults }
        ensures waits { self.new.waits ≡ self.old.waits }
    {
        let listening = self.listening.as_mut()?;
        let number = self.totals.count_accepted();
        match halves(listening, stream, place) {
            Ok((input, output)) => {
                let _ = listening.watch(self.readiness.has_place());
                info!(self.log; "connection {number} from {peer}");
                let begun = self.second();
                self.totals.tell_due(self.log, begun);
                Some((
                    SocketEdgeSource::new(input, self.readiness, place, number, begun),
                    SocketEdgeSink::new(output, self.readiness, place),
                ))
            }
            Err(error) => {
                self.readiness.leave_place(place);
                self.totals
                    .tell_lost(self.log, number, peer, &error, self.second());
                None
            }
        }
    }

    /// Takes a socket out of the poll, and leaves its place to the next connection.
    fn leave(&mut self, input: &mut SocketEdgeSource<'a>)
        ensures faults { self.new.faults ≡ self.old.faults }
        ensures waits { self.new.waits ≡ self.old.waits }
    {
        self.readiness.leave_place(input.place);
        if let Some(listening) = &mut self.listening {
            let _ = listening.registry.deregister(&mut input.stream);
            if listening.watch(true).is_err() {
                self.readiness.tell_listener();
            }
        }
    }
}

impl<'a, R: time::Clock, L: Log> EdgeAccept for SocketEdgeAccept<'a, R, L> {
    type In = SocketEdgeSource<'a>;

    type Out = SocketEdgeSink<'a>;

    ghost faults = { λ accept. accept.faults };

    ghost waits = { λ accept. accept.waits };

    ghost left = { λ accept. None };

    ghost closed = { λ accept. None };

    ghost out = { λ accept. None };

    fn accept(&mut self) -> EdgeAccepted<SocketEdgeSource<'a>, SocketEdgeSink<'a>> {
        match self.next() {
            Some(Next::Stream(stream, peer, place)) => match self.welcome(stream, peer, place) {
                Some((input, output)) => {
                    self.tries = 0;
                    EdgeAccepted::Connection(input, output)
                }
                None => self.try_later(),
            },
            Some(Next::None) => {
                self.tries = 0;
                self.count_wait()
            }
            Some(Next::Unseen) => self.count_wait(),
            Some(Next::Failed(error)) => {
                let passes = accept_passes(&error);
                self.totals
                    .tell_refused(self.log, &error, passes, self.second());
                if passes {
                    self.try_later()
                } else {
                    self.count_fault()
                }
            }
            None => self.count_fault(),
        }
    }

    fn close(
        &mut self,
        mut input: SocketEdgeSource<'a>,
        output: SocketEdgeSink<'a>,
        came: Came<'_>,
    ) {
        input.end();
        self.leave(&mut input);
        self.totals.count_ended(came.marks, came.cached);
        let now = self.second();
        let lasted = now.saturating_sub(input.begun);
        info!(self.log;
            "connection {} ended after {lasted} seconds, {} octets in, {} out, {}",
            input.number, input.octets, output.octets, Told(came)
        );
        self.totals.tell_due(self.log, now);
    }
}

/// The two halves of a connection, of which the first is registered.
fn halves(
    listening: &Listening,
    stream: TcpStream,
    place: usize,
) -> Result<(TcpStream, TcpStream)> {
    let stream = net::TcpStream::from(stream);
    stream.set_nodelay(true)?;
    let other = stream.try_clone()?;
    let mut input = TcpStream::from_std(stream);
    let both_ways = Interest::READABLE | Interest::WRITABLE;
    let token = Registered::Connection(place).token();
    listening.registry.register(&mut input, token, both_ways)?;
    Ok((input, TcpStream::from_std(other)))
}

/// Looks at a listener, where there is a place for a connection more and one may have come.
fn next_of(listening: &Listening, readiness: &Readiness) -> Next {
    if !readiness.listener_may_have() {
        return Next::Unseen;
    }
    let Some(place) = readiness.take_place() else {
        return Next::Unseen;
    };
    match listening.listener.accept() {
        Ok((stream, peer)) => Next::Stream(stream, peer, place),
        Err(error) => {
            readiness.leave_place(place);
            if error.kind() == ErrorKind::WouldBlock {
                readiness.listener_had_none();
                return Next::None;
            }
            Next::Failed(error)
        }
    }
}
