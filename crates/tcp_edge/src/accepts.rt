//! The connections of a listener.

ghost use Rattle.std.specs.Prelude.{◌≡◌, ◌≢◌, ◌≤◌, None, IfSome};
ghost use Rattle.z_types.specs.Counts.{Rose};

use crate::clocks::seconds;
use crate::sinks::WriterSink;
use crate::sources::SocketSource;
use crate::told::Told;
use crate::totals::Totals;
use gw_outside::{Accept, Accepted, Came};
use log::{Log, error, info};
use std::io::{Error, ErrorKind, Result};
use std::net::{SocketAddr, TcpListener, TcpStream};
use std::sync::{Mutex, Wait};
use std::time;
use std::time::Duration;

/// How long a client may send nothing: 15 minutes.
const SILENT_SECONDS: u64 = 900;

/// How long a client may take nothing of what is written.
const STALLED_SECONDS: u64 = 60;

/// How long the next try waits after one that failed for now.
const PAUSE_SECONDS: u64 = 1;

/// How many tries one after another may fail for now.
const TRIES: u32 = 60;

/// Too many files are open in the system (accept(2), ENFILE).
const TOO_MANY_FILES: i32 = 23;

/// The system has no buffer (accept(2), ENOBUFS).
const NO_BUFFERS: i32 = 105;

/// A client: its connection's number, the two halves.
type Client = Accepted<SocketSource, WriterSink<TcpStream>>;

/// The connections of a listener, which several acceptors may share. It logs each that is accepted and
/// each that has ended, and counts them in the totals. One of them waits at the listener at a time, since the
/// system keeps a descriptor for each that waits there (accept(2)). Without a listener each accept fails.
#[derive(Drop)]
pub struct SocketAccept<'a, R: time::Clock, L: Log> {
    runtime: &'a R,
    log: &'a L,
    listener: Option<&'a Mutex<TcpListener>>,
    totals: &'a Totals,
    faults: u64,
}

impl<'a, R: time::Clock + Wait, L: Log> SocketAccept<'a, R, L> {
    /// An acceptor that has not failed yet; connections are numbered by how many were accepted before.
    pub fn new(
        runtime: &'a R,
        log: &'a L,
        listener: Option<&'a Mutex<TcpListener>>,
        totals: &'a Totals,
    ) -> SocketAccept<'a, R, L>
        ensures { result.faults ≡ 0 }
    {
        SocketAccept {
            runtime,
            log,
            listener,
            totals,
            faults: 0,
        }
    }

    /// The next connection, or nothing where it was lost or none can be had for now.
    fn try_accept(&mut self) -> Option<Client>
        ensures failed { IfSome result (λ client. client ≡ Accepted.Failed
            → Rose self.old.faults self.new.faults) }
        ensures faults { self.old.faults ≤ self.new.faults }
    {
        let Some(listener) = self.listener else {
            return Some(self.count_fault());
        };
        let accepted = listener.lock(self.runtime).accept();
        match accepted {
            Ok((stream, peer)) => self.welcome(stream, peer),
            Err(error) => {
                let passes = accept_passes(&error);
                self.totals
                    .tell_refused(self.log, &error, passes, seconds(self.runtime));
                let failed = self.count_fault();
                if passes { None } else { Some(failed) }
            }
        }
    }

    /// The two halves of a connection.
    fn welcome(&mut self, stream: TcpStream, peer: SocketAddr) -> Option<Client>
        ensures failed { IfSome result (λ client. client ≢ Accepted.Failed) }
        ensures faults { self.old.faults ≤ self.new.faults }
    {
        let number = self.totals.count_accepted();
        match halves(stream) {
            Ok((input, output)) => {
                info!(self.log; "connection {number} from {peer}");
                let begun = seconds(self.runtime);
                self.totals.tell_due(self.log, begun);
                Some(Accepted::Connection(
                    SocketSource::new(input, number, begun),
                    WriterSink::new(output),
                ))
            }
            Err(error) => {
                self.totals
                    .tell_lost(self.log, number, peer, &error, seconds(self.runtime));
                self.count_fault();
                None
            }
        }
    }

    /// Logs a connection that has ended: what it lasted and moved, and what came of it. Once a minute the
    /// totals follow.
    fn tell_end(&self, input: &SocketSource, written: u64, came: Came<'_>) {
        let now = seconds(self.runtime);
        let lasted = now.saturating_sub(input.begun());
        info!(self.log;
            "connection {} ended after {lasted} seconds, {} octets in, {written} out, {}",
            input.number(),
            input.octets(),
            Told(came),
        );
        self.totals.tell_due(self.log, now);
    }

    /// One fault more.
    fn count_fault(&mut self) -> Client
        ensures failed { result ≡ Accepted.Failed }
        ensures counted { Rose self.old.faults self.new.faults }
        ensures rising { self.old.faults ≤ self.new.faults }
    {
        self.faults = self.faults.saturating_add(1);
        Accepted::Failed
    }
}

impl<R: time::Clock + Wait, L: Log> Accept for SocketAccept<'_, R, L> {
    type In = SocketSource;

    type Out = WriterSink<TcpStream>;

    ghost faults = { λ accept. accept.faults };

    ghost left = { λ accept. None };

    ghost closed = { λ accept. None };

    ghost out = { λ accept. None };

    fn accept(&mut self) -> Client {
        for _ in 0..TRIES {
            if let Some(client) = self.try_accept() {
                return client;
            }
            self.runtime.sleep(Duration::from_secs(PAUSE_SECONDS));
        }
        self.count_fault()
    }

    fn close(&mut self, mut input: SocketSource, output: WriterSink<TcpStream>, came: Came<'_>) {
        input.end();
        self.totals.count_ended(came.marks, came.cached);
        self.tell_end(&input, output.octets(), came);
    }
}

/// A connection's two halves, of which each call waits no longer than a client may let it.
fn halves(stream: TcpStream) -> Result<(TcpStream, TcpStream)> {
    stream.set_nodelay(true)?;
    stream.set_read_timeout(Some(Duration::from_secs(SILENT_SECONDS)))?;
    stream.set_write_timeout(Some(Duration::from_secs(STALLED_SECONDS)))?;
    let output = stream.try_clone()?;
    Ok((stream, output))
}

/// Whether an accept that failed so says nothing of the listener: the client was gone before, or the
/// system has no room for now (accept(2)).
pub fn accept_passes(error: &Error) -> bool {
    match error.kind() {
        ErrorKind::ConnectionAborted
        | ErrorKind::NetworkDown
        | ErrorKind::NetworkUnreachable
        | ErrorKind::HostUnreachable
        | ErrorKind::OutOfMemory => true,
        _ => match error.raw_os_error() {
            Some(code) => matches!(code, libc::EMFILE | TOO_MANY_FILES | NO_BUFFERS),
            None => false,
        },
    }
}
