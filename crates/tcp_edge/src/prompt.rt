//! Links with hosts no call of which waits: a connection is begun, and what is sent before it stands is kept.

ghost use Rattle.std.specs.Prelude.{◌≡◌, ◌≢◌, ◌≤◌, [], None, IfOk, length};
ghost use Rattle.gw_outside.specs.Wires.{LookFits};

use crate::hosts::{Begun, Hosts};
use crate::links::TcpLink;
use bytes::BytesMut;
use gw_outside::Looked;
use std::alloc::Global;
use std::io::{Error, ErrorKind, Result, Write};
use std::net::{Net, TcpStream};

/// How long a host may leave connections unmade, and octets untaken, at most: 5 seconds.
const HOST_MILLISECONDS: u64 = 5000;

/// How the socket of a link is watched: by its descriptor, for the connection at a place, and whether also until there
/// is room.
#[derive(Clone, Copy, PartialEq, Eq, Debug)]
pub struct Watch {
    /// The descriptor of the socket.
    pub descriptor: i32,
    /// The place of the connection.
    pub place: usize,
    /// Whether there are octets to write, which wait for room or for the connection to stand.
    pub room: bool,
}

/// A link with a host no call of which waits: what is sent and was not written yet, and the millisecond since when; and
/// until its connection stands which of the host's addresses were tried.
#[derive(Drop)]
pub struct PromptLink {
    pub(crate) link: TcpLink,
    pub(crate) host: usize,
    pub(crate) stands: bool,
    tried: usize,
    unsent: BytesMut<Global>,
    since: u64,
    watch: Option<Watch>,
}

/// What a call of a link asks beside it: the runtime, the hosts, and the millisecond.
#[derive(Clone, Copy)]
pub(crate) struct Now<'a, R> {
    pub(crate) runtime: &'a R,
    pub(crate) hosts: &'a Hosts,
    pub(crate) milliseconds: u64,
}

impl PromptLink {
    /// A link whose connection is begun, over which nothing has arrived.
    pub(crate) fn new(
        alloc: Global,
        begun: Begun,
        host: usize,
        place: Option<usize>,
        number: u64,
        milliseconds: u64,
    ) -> PromptLink
        ensures arrived { result.link.arrived.items ≡ [] }
        ensures number { result.link.number ≡ number }
    {
        PromptLink {
            link: TcpLink::new(alloc, begun.stream, begun.address, place, number),
            host,
            stands: false,
            tried: begun.tried,
            unsent: BytesMut::new(alloc),
            since: milliseconds,
            watch: None,
        }
    }

    /// Sends a unit, of which what is not written at once is kept. It is an error as that of a link that waits is.
    pub(crate) fn send<R: Net<Stream = TcpStream>>(
        &mut self,
        now: Now<'_, R>,
        unit: &[u8],
    ) -> Result<()>
        ensures arrived { self.new.link.arrived ≡ self.old.link.arrived }
        ensures number { self.new.link.number ≡ self.old.link.number }
    {
        if self.stands {
            self.link.is_at_rest()?;
        }
        if self.unsent.is_empty() {
            self.since = now.milliseconds;
        }
        match self.unsent.extend_from_slice(unit) {
            Ok(()) => self.write_on(now),
            Err(_) => Err(Error::from(ErrorKind::OutOfMemory)),
        }
    }

    /// Looks once, and writes on before. That the target closed, or did not take the connection, is an error.
    pub(crate) fn look<R: Net<Stream = TcpStream>>(&mut self, now: Now<'_, R>) -> Result<Looked>
        ensures fits { IfOk result (LookFits None None
            self.old.link.arrived.items self.new.link.arrived.items) }
        ensures ok { IfOk result (λ looked. looked ≢ Looked.Failed) }
        ensures number { self.new.link.number ≡ self.old.link.number }
    {
        self.write_on(now)?;
        if self.stands {
            self.link.read_some()
        } else {
            Ok(Looked::NotYet)
        }
    }

    /// Writes what is sent and was not written yet, as far as there is room.
    fn write_on<R: Net<Stream = TcpStream>>(&mut self, now: Now<'_, R>) -> Result<()>
        ensures arrived { self.new.link.arrived ≡ self.old.link.arrived }
        ensures number { self.new.link.number ≡ self.old.link.number }
    {
        if self.unsent.is_empty() {
            return Ok(());
        }
        match write_some(&mut self.link.stream, self.unsent.as_slice()) {
            Ok(0) => self.wait_on(now),
            Ok(count) => {
                self.unsent.advance(count);
                self.stands = true;
                self.since = now.milliseconds;
                Ok(())
            }
            Err(error) => self.begin_again(now, error),
        }
    }

    /// Waits on for room, or for the connection to stand, unless that has lasted too long.
    fn wait_on<R: Net<Stream = TcpStream>>(&mut self, now: Now<'_, R>) -> Result<()>
        ensures arrived { self.new.link.arrived ≡ self.old.link.arrived }
        ensures number { self.new.link.number ≡ self.old.link.number }
    {
        if now.milliseconds.saturating_sub(self.since) < self.most_milliseconds(now.hosts) {
            return Ok(());
        }
        self.begin_again(now, Error::from(ErrorKind::TimedOut))
    }

    /// How long it may wait: all of a host's time once its connection stands, and else each of its addresses an
    /// equal share.
    fn most_milliseconds(&self, hosts: &Hosts) -> u64 {
        if self.stands {
            return HOST_MILLISECONDS;
        }
        let count = u64::try_from(hosts.count_of(self.host)).unwrap_or(1);
        HOST_MILLISECONDS.checked_div(count).unwrap_or(0)
    }

    /// Begins a connection with the host's next address, where none stands yet; else the link has failed so.
    fn begin_again<R: Net<Stream = TcpStream>>(
        &mut self,
        now: Now<'_, R>,
        error: Error,
    ) -> Result<()>
        ensures arrived { self.new.link.arrived ≡ self.old.link.arrived }
        ensures number { self.new.link.number ≡ self.old.link.number }
    {
        if self.stands {
            return Err(error);
        }
        match now.hosts.begin(now.runtime, self.host, self.tried) {
            Ok(begun) => {
                self.tried = begun.tried;
                self.since = now.milliseconds;
                self.link.stream = begun.stream;
                self.link.address = begun.address;
                Ok(())
            }
            Err(_) => Err(error),
        }
    }

    /// How its socket is to be watched for the connection at a place.
    fn wanted(&self, place: usize) -> Watch {
        Watch {
            descriptor: self.link.descriptor(),
            place,
            room: !self.unsent.is_empty(),
        }
    }

    /// How its socket was watched, and is to be watched for the connection at a place from now on, where that is
    /// another way.
    pub(crate) fn watch_for(&mut self, place: usize) -> Option<(Option<Watch>, Watch)>
        ensures { self.new.link ≡ self.old.link }
    {
        let wanted = self.wanted(place);
        if self.watch == Some(wanted) {
            return None;
        }
        let before = self.watch;
        self.watch = Some(wanted);
        Some((before, wanted))
    }
}

/// Writes octets as far as there is room, and tells how many were written.
fn write_some<W: Write>(stream: &mut W, octets: &[u8]) -> Result<usize>
    ensures { IfOk result (λ count. count ≤ length octets.now) }
{
    match stream.write(octets) {
        Ok(count) => Ok(count),
        Err(error) => match error.kind() {
            ErrorKind::WouldBlock | ErrorKind::Interrupted => Ok(0),
            _ => Err(error),
        },
    }
}
