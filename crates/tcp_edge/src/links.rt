//! Links: those with test targets, and sockets to others.

ghost use Rattle.std.specs.Prelude.{◌≡◌, ◌≢◌, ◌≤◌, [], None, IfOk, length};
ghost use Rattle.gw_outside.specs.Wires.{LookFits};
ghost use Rattle.tcp_edge.specs.Links.{arrived_at, peer_at, number_of, delays_at};

use crate::prompt::{PromptLink, Watch};
use crate::waits::{Awaited, may_give};
use bytes::BytesMut;
use gw_outside::{Linked, Looked};
use std::alloc::Global;
use std::io::{Error, ErrorKind, Read, Result, Write};
use std::net::{Net, SocketAddr, TcpStream, ToSocketAddrs};
use std::os::fd::AsRawFd;
use std::time::Duration;
use std::{str, time};
use test_wire::TestLink;

/// How long a look waits at most, for its own link or for another that is awaited.
const LOOK_MILLISECONDS: i32 = 20;

/// How long a read waits at most that finds nothing though something was to be had.
const READ_MILLISECONDS: u64 = 1;

/// How long a dial waits at most, and each write of a send.
const TARGET_SECONDS: u64 = 5;

/// How many octets a look takes at most.
const PIECE: usize = 16384;

/// A link: with a test target, or with one at a host.
#[derive(Drop)]
pub enum EdgeLink {
    /// With a test target, whose end it holds.
    Test(TestLink),
    /// With a target at a host.
    Tcp(TcpLink),
    /// With a target at a host, where no call of it waits.
    Prompt(PromptLink),
}

/// A socket to a target: its place in the totals, the number of its dial, and the octets that arrived and
/// are not consumed.
#[derive(Drop)]
pub struct TcpLink {
    pub(crate) stream: TcpStream,
    pub(crate) address: SocketAddr,
    pub(crate) place: Option<usize>,
    number: u64,
    pub(crate) arrived: BytesMut<Global>,
}

impl Linked for EdgeLink {
    ghost use Rattle.std.specs.Prelude.{false};
    ghost use Rattle.tcp_edge.specs.Links.{arrived_at, peer_at, number_of, delays_at};

    ghost arrived = { arrived_at };

    ghost peer = { peer_at };

    ghost number = { number_of };

    ghost delays = { delays_at };

    ghost exact = { false };
}

impl EdgeLink {
    /// How its socket was watched, and is to be watched for the connection at a place from now on, where that is
    /// another way. No socket is watched whose calls wait.
    pub fn watch_for(&mut self, place: usize) -> Option<(Option<Watch>, Watch)>
        ensures arrived { arrived_at self.new ≡ arrived_at self.old }
        ensures peer { peer_at self.new ≡ peer_at self.old }
        ensures number { number_of self.new ≡ number_of self.old }
        ensures delays { delays_at self.new ≡ delays_at self.old }
    {
        match self {
            EdgeLink::Test(_) | EdgeLink::Tcp(_) => None,
            EdgeLink::Prompt(link) => link.watch_for(place),
        }
    }
}

impl TcpLink {
    /// A link over a socket, over which nothing has arrived.
    pub(crate) fn new(
        alloc: Global,
        stream: TcpStream,
        address: SocketAddr,
        place: Option<usize>,
        number: u64,
    ) -> TcpLink
        ensures arrived { result.arrived.items ≡ [] }
        ensures number { result.number ≡ number }
    {
        TcpLink {
            stream,
            address,
            place,
            number,
            arrived: BytesMut::new(alloc),
        }
    }

    /// Sends a unit whole. It is an error where octets of the target stand unread, since its reply would be
    /// taken for these, or where the target has closed.
    pub(crate) fn send(&mut self, unit: &[u8]) -> Result<()>
        ensures arrived { self.new.arrived ≡ self.old.arrived }
        ensures number { self.new.number ≡ self.old.number }
    {
        self.is_at_rest()?;
        self.stream.write_all(unit)
    }

    /// Whether no octets of the target stand unread, and it has not closed: else that is the error.
    pub(crate) fn is_at_rest(&self) -> Result<()> {
        if !self.arrived.is_empty() {
            return Err(unread());
        }
        is_quiet(&self.stream)
    }

    /// The descriptor of its socket.
    pub(crate) fn descriptor(&self) -> i32 {
        self.stream.as_raw_fd()
    }

    /// Looks once. That the target closed is an error.
    pub(crate) fn look(&mut self, awaited: &mut Awaited) -> Result<Looked>
        ensures fits { IfOk result
            (LookFits None None self.old.arrived.items self.new.arrived.items) }
        ensures ok { IfOk result (λ looked. looked ≢ Looked.Failed) }
        ensures number { self.new.number ≡ self.old.number }
    {
        if !awaited.may_give(&self.stream, LOOK_MILLISECONDS) {
            return Ok(Looked::NotYet);
        }
        self.read_some()
    }

    /// Reads what is there, as far as a piece holds it. That the target closed is an error.
    pub(crate) fn read_some(&mut self) -> Result<Looked>
        ensures fits { IfOk result
            (LookFits None None self.old.arrived.items self.new.arrived.items) }
        ensures ok { IfOk result (λ looked. looked ≢ Looked.Failed) }
        ensures number { self.new.number ≡ self.old.number }
    {
        let mut piece = [0u8; PIECE];
        match self.stream.read(&mut piece) {
            Ok(0) => Err(Error::from(ErrorKind::UnexpectedEof)),
            Ok(count) => Ok(self.arrive(&piece[..count])),
            Err(error) => match error.kind() {
                ErrorKind::WouldBlock | ErrorKind::Interrupted => Ok(Looked::NotYet),
                _ => Err(error),
            },
        }
    }

    /// Puts octets behind those that arrived.
    fn arrive(&mut self, octets: &[u8]) -> Looked
        requires { 1 ≤ length octets.now }
        ensures fits { LookFits None None
            self.old.arrived.items self.new.arrived.items result }
        ensures ok { result ≢ Looked.Failed }
        ensures number { self.new.number ≡ self.old.number }
    {
        match self.arrived.extend_from_slice(octets) {
            Ok(()) => Looked::Arrived,
            Err(_) => Looked::Memory,
        }
    }
}

/// Whether nothing stands unread at a socket, and its peer has not closed it. It does not wait.
fn is_quiet(stream: &TcpStream) -> Result<()> {
    if !may_give(stream) {
        return Ok(());
    }
    match stream.peek(&mut [0u8; 1])? {
        0 => Err(Error::from(ErrorKind::UnexpectedEof)),
        _ => Err(unread()),
    }
}

/// That a target sent what nobody asked for.
fn unread() -> Error {
    Error::other("octets stand unread before a request")
}

/// A socket to a host, and its address there: the first that answers, of those that the system knows for
/// the host's name. An address that does not answer leaves the others their share of the time.
pub(crate) fn connect<R: Net<Stream = TcpStream> + time::Clock>(
    runtime: &R,
    host: &[u8],
    port: u16,
) -> Result<(TcpStream, SocketAddr)> {
    let Ok(host) = str::from_utf8(host) else {
        return Err(Error::from(ErrorKind::InvalidInput));
    };
    let begun = runtime.monotonic()?;
    let addresses = (host, port).to_socket_addrs(runtime)?;
    let mut untried = u32::try_from(addresses.len()).unwrap_or(u32::MAX);
    let mut last = Error::from(ErrorKind::NotFound);
    for address in addresses {
        let waited = runtime.monotonic()?.saturating_sub(begun);
        let left = Duration::from_secs(TARGET_SECONDS).saturating_sub(waited);
        match connect_at(runtime, address, left.checked_div(untried).unwrap_or(left)) {
            Ok(stream) => return Ok((stream, address)),
            Err(error) => last = error,
        }
        untried = untried.saturating_sub(1);
    }
    Err(last)
}

/// A socket to an address, within a time.
fn connect_at<R: Net<Stream = TcpStream>>(
    runtime: &R,
    address: SocketAddr,
    within: Duration,
) -> Result<TcpStream> {
    let stream = TcpStream::connect_timeout(runtime, &address, within)?;
    stream.set_nodelay(true)?;
    stream.set_read_timeout(Some(Duration::from_millis(READ_MILLISECONDS)))?;
    stream.set_write_timeout(Some(Duration::from_secs(TARGET_SECONDS)))?;
    Ok(stream)
}
