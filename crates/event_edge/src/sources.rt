//! The reading half of a connection, which does not wait. No octets are told of it.

ghost use Rattle.std.specs.Prelude.{◌≡◌, ◌≤◌, None, IfOk, OnErr, length, drop};
ghost use Rattle.std.specs.Io.{ReadsAtMost};

use crate::Readiness;
use event_outside::{EdgeGot, EdgeSource};
use mio::net::TcpStream;
use std::io::{Error, ErrorKind, Read, Result};
use std::net::Shutdown;

/// The reading half of a connection, with its number, the second at which it began, and its place.
#[derive(Drop)]
pub struct SocketEdgeSource<'a> {
    pub(crate) stream: TcpStream,
    pub(crate) readiness: &'a Readiness,
    pub(crate) place: usize,
    pub(crate) number: u64,
    pub(crate) begun: u64,
    pub(crate) octets: u64,
    faults: u64,
    waits: u64,
}

/// How many octets a read takes at most.
const PIECE: usize = 4096;

/// How many pieces that a peer had still sent are taken at the end of a connection.
const LAST_PIECES: u32 = 64;

impl<'a> SocketEdgeSource<'a> {
    /// A socket of which nothing was read, and which has not failed yet.
    pub(crate) fn new(
        stream: TcpStream,
        readiness: &'a Readiness,
        place: usize,
        number: u64,
        begun: u64,
    ) -> SocketEdgeSource<'a> {
        SocketEdgeSource {
            stream,
            readiness,
            place,
            number,
            begun,
            octets: 0,
            faults: 0,
            waits: 0,
        }
    }

    /// Ends what is written, and takes what the peer had still sent: a socket that is closed with octets
    /// unread resets its connection, and the peer might not read the last reply.
    pub(crate) fn end(&mut self) {
        let _ = self.stream.shutdown(Shutdown::Write);
        let mut piece = [0u8; PIECE];
        for _ in 0..LAST_PIECES {
            match self.stream.read(&mut piece) {
                Ok(count) if count > 0 => {}
                _ => return,
            }
        }
    }

    /// Reads once into the front of a buffer, where something may have come.
    fn try_read(&mut self, into: &mut [u8]) -> Result<usize>
        ensures count { IfOk result (λ count. count ≤ length into.old) }
        ensures behind { IfOk result (λ count. drop count into.new ≡ drop count into.old) }
        ensures err { OnErr result (into.new ≡ into.old) }
        ensures faults { self.new.faults ≡ self.old.faults }
        ensures waits { self.new.waits ≡ self.old.waits }
    {
        if self.readiness.asks_to_read(self.place) {
            read_front(&mut self.stream, into)
        } else {
            Err(Error::from(ErrorKind::WouldBlock))
        }
    }

    /// Whether a read that failed so found nothing yet: that its client was silent for too long is a fault.
    fn had_none(&self, error: &Error) -> bool {
        error.kind() == ErrorKind::WouldBlock && !self.readiness.had_none(self.place)
    }
}

impl EdgeSource for SocketEdgeSource<'_> {
    ghost faults = { λ source. source.faults };

    ghost waits = { λ source. source.waits };

    ghost left = { λ source. None };

    ghost given = { λ source. None };

    fn read(&mut self, into: &mut [u8]) -> EdgeGot {
        self.readiness.turn_to(self.place);
        match self.try_read(into) {
            Ok(0) => EdgeGot::End,
            Ok(count) => {
                self.readiness.has_read(self.place);
                self.octets = self.octets.saturating_add(count as u64);
                EdgeGot::Bytes(count)
            }
            Err(error) if self.had_none(&error) => {
                self.waits = self.waits.saturating_add(1);
                EdgeGot::NotReady
            }
            Err(_) => {
                self.faults = self.faults.saturating_add(1);
                EdgeGot::Failed
            }
        }
    }

    fn may_give(&self) -> bool {
        self.readiness.may_read(self.place)
    }

    fn is_woken(&self) -> bool {
        let is_woken = self.readiness.take_targets(self.place);
        if is_woken {
            self.readiness.turn_to(self.place);
        }
        is_woken
    }
}

/// Reads once into the front of a buffer. The system says of a read only how many octets came, so they
/// come into an array of this function's own first: what lies behind them in the buffer stays.
fn read_front<S: Read>(stream: &mut S, into: &mut [u8]) -> Result<usize>
    ensures count { IfOk result (λ count. count ≤ length into.old) }
    ensures behind { IfOk result (λ count. drop count into.new ≡ drop count into.old) }
    ensures err { OnErr result (into.new ≡ into.old) }
{
    let mut own = [0u8; PIECE];
    let most = into.len().min(PIECE);
    let count = read_again(stream, &mut own[..most])?;
    into[..count].copy_from_slice(&own[..count]);
    Ok(count)
}

/// Reads once. A read that a signal ended gave nothing, and is made again.
fn read_again<S: Read>(stream: &mut S, into: &mut [u8]) -> Result<usize>
    ensures { ReadsAtMost result into.new }
{
    for _ in 0..u64::MAX {
        match stream.read(into) {
            Err(error) if error.kind() == ErrorKind::Interrupted => {}
            got => return got,
        }
    }
    Err(Error::from(ErrorKind::Interrupted))
}
