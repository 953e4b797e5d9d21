//! The writing half of a connection, which does not wait. No octets are told of it.

ghost use Rattle.std.specs.Prelude.{◌≡◌, None};
ghost use Rattle.std.specs.Io.{WritesAtMost};

use crate::Readiness;
use event_outside::{EdgeSink, EdgeTook};
use mio::net::TcpStream;
use std::io::{Error, ErrorKind, Result, Write};

/// The writing half of a connection, with its place.
#[derive(Drop)]
pub struct SocketEdgeSink<'a> {
    stream: TcpStream,
    readiness: &'a Readiness,
    place: usize,
    pub(crate) octets: u64,
    faults: u64,
    waits: u64,
}

impl<'a> SocketEdgeSink<'a> {
    /// A socket that took nothing, and has not failed yet.
    pub(crate) fn new(
        stream: TcpStream,
        readiness: &'a Readiness,
        place: usize,
    ) -> SocketEdgeSink<'a> {
        SocketEdgeSink {
            stream,
            readiness,
            place,
            octets: 0,
            faults: 0,
            waits: 0,
        }
    }

    /// Writes once, where there may be room.
    fn try_write(&mut self, piece: &[u8]) -> Result<usize>
        ensures count { WritesAtMost result piece.now }
        ensures faults { self.new.faults ≡ self.old.faults }
        ensures waits { self.new.waits ≡ self.old.waits }
    {
        if self.readiness.asks_to_write(self.place) {
            write_again(&mut self.stream, piece)
        } else {
            Err(Error::from(ErrorKind::WouldBlock))
        }
    }

    /// Whether a write that failed so found no room: that its client took nothing for too long is a fault.
    fn had_no_room(&self, error: &Error) -> bool {
        error.kind() == ErrorKind::WouldBlock && !self.readiness.had_no_room(self.place)
    }
}

impl EdgeSink for SocketEdgeSink<'_> {
    ghost faults = { λ sink. sink.faults };

    ghost waits = { λ sink. sink.waits };

    ghost received = { λ sink. None };

    fn write(&mut self, piece: &[u8]) -> EdgeTook {
        self.readiness.turn_to(self.place);
        match self.try_write(piece) {
            Ok(count) if count > 0 => {
                self.readiness.has_written(self.place);
                self.octets = self.octets.saturating_add(count as u64);
                EdgeTook::Bytes(count)
            }
            Err(error) if self.had_no_room(&error) => {
                self.waits = self.waits.saturating_add(1);
                EdgeTook::NotReady
            }
            _ => {
                self.faults = self.faults.saturating_add(1);
                EdgeTook::Failed
            }
        }
    }

    fn may_take(&self) -> bool {
        self.readiness.may_write(self.place)
    }
}

/// Writes once. A write that a signal ended took nothing, and is made again.
fn write_again<W: Write>(writer: &mut W, piece: &[u8]) -> Result<usize>
    ensures { WritesAtMost result piece.now }
{
    for _ in 0..u64::MAX {
        match writer.write(piece) {
            Err(error) if error.kind() == ErrorKind::Interrupted => {}
            took => return took,
        }
    }
    Err(Error::from(ErrorKind::Interrupted))
}
