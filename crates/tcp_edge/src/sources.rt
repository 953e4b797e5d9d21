//! The reading half of a connection. No octets are told of it.

ghost use Rattle.std.specs.Prelude.{◌≡◌, ◌≤◌, None, IfOk, OnErr, length, drop};
ghost use Rattle.std.specs.Io.{ReadsAtMost};

use gw_outside::{Got, Source};
use std::io::{Error, ErrorKind, Read, Result};
use std::net::{Shutdown, TcpStream};

/// The reading half of a connection, with its number and the second at which it began.
#[derive(Drop)]
pub struct SocketSource {
    pub(crate) stream: TcpStream,
    number: u64,
    begun: u64,
    octets: u64,
    faults: u64,
}

/// How many octets a read takes at most.
const PIECE: usize = 4096;

/// How many pieces that a peer had still sent are taken at the end of a connection.
const LAST_PIECES: u32 = 64;

impl SocketSource {
    /// A socket of which nothing was read, and which has not failed yet.
    pub(crate) fn new(stream: TcpStream, number: u64, begun: u64) -> SocketSource
        ensures number { result.number ≡ number }
        ensures begun { result.begun ≡ begun }
        ensures octets { result.octets ≡ 0 }
        ensures faults { result.faults ≡ 0 }
    {
        SocketSource {
            stream,
            number,
            begun,
            octets: 0,
            faults: 0,
        }
    }

    /// The number of the connection.
    pub fn number(&self) -> u64
        ensures { result ≡ self.now.number }
    {
        self.number
    }

    /// The second of the system's clock at which it began.
    pub fn begun(&self) -> u64
        ensures { result ≡ self.now.begun }
    {
        self.begun
    }

    /// How many octets it gave.
    pub fn octets(&self) -> u64
        ensures { result ≡ self.now.octets }
    {
        self.octets
    }

    /// Ends what is written, and takes what the peer had still sent: a socket that is closed with octets
    /// unread resets its connection, and the peer might not read the last reply.
    pub(crate) fn end(&mut self) {
        let _ = self.stream.shutdown(Shutdown::Write);
        if self.stream.set_nonblocking(true).is_err() {
            return;
        }
        let mut piece = [0u8; PIECE];
        for _ in 0..LAST_PIECES {
            match self.stream.read(&mut piece) {
                Ok(count) if count > 0 => {}
                _ => return,
            }
        }
    }
}

impl Source for SocketSource {
    ghost faults = { λ source. source.faults };

    ghost left = { λ source. None };

    ghost given = { λ source. None };

    fn read(&mut self, into: &mut [u8]) -> Got {
        match read_front(&mut self.stream, into) {
            Ok(0) => Got::End,
            Ok(count) => {
                self.octets = self.octets.saturating_add(count as u64);
                Got::Bytes(count)
            }
            Err(_) => {
                self.faults = self.faults.saturating_add(1);
                Got::Failed
            }
        }
    }
}

/// Reads once into the front of a buffer. The system says of a read only how many octets came, so they
/// come into an array of this function's own first: what lies behind them in the buffer stays.
fn read_front<S: Read>(stream: &mut S, into: &mut [u8]) -> Result<usize>
    ensures count { IfOk result (λ count. count ≤ length into.old) }
    ensures behind { IfOk result (λ count. drop count into.new ≡ drop count into.old) }
    ensures err { OnErr result (into.new ≡ into.old) }
{
    let mut own = [0u8; PIECE];
    let most = into.len().min(PIECE);
    let count = read_again(stream, &mut own[..most])?;
    into[..count].copy_from_slice(&own[..count]);
    Ok(count)
}

/// Reads once. A read that a signal ended gave nothing, and is made again.
fn read_again<S: Read>(stream: &mut S, into: &mut [u8]) -> Result<usize>
    ensures { ReadsAtMost result into.new }
{
    for _ in 0..u64::MAX {
        match stream.read(into) {
            Err(error) if error.kind() == ErrorKind::Interrupted => {}
            got => return got,
        }
    }
    Err(Error::from(ErrorKind::Interrupted))
}
