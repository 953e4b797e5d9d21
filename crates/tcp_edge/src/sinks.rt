//! What can be written, as a sink: the standard output, and the writing half of a connection. No octets
//! are told of it.

ghost use Rattle.std.specs.Prelude.{◌≡◌, None};
ghost use Rattle.std.specs.Io.{WritesAtMost};

use gw_outside::{Sink, Took};
use std::io::{Error, ErrorKind, Result, Write};

/// A writer of the system, as a sink.
#[derive(Drop)]
pub struct WriterSink<W: Write + Drop> {
    pub(crate) writer: W,
    octets: u64,
    faults: u64,
}

impl<W: Write + Drop> WriterSink<W> {
    /// This writer, which has not failed yet.
    pub fn new(writer: W) -> WriterSink<W>
        ensures octets { result.octets ≡ 0 }
        ensures faults { result.faults ≡ 0 }
    {
        WriterSink {
            writer,
            octets: 0,
            faults: 0,
        }
    }

    /// How many octets it took.
    pub fn octets(&self) -> u64
        ensures { result ≡ self.now.octets }
    {
        self.octets
    }
}

impl<W: Write + Drop> Sink for WriterSink<W> {
    ghost faults = { λ sink. sink.faults };

    ghost received = { λ sink. None };

    fn write(&mut self, piece: &[u8]) -> Took {
        match write_again(&mut self.writer, piece) {
            Ok(count) if count > 0 => {
                self.octets = self.octets.saturating_add(count as u64);
                Took::Bytes(count)
            }
            _ => {
                self.faults = self.faults.saturating_add(1);
                Took::Failed
            }
        }
    }
}

/// Writes once. A write that a signal ended took nothing, and is made again.
fn write_again<W: Write>(writer: &mut W, piece: &[u8]) -> Result<usize>
    ensures { WritesAtMost result piece.now }
{
    for _ in 0..u64::MAX {
        match writer.write(piece) {
            Err(error) if error.kind() == ErrorKind::Interrupted => {}
            took => return took,
        }
    }
    Err(Error::from(ErrorKind::Interrupted))
}
