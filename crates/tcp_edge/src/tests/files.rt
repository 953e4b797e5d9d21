//! Files, the output and the clock of the system.

use crate::{SystemClock, SystemFiles, WriterSink};
use gw_outside::{Clock, FileGot, Files, Sink, Took};
use std::alloc::Global;
use std::fs::OpenOptions;
use std::io::{Error, ErrorKind, Write};
use std::test::Fail;
use std::time::Duration;
use std::{fs, io, time};
use z_types::{Memory, Text};

/// What the read of a file gave: its octets, or a word.
fn words_of(alloc: Global, got: FileGot) -> Result<Text, Memory> {
    match got {
        FileGot::Whole(octets) => Ok(octets),
        FileGot::Longer => Text::copy_of(alloc, b"longer"),
        FileGot::Failed => Text::copy_of(alloc, b"failed"),
        FileGot::Memory => Err(Memory),
    }
}

/// The octets of the file that the test writes.
const OCTETS: &[u8] = b"five!";

/// A name, a limit, and what the read gives: at the limit and beside it, of a file without an end, an
/// empty one, a folder, one that is missing, and one whose name is not UTF-8.
const FILES: [(&[u8], usize, &[u8]); 9] = [
    (b"five", 5, OCTETS),
    (b"five", 4, b"longer"),
    (b"five", usize::MAX, OCTETS),
    (b"/dev/zero", 70000, b"longer"),
    (b"/dev/null", 0, b""),
    (b"five", 0, b"longer"),
    (b"/", 5, b"failed"),
    (b"/no/such/file", 5, b"failed"),
    (b"/no/such/\xff", 5, b"failed"),
];

#[test]
fn files_are_read_whole_or_told(rt: HostRuntime) -> Result<(), Fail> {
    let alloc = rt.alloc();
    fs::write(&rt, "five", OCTETS)?;
    let mut files = SystemFiles::new(&rt);
    for (name, limit, wanted) in FILES {
        let own = Text::copy_of(alloc, name)?;
        let got = words_of(alloc, files.read_all(alloc, &own, limit))?;
        assert!(rt; got.as_slice() == wanted, "{name:?} {limit}");
    }
    assert!(rt; files.reason().is_some());
    fs::remove_file(&rt, "five")?;
    assert!(rt; files.first_text() == Some(OCTETS));
    let five = Text::copy_of(alloc, b"five")?;
    let again = words_of(alloc, files.read_all(alloc, &five, 5))?;
    assert!(rt; again.as_slice() == OCTETS);
    Ok(())
}

#[test]
fn an_output_takes_octets_or_fails(rt: HostRuntime) -> Result<(), Fail> {
    let null = OpenOptions::new().write(true).open(&rt, "/dev/null")?;
    let mut sink = WriterSink::new(null);
    assert!(rt; sink.write(b"line\n") == Took::Bytes(5));
    assert!(rt; sink.octets() == 5);
    let full = OpenOptions::new().write(true).open(&rt, "/dev/full")?;
    let mut sink = WriterSink::new(full);
    assert!(rt; sink.write(b"line\n") == Took::Failed);
    assert!(rt; sink.octets() == 0);
    Ok(())
}

/// A writer that answers each write in turn: a signal ended it, or it took so many octets.
#[derive(Drop)]
struct Turns<'a> {
    answers: &'a [Option<usize>],
    place: usize,
}

impl Write for Turns<'_> {
    fn write(&mut self, piece: &[u8]) -> io::Result<usize> {
        let answer = self.answers.get(self.place).copied().flatten();
        self.place = self.place.saturating_add(1);
        match answer {
            Some(count) => Ok(count.min(piece.len())),
            None => Err(Error::from(ErrorKind::Interrupted)),
        }
    }

    fn flush(&mut self) -> io::Result<()> {
        Ok(())
    }
}

#[test]
fn a_write_that_a_signal_ended_is_made_again(rt: HostRuntime) -> Result<(), Fail> {
    let mut sink = WriterSink::new(Turns {
        answers: &[None, Some(2), None, None, Some(9), Some(0)],
        place: 0,
    });
    assert!(rt; sink.write(b"line\n") == Took::Bytes(2));
    assert!(rt; sink.write(b"ne\n") == Took::Bytes(3));
    assert!(rt; sink.write(b"!") == Took::Failed);
    assert!(rt; sink.octets() == 5);
    Ok(())
}

/// A clock that cannot be read.
#[derive(Drop)]
struct NoClock;

impl time::Clock for NoClock {
    fn monotonic(&self) -> io::Result<Duration> {
        Err(Error::from(ErrorKind::Other))
    }

    fn since_1970(&self) -> io::Result<Duration> {
        Err(Error::from(ErrorKind::Other))
    }
}

#[test]
fn a_clock_goes_on_or_counts_a_fault(rt: HostRuntime) -> Result<(), Fail> {
    let mut clock = SystemClock::new(&rt);
    let first = clock.now();
    assert!(rt; first <= clock.now());
    assert!(rt; clock.faults() == 0);
    let mut clock = SystemClock::new(&NoClock);
    assert!(rt; clock.now() == 0);
    assert!(rt; clock.faults() == 1);
    Ok(())
}
