//! The outside in memory: each object gives and takes what was stated, and fails at the calls that are listed.
//! A subject is the numbers of the calls that fail, or the moments of a clock.

ghost use Rattle.std.specs.Prelude.{IfOk};
ghost use Rattle.gw_outside.specs.Accepts.{IsUntouched};

use crate::words::calls_of;
use case_files::{Answer, NoAnswer};
use gw_memory::{MemoryAccept, MemoryClock, MemoryFiles, MemorySink, MemorySource};
use gw_outside::{
    Accept, Accepted, Came, Clock, FileGot, Files, Sink, Source, TargetAnswer, Whose, write_all,
};
use std::alloc::Global;
use z_types::{Condition, Diag, End, List, Memory, Text};

/// Whether a call is one of these. Its answer is put at the end.
pub(crate) fn is_answered(
    alloc: Global,
    call: &str,
    words: &str,
    out: &mut Answer,
) -> Result<bool, NoAnswer> {
    match call {
        "sink" => put_writes(out, MemorySink::new(alloc, calls_of(alloc, words)?)),
        "sink_of_two" => put_parts(out, MemorySink::taking(alloc, 2, calls_of(alloc, words)?)),
        "source" => put_reads(alloc, out, calls_of(alloc, words)?)?,
        "files" => put_files(alloc, out, calls_of(alloc, words)?)?,
        "clock" => put_moments(out, MemoryClock::new(calls_of(alloc, words)?)),
        "connections" => put_connections(alloc, out, calls_of(alloc, words)?)?,
        "refused" => put_refused(out, diag_of(alloc, words)?),
        _ => return Ok(false),
    }
    Ok(true)
}

/// What a sink answers to three pieces, and what it has then.
fn put_writes(out: &mut Answer, mut sink: MemorySink) {
    for piece in [b"abc".as_slice(), b"de", b"f"] {
        out.spell(&sink.write(piece));
        out.put(" ");
    }
    out.put_text(sink.received());
}

/// Whether octets are written to a sink that takes two at a time, and what it has then.
fn put_parts(out: &mut Answer, mut sink: MemorySink) {
    out.print(&write_all(&mut sink, b"abcde"));
    out.put(" [");
    out.put_text(sink.received());
    out.put("]");
}

/// What a source of three octets answers to four reads of two, and what stands in their buffer.
fn put_reads(alloc: Global, out: &mut Answer, failing: List<u64>) -> Result<(), Memory> {
    let mut source = MemorySource::new(Text::copy_of(alloc, b"abc")?, failing);
    let mut buffer = [b'-'; 2];
    for _ in 0..4 {
        out.spell(&source.read(&mut buffer));
        out.put(" ");
        out.put_text(&buffer);
        out.put("; ");
    }
    out.put("read");
    Ok(())
}

/// What is read of files: of one that two have the name of, of it within a smaller limit, of none, and of the
/// first twice more.
fn put_files(alloc: Global, out: &mut Answer, failing: List<u64>) -> Result<(), Memory> {
    let mut stated = List::new(alloc);
    for (name, octets) in [(b"a", b"xy"), (b"a", b"zz")] {
        stated.push((Text::copy_of(alloc, name)?, Text::copy_of(alloc, octets)?))?;
    }
    let mut files = MemoryFiles::new(stated, failing);
    for (name, limit) in [(b"a", 2), (b"a", 1), (b"b", 2), (b"a", 2), (b"a", 2)] {
        let got = files.read_all(alloc, &Text::copy_of(alloc, name)?, limit);
        out.put(word_of(&got));
        out.put("; ");
    }
    out.put("read");
    Ok(())
}

/// What a read gave, as a word.
fn word_of(got: &FileGot) -> &'static str {
    match got {
        FileGot::Whole(text) => {
            if text.as_slice() == b"xy".as_slice() {
                "xy"
            } else {
                "another"
            }
        }
        FileGot::Longer => "longer",
        FileGot::Failed => "failed",
        FileGot::Memory => "memory",
    }
}

/// Three moments of a clock.
fn put_moments(out: &mut Answer, mut clock: MemoryClock) {
    for _ in 0..3 {
        out.print(&clock.now());
        out.put(";");
    }
}

/// A connection of which nothing was read or written.
fn connection(alloc: Global, octets: &[u8]) -> Result<(MemorySource, MemorySink), Memory>
    ensures untouched { IfOk result (λ new. IsUntouched
        ⟦<MemorySource as Source>⟧ ⟦<MemorySink as Sink>⟧ new.0 new.1) }
{
    let input = MemorySource::new(Text::copy_of(alloc, octets)?, List::new(alloc));
    Ok((input, MemorySink::new(alloc, List::new(alloc))))
}

/// An acceptor of two connections.
fn acceptor(
    alloc: Global,
    failing: List<u64>,
) -> Result<MemoryAccept<MemorySource, MemorySink>, Memory> {
    let mut connections = List::new(alloc);
    connections.push(connection(alloc, b"a")?)?;
    connections.push(connection(alloc, b"b")?)?;
    MemoryAccept::new(alloc, connections, failing)
}

/// What is read of five connections, each handed back, and how many were handed back by then.
fn put_connections(alloc: Global, out: &mut Answer, failing: List<u64>) -> Result<(), Memory> {
    let mut accept = acceptor(alloc, failing)?;
    for _ in 0..5 {
        out.put(next_octet(&mut accept));
        out.put(" ");
        out.print(&accept.closed().len());
        out.put("; ");
    }
    out.put("accepted");
    Ok(())
}

/// What is read of the next connection, which is handed back: one octet, or a word of its own.
fn next_octet(accept: &mut MemoryAccept<MemorySource, MemorySink>) -> &'static str {
    match accept.accept() {
        Accepted::Connection(mut input, output) => {
            let mut octet = [b'?'];
            let _ = input.read(&mut octet);
            let came = Came {
                marks: &[],
                end: Some(End::Closed),
                whose: Whose::Untold,
                cached: 0,
            };
            accept.close(input, output, came);
            match octet {
                [b'a'] => "a",
                [b'b'] => "b",
                _ => "another octet",
            }
        }
        Accepted::Ended => "ended",
        Accepted::Failed => "failed",
    }
}

/// A diagnostic by its number, or that no memory was had for one.
fn diag_of(alloc: Global, words: &str) -> Result<Result<Diag, Memory>, NoAnswer> {
    match words {
        "memory" => Ok(Err(Memory)),
        "114" => {
            let condition = Condition::UnsupportedUseAttribute;
            Ok(Diag::bib1(alloc, condition, Text::new(alloc)))
        }
        _ => Err(NoAnswer::Misspelt),
    }
}

/// What the answer is by a diagnostic, or where it had no memory.
fn put_refused(out: &mut Answer, diag: Result<Diag, Memory>) {
    let answer: TargetAnswer<u32> = TargetAnswer::refused(diag);
    match answer {
        TargetAnswer::Memory => out.put("memory"),
        TargetAnswer::Refused(diag) => out.print(&diag.condition),
        _ => out.put("another answer"),
    }
}
