//! Connections of a listener: steps of a client and of what serves it, played over one connection.

use super::listening;
use crate::sinks::WriterSink;
use crate::sources::SocketSource;
use crate::{SocketAccept, Totals};
use gw_outside::{Accept, Accepted, Came, Got, Sink, Source, Took, Whose, write_all};
use log::Log;
use log::sink::{Discard, Memory};
use std::io::{Read, Result, Write};
use std::net::{Net, Shutdown, SocketAddr, TcpListener, TcpStream};
use std::sync::{Mutex, Wait};
use std::test::Fail;
use std::time::Duration;
use std::{io, time};
use z_types::{End, Mark};

/// A step over a connection.
#[derive(Clone, Copy, Debug)]
enum Step {
    /// The client sends these octets.
    Sends(&'static [u8]),
    /// The client sends no more.
    Stops,
    /// The client has an octet to read, and does not read it.
    Sees,
    /// The client goes, with what it did not read.
    Goes,
    /// No call waits longer than a moment from now on.
    Hurries,
    /// A read into three octets of room gives these.
    Gives(&'static [u8]),
    /// A read gives the end.
    Ends,
    /// A read fails, and leaves what it was to fill.
    GivesNothing,
    /// These octets are written.
    Writes(&'static [u8]),
    /// A write fails, at once or when the system has no more room.
    TakesNothing,
    /// The socket has no delay, and waits as long as it may.
    IsSet,
}

/// A case: its steps, and what the client reads behind them, where it is still there.
type Case = (&'static [Step], &'static [u8]);

/// A client that is answered, one that is silent and takes nothing, one that resets, and one that sent more
/// than was read when its last reply was written.
const CASES: [Case; 4] = [
    (
        &[
            Step::IsSet,
            Step::Sends(b"a line"),
            Step::Gives(b"a l"),
            Step::Gives(b"ine"),
            Step::Writes(b"A LINE"),
            Step::Stops,
            Step::Ends,
        ],
        b"A LINE",
    ),
    (
        &[
            Step::Hurries,
            Step::GivesNothing,
            Step::TakesNothing,
            Step::Goes,
        ],
        b"",
    ),
    (
        &[
            Step::Writes(b"unread"),
            Step::Sees,
            Step::Goes,
            Step::GivesNothing,
            Step::TakesNothing,
        ],
        b"",
    ),
    (
        &[Step::Sends(&[b'x'; 9000]), Step::Writes(b"refused")],
        b"refused",
    ),
];

/// Whether a step goes as it says, over the two ends of a connection.
fn goes(
    step: Step,
    client: &mut Option<TcpStream>,
    source: &mut SocketSource,
    sink: &mut WriterSink<TcpStream>,
) -> bool {
    match step {
        Step::Sends(octets) => sends(client, octets),
        Step::Stops => stops(client),
        Step::Sees => sees(client),
        Step::Goes => client.take().is_some(),
        Step::Hurries => hurries(source, sink),
        Step::Gives(octets) => gives(source, octets),
        Step::Ends => source.read(&mut [0u8; 7]) == Got::End,
        Step::GivesNothing => gives_nothing(source),
        Step::Writes(octets) => write_all(sink, octets),
        Step::TakesNothing => takes_nothing(sink),
        Step::IsSet => is_set(source, sink),
    }
}

/// Whether a client sends octets.
fn sends(client: &mut Option<TcpStream>, octets: &[u8]) -> bool {
    match client {
        Some(stream) => stream.write_all(octets).is_ok(),
        None => false,
    }
}

/// Whether a client ends what it sends.
fn stops(client: &Option<TcpStream>) -> bool {
    match client {
        Some(stream) => stream.shutdown(Shutdown::Write).is_ok(),
        None => false,
    }
}

/// Whether a client has an octet to read.
fn sees(client: &Option<TcpStream>) -> bool {
    match client {
        Some(stream) => matches!(stream.peek(&mut [0u8; 1]), Ok(1)),
        None => false,
    }
}

/// Whether calls can be told to wait no longer than a moment.
fn hurries(source: &SocketSource, sink: &WriterSink<TcpStream>) -> bool {
    let short = Some(Duration::from_millis(30));
    source.stream.set_read_timeout(short).is_ok() && sink.writer.set_write_timeout(short).is_ok()
}

/// Whether a read into three octets of room gives these.
fn gives(source: &mut SocketSource, octets: &[u8]) -> bool {
    let mut piece = [0u8; 3];
    source.read(&mut piece) == Got::Bytes(3) && piece.as_slice() == octets
}

/// Whether a read fails, and leaves what it was to fill.
fn gives_nothing(source: &mut SocketSource) -> bool {
    let mut piece = [7u8; 40];
    source.read(&mut piece) == Got::Failed && piece == [7u8; 40]
}

/// Whether a write fails before so much was taken as no system has room for.
fn takes_nothing(sink: &mut WriterSink<TcpStream>) -> bool {
    let piece = [0u8; 4096];
    (0..16384).any(|_| sink.write(&piece) == Took::Failed)
}

/// Whether the two halves have no delay, and wait as long as a client may let them.
fn is_set(source: &SocketSource, sink: &WriterSink<TcpStream>) -> bool {
    matches!(source.stream.nodelay(), Ok(true))
        && source.stream.read_timeout().ok().flatten() == Some(Duration::from_secs(900))
        && sink.writer.write_timeout().ok().flatten() == Some(Duration::from_secs(60))
}

/// Whether what a client reads to the end is this, or whether it has gone.
fn reads(client: &mut Option<TcpStream>, octets: &[u8]) -> bool {
    match client {
        Some(stream) => {
            let mut answer = [0u8; 40];
            let count = octets.len().min(40);
            stream.read_exact(&mut answer[..count]).is_ok()
                && &answer[..count] == octets
                && matches!(stream.read(&mut answer), Ok(0))
        }
        None => true,
    }
}

/// Whether all steps go as they say.
fn go(
    steps: &[Step],
    client: &mut Option<TcpStream>,
    source: &mut SocketSource,
    sink: &mut WriterSink<TcpStream>,
) -> bool {
    let mut all = true;
    for step in steps {
        all = all && goes(*step, client, source, sink);
    }
    all
}

/// Whether the next connection of an acceptor, which a client has begun, goes as a case says.
fn is_served<R: time::Clock + Wait, L: Log>(
    acceptor: &mut SocketAccept<'_, R, L>,
    client: &mut Option<TcpStream>,
    case: Case,
) -> bool {
    match acceptor.accept() {
        Accepted::Connection(mut source, mut sink) => {
            let gone = go(case.0, client, &mut source, &mut sink);
            let marks = [Mark::Plain, Mark::Link, Mark::Silent(2), Mark::Link];
            let came = Came {
                marks: &marks,
                end: Some(End::Finished),
                whose: Whose::Anonymous,
                cached: 3,
            };
            acceptor.close(source, sink, came);
            gone && reads(client, case.1)
        }
        Accepted::Ended => false,
        Accepted::Failed => false,
    }
}

/// Whether a connection to an acceptor at this address goes as a case says.
fn goes_so<R: Net<Stream = TcpStream> + time::Clock + Wait, L: Log>(
    runtime: &R,
    acceptor: &mut SocketAccept<'_, R, L>,
    address: SocketAddr,
    case: Case,
) -> bool {
    match TcpStream::connect(runtime, address) {
        Ok(client) => is_served(acceptor, &mut Some(client), case),
        Err(_) => false,
    }
}

/// How many cases, one after another, go as they say.
fn count_so<R: Net<Listener = TcpListener, Stream = TcpStream> + time::Clock + Wait, L: Log>(
    runtime: &R,
    log: &L,
    totals: &Totals,
) -> Result<usize> {
    let (listener, address) = listening(runtime)?;
    let listener = Mutex::new(listener);
    let mut acceptor = SocketAccept::new(runtime, log, Some(&listener), totals);
    let mut count = 0usize;
    for case in CASES {
        if goes_so(runtime, &mut acceptor, address, case) {
            count = count.saturating_add(1);
        }
    }
    Ok(count)
}

#[test]
fn connections_go_as_their_steps_say(rt: HostRuntime) -> std::result::Result<(), Fail> {
    let totals = Totals::new(rt.alloc());
    let count = count_so(&rt, &Discard, &totals);
    assert!(rt; matches!(count, Ok(4)));
    let told = format!(in rt.alloc(); "{totals}")?;
    assert_eq!(rt;
        told.as_str(),
        "totals: 0 connections open, 4 served, \
        requests 4 Plain, 8 Link, 4 Silent, 0 Gone, 0 Full, 12 from the cache"
    );
    Ok(())
}

#[test]
fn a_connection_is_logged_by_its_number(rt: HostRuntime) -> std::result::Result<(), Fail> {
    let log = Memory::new(rt.alloc());
    let totals = Totals::new(rt.alloc());
    let count = count_so(&rt, &log, &totals);
    assert!(rt; matches!(count, Ok(4)));
    let lines = log.into_lines();
    let [begun, ended, ..] = lines.as_slice() else {
        return Err("not two lines".into());
    };
    assert!(rt; begun.as_str().contains("connection 1 from 127.0.0.1:"));
    assert!(rt; ended.as_str().contains("connection 1 ended after "));
    let told = "6 octets in, 6 out, 4 requests (2 Link, 1 Silent, 0 Gone, 0 Full), \
        3 from the cache, Finished, as anonymous";
    assert!(rt; ended.as_str().ends_with(told));
    Ok(())
}

/// Whether an accept without a listener, and one of a listener that has nothing to give at once, fail.
fn fail<'a, R: Net<Listener = TcpListener, Stream = TcpStream> + time::Clock + Wait, L: Log>(
    runtime: &'a R,
    log: &'a L,
    totals: &'a Totals,
) -> io::Result<bool> {
    let (listener, _) = listening(runtime)?;
    let is_set = listener.set_nonblocking(true).is_ok();
    let listener = Mutex::new(listener);
    let mut of_none = SocketAccept::new(runtime, log, None, totals);
    let mut of_one = SocketAccept::new(runtime, log, Some(&listener), totals);
    Ok(
        is_set
            && matches!(of_none.accept(), Accepted::Failed)
            && matches!(of_one.accept(), Accepted::Failed),
    )
}

#[test]
fn a_listener_that_fails_is_a_fault(rt: HostRuntime) -> std::result::Result<(), Fail> {
    let totals = Totals::new(rt.alloc());
    assert!(rt; matches!(fail(&rt, &Discard, &totals), Ok(true)));
    Ok(())
}
