//! The command over sockets on loopback, with a client of Z39.50 and one of HTTP at one port.

ghost use Rattle.std.specs.Prelude.{None};

use crate::serving::serve_sockets;
use crate::workers::workers;
use event_edge::{
    EventWire, Listening, Readiness, SocketEdgeAccept, SocketEdgeSink, SocketEdgeSource,
    SocketPoller,
};
use event_outside::{EdgeAccept, EdgeAccepted};
use event_top::event_loop::EventFront;
use event_top::event_loop::event_front::conn_served::Listed;
use event_top::top_events;
use gateway_config::Status;
use gw_memory::MemorySink;
use gw_outside::Came;
use log::Log;
use log::sink::Discard;
use mio::Poll;
use route_config::SMALLEST_TEXT;
use std::alloc::Global;
use std::io::{Read, Result, Write};
use std::net::{IpAddr, Ipv4Addr, Net, Shutdown, SocketAddr, TcpListener, TcpStream};
use std::random::RandomSource;
use std::sync::{Mutex, Wait};
use std::test::Fail;
use std::thread::Threads;
use std::time::Duration;
use std::{fs, rt, thread, time};
use tcp_edge::{EdgeWire, Hosts, SystemClock, SystemFiles, Totals};
use test_target::TestWorld;
use z_client::ZBackend;
use z_types::{List, Memory, Text};

/// An Init, and a Search for the letter `a` as title (ANSI/NISO Z39.50-2003, appendix A).
const SENT: &[u8] = b"\
    \xb4\x13\x83\x02\x05\xe0\x84\x03\x01\xff\xfe\x85\x03\x10\x00\x00\x86\x03\x10\x00\x00\
    \xb6\x3e\x8d\x01\x00\x8e\x01\x01\x8f\x01\x00\x90\x01\xff\x91\x01\x31\xb2\x0a\x9f\x69\x07Default\
    \xb5\x21\xa1\x1f\x06\x07\x2a\x86\x48\xce\x13\x03\x01\xa0\x14\xbf\x66\x11\xbf\x2c\x0a\x30\x08\
    \x9f\x78\x01\x01\x9f\x79\x01\x04\x9f\x2d\x01a";

/// What they are answered: there are three hits.
const ANSWERED: &[u8] = b"\
    \xb5\x29\x83\x02\x05\xe0\x84\x03\x01\xc1\x02\x85\x03\x10\x00\x00\x86\x03\x10\x00\x00\x8c\x01\xff\
    \x9f\x6e\x02mp\x9f\x6f\x07gateway\x9f\x70\x011\
    \xb7\x0c\x97\x01\x03\x98\x01\x00\x99\x01\x01\x96\x01\xff";

/// A GET of the first record of the letter `a` as title (SRU 1.2, searchRetrieve).
const GET: &[u8] = b"GET /Default?version=1.2&operation=searchRetrieve&query=dc.title%3Da\
    &maximumRecords=1 HTTP/1.1\r\nHost: localhost\r\n\r\n";

/// What it is answered.
const PAGE: &[u8] = b"\
HTTP/1.1 200 OK\r\nContent-Type: text/xml; charset=utf-8\r\nContent-Length: 488\r\nConnection: close\r\n\r\n\
<?xml version=\"1.0\" encoding=\"UTF-8\"?><zs:searchRetrieveResponse xmlns:zs=\"http://www.loc.gov/zing/srw/\">\
<zs:version>1.2</zs:version><zs:numberOfRecords>3</zs:numberOfRecords><zs:records>\
<zs:record><zs:recordSchema>info:srw/schema/1/dc-v1.1</zs:recordSchema><zs:recordPacking>xml</zs:recordPacking>\
<zs:recordData><r>0.Default.4</r></zs:recordData><zs:recordPosition>1</zs:recordPosition></zs:record>\
</zs:records><zs:nextRecordPosition>2</zs:nextRecordPosition></zs:searchRetrieveResponse>";

/// The words of a line.
fn texts(alloc: Global, line: &[&str]) -> std::result::Result<Vec<Text>, Memory> {
    let mut words = Vec::new(alloc);
    for word in line {
        words.push(Text::copy_of(alloc, word.as_bytes())?)?;
    }
    Ok(words)
}

/// Serves the clients that wait at a listener by the configuration `c`, until its next accept fails, and tells
/// whether it says so.
fn serves<
    R: Net<Listener = TcpListener, Stream = TcpStream>
        + time::Clock
        + rt::Files
        + RandomSource
        + Threads
        + Wait
        + Sync,
    L: Log + Sync,
>(
    runtime: &R,
    alloc: Global,
    log: &L,
    listener: TcpListener,
    totals: &Totals,
) -> std::result::Result<bool, Memory> {
    let words = texts(alloc, &["serve", "c", "2100", "1"])?;
    let mut files = SystemFiles::new(runtime);
    let mut out = MemorySink::new(alloc, List::new(alloc));
    let listener = Mutex::new(listener);
    let mut workers = workers(runtime, alloc, log, Some(&listener), totals, 1)?;
    let status = serve_sockets(
        runtime,
        alloc,
        words.as_slice(),
        &mut files,
        &mut out,
        &mut workers,
    );
    Ok(status == Status::AcceptFault && out.received() == b"accept fault\n".as_slice())
}

/// A client that has sent these octets, and sends no more.
fn client<R: Net<Stream = TcpStream>>(
    runtime: &R,
    address: SocketAddr,
    sent: &[u8],
) -> Result<TcpStream> {
    let mut stream = TcpStream::connect(runtime, address)?;
    stream.write_all(sent)?;
    stream.shutdown(Shutdown::Write)?;
    Ok(stream)
}

/// Whether a client reads these octets, and no others.
fn is_answered(alloc: Global, stream: &mut TcpStream, answered: &[u8]) -> Result<bool> {
    let mut answer = vec![in alloc; 0u8; answered.len()]?;
    stream.read_exact(answer.as_mut_slice())?;
    let ended = stream.read(&mut [0u8; 1])? == 0;
    Ok(ended && answer.as_slice() == answered)
}

/// Whether a client of Z39.50 and one of HTTP, both of which wait at a listener before it serves, are answered.
fn are_answered<
    R: Net<Listener = TcpListener, Stream = TcpStream>
        + time::Clock
        + rt::Files
        + RandomSource
        + Threads
        + Wait
        + Sync,
>(runtime: &R, alloc: Global, totals: &Totals) -> Result<bool> {
    let listener = TcpListener::bind(runtime, "127.0.0.1:0")?;
    let address = listener.local_addr()?;
    let mut by_units = client(runtime, address, SENT)?;
    let mut by_head = client(runtime, address, GET)?;
    listener.set_nonblocking(true)?;
    let served = serves(runtime, alloc, &Discard, listener, totals);
    Ok(
        matches!(served, Ok(true))
            && is_answered(alloc, &mut by_units, ANSWERED)?
            && is_answered(alloc, &mut by_head, PAGE)?,
    )
}

#[test]
fn clients_of_both_kinds_are_answered_at_one_port(
    rt: HostRuntime,
) -> std::result::Result<(), Fail> {
    let totals = Totals::new(rt.alloc());
    fs::write(&rt, "c", SMALLEST_TEXT)?;
    let answered = are_answered(&rt, rt.alloc(), &totals);
    fs::remove_file(&rt, "c")?;
    assert!(rt; answered?);
    let told = format!(in rt.alloc(); "{totals}")?;
    assert_eq!(rt;
        told.as_str(),
        "totals: 0 connections open, 2 served, \
        requests 3 Plain, 0 Link, 0 Silent, 0 Gone, 0 Full"
    );
    Ok(())
}

/// An acceptor of which no connection is left behind so many.
#[derive(Drop)]
struct FewAccepts<'a, R: time::Clock, L: Log> {
    accept: SocketEdgeAccept<'a, R, L>,
    left: u32,
}

impl<'a, R: time::Clock, L: Log> EdgeAccept for FewAccepts<'a, R, L> {
    type In = SocketEdgeSource<'a>;

    type Out = SocketEdgeSink<'a>;

    ghost faults = { λ few. ⟦<SocketEdgeAccept<'a, R, L> as EdgeAccept>⟧.faults few.accept };

    ghost waits = { λ few. ⟦<SocketEdgeAccept<'a, R, L> as EdgeAccept>⟧.waits few.accept };

    ghost left = { λ few. None };

    ghost closed = { λ few. None };

    ghost out = { λ few. None };

    fn accept(&mut self) -> EdgeAccepted<SocketEdgeSource<'a>, SocketEdgeSink<'a>> {
        if self.left == 0 {
            return EdgeAccepted::Ended;
        }
        match self.accept.accept() {
            EdgeAccepted::Connection(input, output) => {
                self.left = self.left.saturating_sub(1);
                EdgeAccepted::Connection(input, output)
            }
            EdgeAccepted::NotReady => EdgeAccepted::NotReady,
            EdgeAccepted::Ended => EdgeAccepted::Ended,
            EdgeAccepted::Failed => EdgeAccepted::Failed,
        }
    }

    fn close(&mut self, input: SocketEdgeSource<'a>, output: SocketEdgeSink<'a>, came: Came<'_>) {
        self.accept.close(input, output, came);
    }
}

/// Serves two clients of a listener on one thread, by the configuration `e`, and tells whether it says so.
fn serves_two<R: Net<Listener = TcpListener, Stream = TcpStream> + time::Clock + rt::Files>(
    runtime: &R,
    alloc: Global,
    poll: Poll,
    listening: Listening,
    totals: &Totals,
) -> Result<bool> {
    let (Ok(words), Ok(readiness)) = (
        texts(alloc, &["events", "e", "2100", "2"]),
        Readiness::new(alloc, 2),
    ) else {
        return Ok(false);
    };
    let registry = poll.registry().try_clone()?;
    let wire = EdgeWire::prompt(alloc, runtime, &Discard, totals, Hosts::new(alloc));
    let accept = SocketEdgeAccept::new(runtime, &Discard, totals, &readiness, Some(listening));
    let mut front = EventFront {
        accept: FewAccepts { accept, left: 2 },
        poller: SocketPoller::new(alloc, runtime, &readiness, Some(poll))?,
        backend: ZBackend::new(alloc, EventWire::new(wire, &readiness, Some(registry))),
        clock: SystemClock::new(runtime),
        served: Listed::counting(),
    };
    let mut files = SystemFiles::new(runtime);
    let mut out = MemorySink::new(alloc, List::new(alloc));
    let status = top_events::<TestWorld, _, _, _, _, _, _>(
        alloc,
        words.as_slice(),
        &mut files,
        &mut out,
        &mut front,
    );
    Ok(status == Status::Ok && out.received() == b"served 2\n".as_slice())
}

/// Where what answers an Init ends, among what answers it and a Search.
const INIT_ANSWERED: usize = 43;

/// Where an Init ends before a Search.
const INIT_SENT: usize = 21;

/// Whether a client that sends an Init, and a Search once that is answered, reads what it is to be answered.
fn converses(alloc: Global, stream: &mut TcpStream) -> Result<bool> {
    stream.set_read_timeout(Some(Duration::from_secs(30)))?;
    stream.write_all(&SENT[..INIT_SENT])?;
    let mut first = [0u8; INIT_ANSWERED];
    stream.read_exact(&mut first)?;
    stream.write_all(&SENT[INIT_SENT..])?;
    stream.shutdown(Shutdown::Write)?;
    Ok(
        first.as_slice() == &ANSWERED[..INIT_ANSWERED]
            && is_answered(alloc, stream, &ANSWERED[INIT_ANSWERED..])?,
    )
}

/// Whether two clients, each in its thread, are served on a third.
fn are_served_on_one_thread<
    R: Net<Listener = TcpListener, Stream = TcpStream> + time::Clock + rt::Files + Threads,
>(runtime: &R, alloc: Global, totals: &Totals) -> Result<bool> {
    let poll = Poll::new(runtime)?;
    let listening = event_edge::listen(runtime, &poll, IpAddr::V4(Ipv4Addr::LOCALHOST), 0)?;
    let address = listening.local_addr()?;
    let mut one = TcpStream::connect(runtime, address)?;
    let mut other = TcpStream::connect(runtime, address)?;
    let one = thread::spawn(runtime, move || converses(alloc, &mut one));
    let other = thread::spawn(runtime, move || converses(alloc, &mut other));
    let served = serves_two(runtime, alloc, poll, listening, totals)?;
    let (Ok(one), Ok(other)) = (one, other) else {
        return Ok(false);
    };
    Ok(one.join(runtime)? && other.join(runtime)? && served)
}

#[test]
fn two_clients_in_threads_are_served_on_one_thread(
    rt: HostRuntime,
) -> std::result::Result<(), Fail> {
    let totals = Totals::new(rt.alloc());
    fs::write(&rt, "e", SMALLEST_TEXT)?;
    let served = are_served_on_one_thread(&rt, rt.alloc(), &totals);
    fs::remove_file(&rt, "e")?;
    assert!(rt; served?);
    let told = format!(in rt.alloc(); "{totals}")?;
    assert_eq!(rt;
        told.as_str(),
        "totals: 0 connections open, 2 served, \
        requests 4 Plain, 0 Link, 0 Silent, 0 Gone, 0 Full"
    );
    Ok(())
}
