//! The command of the event front over the system.

ghost use Rattle.gateway_config.specs.Outside.{sink_writes};
ghost use Rattle.event_top.specs.Outcome.{IsPrinted};

use crate::listening::tell_strangers;
use crate::passwords::tell_passwords;
use crate::serving::route_of;
use crate::targets::{add_targets, tell_limit};
use event_edge::{EventWire, Listening, Readiness, SocketEdgeAccept, SocketPoller, listen};
use event_top::event_loop::EventFront;
use event_top::event_loop::event_front::conn_served::Listed;
use event_top::{EventsAsked, events_of, top_events};
use gateway_config::Status;
use gw_outside::Sink;
use log::{Log, error, warn};
use mio::{Poll, Registry};
use route_config::Route;
use std::alloc::Global;
use std::net::{IpAddr, Net, TcpListener, TcpStream};
use std::{rt, str, time};
use tcp_edge::{EdgeWire, Hosts, SystemClock, SystemFiles, Totals};
use test_target::TestWorld;
use z_client::ZBackend;
use z_types::{Address, Text};

/// How many descriptors a connection takes.
const OF_CONNECTION: u64 = 2;

/// A front over the system, with this wait.
pub(crate) type Front<'a, R, L, P> = EventFront<
    SocketEdgeAccept<'a, R, L>,
    P,
    ZBackend<EventWire<'a, R, L>>,
    SystemClock<'a, R>,
>;

/// What a front over the system stands on: the poll, the listener, the addresses of targets, and what is counted.
#[derive(Drop)]
struct Ground {
    poll: Option<Poll>,
    listening: Option<Listening>,
    hosts: Hosts,
    totals: Totals,
}

/// Serves on one thread, as the words after the program's name say, at an address of this machine, until an
/// accept or a wait fails. The configuration is read first: only where it is taken targets are looked up by their
/// names, and the port is listened on. Where the words are not those of `events`, or the system refuses the port, it
/// says so as `top_events` does.
pub fn serve_events<
    R: Net<Listener = TcpListener, Stream = TcpStream> + time::Clock + rt::Files + Eprint,
    L: Log,
    K: Sink,
>(
    runtime: &R,
    alloc: Global,
    log: &L,
    address: IpAddr,
    words: &[Text],
    files: &mut SystemFiles<'_, R>,
    out: &mut K,
) -> Status
    ensures printed { IsPrinted (sink_writes K.Sink out.old out.new) result }
{
    let mut ground = Ground {
        poll: None,
        listening: None,
        hosts: Hosts::new(alloc),
        totals: Totals::new(alloc),
    };
    let mut most = 0;
    if let Some(asked) = events_of(words)
        && let Some(route) = route_of(alloc, words, files)
    {
        tell_passwords(runtime, log, Some(&route), words.get(1));
        stand(runtime, log, address, asked, &route, &mut ground);
        most = asked.most as usize;
    }
    serve_on(runtime, alloc, log, words, files, out, most, ground)
}

/// Looks up the targets of a route, and listens.
fn stand<R: Net<Listener = TcpListener, Stream = TcpStream> + Eprint, L: Log>(
    runtime: &R,
    log: &L,
    address: IpAddr,
    asked: EventsAsked,
    route: &Route,
    ground: &mut Ground,
) {
    let _ = add_targets(&mut ground.totals, route);
    tell_limit(log, route, asked.most, "connections", OF_CONNECTION);
    learn_hosts(runtime, log, &mut ground.hosts, route);
    match Poll::new(runtime) {
        Ok(poll) => {
            ground.listening = open(runtime, log, address, asked, route, &poll);
            ground.poll = Some(poll);
        }
        Err(error) => error!(log; "cannot wait for sockets: {error}"),
    }
}

/// Looks up the addresses of the route's targets at hosts, before any client is served. One that is not found is
/// logged, and cannot be dialled.
fn learn_hosts<R: Net, L: Log>(runtime: &R, log: &L, hosts: &mut Hosts, route: &Route) {
    for target in route.parts().targets.as_slice() {
        if let Address::Tcp(host, port) = &target.address
            && let Err(error) = hosts.learn(runtime, host, *port)
        {
            let name = str::from_utf8(host.as_slice()).unwrap_or("?");
            warn!(log; "target {name}:{port} is not found: {error}");
        }
    }
}

/// The listener that the words of `events` ask for, or nothing where the system refuses it. The standard error is
/// told which.
fn open<R: Net<Listener = TcpListener, Stream = TcpStream> + Eprint, L: Log>(
    runtime: &R,
    log: &L,
    address: IpAddr,
    asked: EventsAsked,
    route: &Route,
    poll: &Poll,
) -> Option<Listening> {
    let (port, most) = (asked.port, asked.most);
    match listen(
        runtime,
        poll,
        address,
        u16::try_from(port).unwrap_or(u16::MAX),
    ) {
        Ok(listening) => {
            let _ = eprintln!(runtime;
                "listening on {address}, port {port}, for {most} connections"
            );
            tell_strangers(runtime, address, route);
            Some(listening)
        }
        Err(error) => {
            error!(log; "cannot listen on {address}, port {port}: {error}");
            None
        }
    }
}

/// Serves so many connections at a time over what stands.
fn serve_on<
    R: Net<Listener = TcpListener, Stream = TcpStream> + time::Clock + rt::Files,
    L: Log,
    K: Sink,
>(
    runtime: &R,
    alloc: Global,
    log: &L,
    words: &[Text],
    files: &mut SystemFiles<'_, R>,
    out: &mut K,
    most: usize,
    ground: Ground,
) -> Status
    ensures printed { IsPrinted (sink_writes K.Sink out.old out.new) result }
{
    let totals = ground.totals;
    let registry = registry_of(ground.poll.as_ref());
    let Ok(readiness) = Readiness::new(alloc, most) else {
        return Status::Memory;
    };
    let Ok(poller) = SocketPoller::new(alloc, runtime, &readiness, ground.poll) else {
        return Status::Memory;
    };
    let wire = EdgeWire::prompt(alloc, runtime, log, &totals, ground.hosts);
    let mut front: Front<'_, R, L, SocketPoller<'_, R>> = EventFront {
        accept: SocketEdgeAccept::new(runtime, log, &totals, &readiness, ground.listening),
        poller,
        backend: ZBackend::new(alloc, EventWire::new(wire, &readiness, registry)),
        clock: SystemClock::new(runtime),
        served: Listed::counting(),
    };
    let status = top_events::<TestWorld, _, _, _, _, _, K>(alloc, words, files, out, &mut front);
    totals.tell(log);
    status
}

/// The registry of a poll.
fn registry_of(poll: Option<&Poll>) -> Option<Registry> {
    poll?.registry().try_clone().ok()
}
