//! The command over the system.

ghost use Rattle.gateway_config.specs.Outside.{sink_writes};
ghost use Rattle.serve_top.specs.Outcome.{IsPrinted};

use crate::listening::listen;
use crate::passwords::tell_passwords;
use crate::targets::{add_targets, tell_limit};
use crate::workers::{Edge, workers};
use gateway_config::{ConfigRead, Status, read_config};
use gw_outside::{Accept, Clock, Files, Sink, Wire};
use log::Log;
use route_config::Route;
use serve_top::serve::Worker;
use serve_top::{ServeWords, asked_of, top_serve};
use std::alloc::Global;
use std::net::{IpAddr, Net, TcpListener, TcpStream};
use std::random::RandomSource;
use std::sync::{Mutex, Wait};
use std::thread::Threads;
use std::{rt, time};
use tcp_edge::{SystemFiles, Totals};
use test_target::TestWorld;
use z_client::ZBackend;
use z_types::Text;

/// How many descriptors a worker takes at most: two for its connection, two while a target's name is looked
/// up.
const OF_WORKER: u64 = 4;

/// Serves, as the words after the program's name say, at an address of this machine, until an accept fails.
/// The configuration is read first: only where it is taken the port is listened on. Where the words are not
/// those of `serve`, or the system refuses the port, it says so as `top_serve` does.
pub fn serve<
    R: Net<Listener = TcpListener, Stream = TcpStream>
        + time::Clock
        + rt::Files
        + Eprint
        + RandomSource
        + Threads
        + Wait
        + Sync,
    L: Log + Sync,
    K: Sink,
>(
    runtime: &R,
    alloc: Global,
    log: &L,
    address: IpAddr,
    words: &[Text],
    files: &mut SystemFiles<'_, R>,
    out: &mut K,
) -> Status
    ensures printed { IsPrinted (sink_writes K.Sink out.old out.new) result }
{
    let mut totals = Totals::new(alloc);
    let (listener, count) = match asked_of(words) {
        Some(asked) => {
            let route = route_of(alloc, words, files);
            tell_passwords(runtime, log, route.as_ref(), words.get(1));
            let listener = open(runtime, log, address, asked, route, &mut totals);
            (listener.map(Mutex::new), asked.workers)
        }
        None => (None, 0),
    };
    let Ok(mut workers) = workers(runtime, alloc, log, listener.as_ref(), &totals, count) else {
        return Status::Memory;
    };
    let status = serve_sockets(runtime, alloc, words, files, out, &mut workers);
    totals.tell(log);
    status
}

/// The route that the words of `serve` name, where it is taken.
pub(crate) fn route_of<F: Files>(alloc: Global, words: &[Text], files: &mut F) -> Option<Route> {
    match read_config(alloc, files, words.get(1)?) {
        ConfigRead::Taken(route) => Some(route),
        ConfigRead::Refused(_) | ConfigRead::Failed | ConfigRead::Memory => None,
    }
}

/// The listener that the words of `serve` ask for, where their route is taken and its targets have their
/// places in the totals.
fn open<R: Net<Listener = TcpListener, Stream = TcpStream> + Eprint, L: Log>(
    runtime: &R,
    log: &L,
    address: IpAddr,
    asked: ServeWords,
    route: Option<Route>,
    totals: &mut Totals,
) -> Option<TcpListener> {
    let route = route?;
    let _ = add_targets(totals, &route);
    tell_limit(log, &route, asked.workers, "workers", OF_WORKER);
    listen(runtime, log, address, asked, &route)
}

/// Serves over the system's files and sockets.
pub(crate) fn serve_sockets<
    R: Net<Listener = TcpListener, Stream = TcpStream>
        + time::Clock
        + rt::Files
        + RandomSource
        + Threads
        + Wait
        + Sync,
    L: Log + Sync,
    K: Sink,
>(
    runtime: &R,
    alloc: Global,
    words: &[Text],
    files: &mut SystemFiles<'_, R>,
    out: &mut K,
    workers: &mut Vec<Edge<R, L>>,
) -> Status
    ensures printed { IsPrinted (sink_writes K.Sink out.old out.new) result }
{
    serve_over(runtime, alloc, words, files, out, workers)
}

/// Serves over links that may go to other threads.
fn serve_over<
    R: RandomSource + Threads + Wait + Sync,
    N: Wire<TestWorld, Link: Send> + Drop + Send,
    A: Accept<In: Send, Out: Send> + Drop + Send,
    C: Clock + Drop + Send,
    F: Files,
    K: Sink,
>(
    runtime: &R,
    alloc: Global,
    words: &[Text],
    files: &mut F,
    out: &mut K,
    workers: &mut Vec<Worker<ZBackend<N>, A, C>>,
) -> Status
    ensures printed { IsPrinted (sink_writes K.Sink out.old out.new) result }
{
    top_serve::<R, TestWorld, ZBackend<N>, A, C, F, K>(runtime, alloc, words, files, out, workers)
}
