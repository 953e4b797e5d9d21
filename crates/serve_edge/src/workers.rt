//! Workers over the system.

use log::Log;
use serve_top::serve::{Listed, Worker};
use std::alloc::Global;
use std::net::{Net, TcpListener, TcpStream};
use std::sync::{Mutex, Wait};
use std::time;
use tcp_edge::{EdgeWire, SocketAccept, SystemClock, Totals};
use z_client::ZBackend;
use z_types::Memory;

/// A worker over the system: sockets to targets at hosts and links to test targets, the connections of a
/// listener, and the clock.
pub(crate) type Edge<'a, R, L> = Worker<
    ZBackend<EdgeWire<'a, R, L>>,
    SocketAccept<'a, R, L>,
    SystemClock<'a, R>,
>;

/// A worker that accepts what a listener gives; without one its first accept fails.
pub(crate) fn worker<'a, R: Net<Stream = TcpStream> + time::Clock + Wait, L: Log>(
    runtime: &'a R,
    alloc: Global,
    log: &'a L,
    listener: Option<&'a Mutex<TcpListener>>,
    totals: &'a Totals,
) -> Edge<'a, R, L> {
    Worker {
        backend: ZBackend::new(alloc, EdgeWire::new(alloc, runtime, log, totals)),
        accept: SocketAccept::new(runtime, log, listener, totals),
        clock: SystemClock::new(runtime),
        served: Listed::counting(),
    }
}

/// So many workers that accept what one listener gives, and count in the same totals.
pub(crate) fn workers<'a, R: Net<Stream = TcpStream> + time::Clock + Wait, L: Log>(
    runtime: &'a R,
    alloc: Global,
    log: &'a L,
    listener: Option<&'a Mutex<TcpListener>>,
    totals: &'a Totals,
    count: u32,
) -> Result<Vec<Edge<'a, R, L>>, Memory> {
    let mut workers = Vec::new(alloc);
    for _ in 0..count {
        workers.push(worker(runtime, alloc, log, listener, totals))?;
    }
    Ok(workers)
}
