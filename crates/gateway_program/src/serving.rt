//! Serving, where the words ask for it.

use crate::flags::flags_of;
use crate::hints::help;
use gateway_config::Status;
use log::LevelFilter;
use log::filter::{Builder, Filter, FilteredLog};
use serve_edge::{serve, serve_events};
use std::alloc::{AllocError, Global};
use std::net::{Net, TcpListener, TcpStream};
use std::random::RandomSource;
use std::sync::Wait;
use std::thread::Threads;
use std::{io, rt, time};
use tcp_edge::{DatedConsole, SystemFiles, WriterSink};
use z_types::Text;

/// What logs connections that begin or end, in threads and on one thread.
const CONNECTIONS: [&str; 2] = ["tcp_edge::accepts", "event_edge::accepts"];

/// What is logged: all, or all but connections that begin or end.
fn filter(alloc: Global, quiet: bool) -> Result<Filter, AllocError> {
    let mut logged = Builder::new(alloc).filter_level(LevelFilter::Info)?;
    if quiet {
        for module in CONNECTIONS {
            logged = logged.filter_module(module, LevelFilter::Warn)?;
        }
    }
    Ok(logged.build())
}

/// Serves over the system's sockets, files, clock and output, and logs to the standard error.
pub(crate) fn serve_here<
    R: Net<Listener = TcpListener, Stream = TcpStream>
        + time::Clock
        + rt::Files
        + Print
        + Eprint
        + RandomSource
        + Threads
        + Wait
        + Sync,
>(runtime: &R, alloc: Global, words: &[Text]) -> Status {
    let (words, flags) = flags_of(words);
    let Ok(filter) = filter(alloc, flags.quiet) else {
        return Status::Memory;
    };
    let log = FilteredLog::new(DatedConsole(runtime), filter);
    let mut files = SystemFiles::new(runtime);
    let mut output = WriterSink::new(io::writer(runtime));
    let address = flags.address();
    let status = serve(
        runtime,
        alloc,
        &log,
        address,
        words,
        &mut files,
        &mut output,
    );
    help(runtime, alloc, &files, status);
    status
}

/// Serves on one thread over the same, and logs to the standard error.
pub(crate) fn events_here<
    R: Net<Listener = TcpListener, Stream = TcpStream> + time::Clock + rt::Files + Print + Eprint,
>(runtime: &R, alloc: Global, words: &[Text]) -> Status {
    let (words, flags) = flags_of(words);
    let Ok(filter) = filter(alloc, flags.quiet) else {
        return Status::Memory;
    };
    let log = FilteredLog::new(DatedConsole(runtime), filter);
    let mut files = SystemFiles::new(runtime);
    let mut output = WriterSink::new(io::writer(runtime));
    let address = flags.address();
    let status = serve_events(
        runtime,
        alloc,
        &log,
        address,
        words,
        &mut files,
        &mut output,
    );
    help(runtime, alloc, &files, status);
    status
}
