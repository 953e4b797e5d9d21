//! The adapters cross threads.

use crate::{EdgeLink, EdgeWire, SocketAccept, SocketSource, SystemClock, SystemFiles, WriterSink};
use log::Log;
use std::io::Write;
use std::net::{Net, TcpStream};
use std::sync::Wait;
use std::{rt, time};
use test_wire::{TestLink, TestWire};

/// Takes types whose values may go to another thread.
fn may_go<T: Send>() {}

/// The two halves of a connection may go to another thread.
pub fn connections_cross() {
    may_go::<SocketSource>();
    may_go::<WriterSink<TcpStream>>();
}

/// A link may go to another thread.
pub fn links_cross() {
    may_go::<TestLink>();
    may_go::<EdgeLink>();
}

/// An adapter over a runtime may go to another thread where the runtime and the log may be shared.
pub fn adapters_cross<
    R: Net<Stream = TcpStream> + time::Clock + rt::Files + Wait + Sync,
    L: Log + Sync,
    W: Write + Drop + Send,
>() {
    may_go::<SystemClock<R>>();
    may_go::<SystemFiles<R>>();
    may_go::<WriterSink<W>>();
    may_go::<SocketAccept<R, L>>();
    may_go::<TestWire>();
    may_go::<EdgeWire<R, L>>();
}
