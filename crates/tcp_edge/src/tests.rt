//! The adapters over the real files, clock and sockets, on loopback.

mod connections;
mod files;
mod lines;
mod links;
mod told;

use std::io::Result;
use std::net::{Net, SocketAddr, TcpListener, TcpStream};

/// A listener on loopback, and its address.
fn listening<R: Net<Listener = TcpListener, Stream = TcpStream>>(
    runtime: &R,
) -> Result<(TcpListener, SocketAddr)> {
    let listener = TcpListener::bind(runtime, "127.0.0.1:0")?;
    let address = listener.local_addr()?;
    Ok((listener, address))
}
