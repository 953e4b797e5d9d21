//! Hosts whose addresses are known, so that a connection with one is begun at once.

ghost use Rattle.std.specs.Prelude.{◌≡◌, IfSome};

use std::alloc::Global;
use std::io::{Error, ErrorKind, Result};
use std::net::{Net, SocketAddr, TcpStream, ToSocketAddrs};
use std::str;
use z_types::{List, Text, copy};

/// Hosts with a port each, and the addresses of each.
#[derive(Drop)]
pub struct Hosts {
    alloc: Global,
    known: List<Known>,
}

/// A host and a port, and its addresses.
#[derive(Drop)]
struct Known {
    host: Text,
    port: u16,
    addresses: List<SocketAddr>,
}

/// A connection that is begun: its socket, the address, and how many of its host's addresses were tried with it.
#[derive(Drop)]
pub(crate) struct Begun {
    pub(crate) stream: TcpStream,
    pub(crate) address: SocketAddr,
    pub(crate) tried: usize,
}

impl Hosts {
    /// None is known.
    pub fn new(alloc: Global) -> Hosts {
        Hosts {
            alloc,
            known: List::new(alloc),
        }
    }

    /// Looks a host up, and knows its addresses from now on. It waits for the system.
    pub fn learn<R: Net>(&mut self, runtime: &R, host: &Text, port: u16) -> Result<()> {
        let addresses = addresses_of(runtime, self.alloc, host.as_slice(), port)?;
        let Ok(host) = copy(host) else {
            return Err(no_memory());
        };
        let known = Known {
            host,
            port,
            addresses,
        };
        match self.known.push(known) {
            Ok(()) => Ok(()),
            Err(_) => Err(no_memory()),
        }
    }

    /// The place of a host and a port, where they are known.
    pub(crate) fn place_of(&self, host: &Text, port: u16) -> Option<usize> {
        self.known
            .as_slice()
            .iter()
            .position(|known| known.port == port && known.host == *host)
    }

    /// The name of the host at a place, and its port.
    pub(crate) fn name_of(&self, place: usize) -> (&str, u16) {
        match self.known.get(place) {
            Some(known) => (
                str::from_utf8(known.host.as_slice()).unwrap_or("?"),
                known.port,
            ),
            None => ("?", 0),
        }
    }

    /// How many addresses the host at a place has.
    pub(crate) fn count_of(&self, place: usize) -> usize {
        match self.known.get(place) {
            Some(known) => known.addresses.len(),
            None => 0,
        }
    }

    /// Begins a connection with the host at a place, at the first of its addresses behind those that were tried at
    /// which that does not fail at once.
    pub(crate) fn begin<R: Net<Stream = TcpStream>>(
        &self,
        runtime: &R,
        place: usize,
        tried: usize,
    ) -> Result<Begun> {
        let mut last = Error::from(ErrorKind::NotFound);
        if let Some(known) = self.known.get(place) {
            let addresses = known.addresses.as_slice();
            for at in tried..addresses.len() {
                match begin_at(runtime, addresses[at]) {
                    Ok(stream) => {
                        return Ok(Begun {
                            stream,
                            address: addresses[at],
                            tried: at.saturating_add(1),
                        });
                    }
                    Err(error) => last = error,
                }
            }
        }
        Err(last)
    }
}

/// A socket that does not wait, whose connection with an address is begun.
fn begin_at<R: Net<Stream = TcpStream>>(runtime: &R, address: SocketAddr) -> Result<TcpStream> {
    let stream = TcpStream::from(mio::net::TcpStream::connect(runtime, address)?);
    stream.set_nodelay(true)?;
    Ok(stream)
}

/// The addresses that the system knows for a host's name.
fn addresses_of<R: Net>(
    runtime: &R,
    alloc: Global,
    host: &[u8],
    port: u16,
) -> Result<List<SocketAddr>> {
    let Ok(host) = str::from_utf8(host) else {
        return Err(Error::from(ErrorKind::InvalidInput));
    };
    let mut addresses = List::new(alloc);
    for address in (host, port).to_socket_addrs(runtime)? {
        if addresses.push(address).is_err() {
            return Err(no_memory());
        }
    }
    Ok(addresses)
}

/// That no memory could be had.
fn no_memory() -> Error {
    Error::from(ErrorKind::OutOfMemory)
}
