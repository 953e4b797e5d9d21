//! The listener of a port.

use log::{Log, error};
use route_config::Route;
use serve_top::ServeWords;
use std::io::Result;
use std::net::{IpAddr, Net, SocketAddr, TcpListener, TcpStream};

/// A listener at an address of this machine and the port that is asked for, or nothing where the system
/// refuses it. The standard error is told which, and of an address that is not loopback, where the route has
/// no rules, that nothing says which clients of other machines may search.
pub(crate) fn listen<R: Net<Listener = TcpListener, Stream = TcpStream> + Eprint, L: Log>(
    runtime: &R,
    log: &L,
    address: IpAddr,
    asked: ServeWords,
    route: &Route,
) -> Option<TcpListener> {
    let (port, workers) = (asked.port, asked.workers);
    match bind(runtime, address, port) {
        Ok(listener) => {
            let _ = eprintln!(runtime;
                "listening on {address}, port {port}, with {workers} workers"
            );
            tell_strangers(runtime, address, route);
            Some(listener)
        }
        Err(error) => {
            error!(log; "cannot listen on {address}, port {port}: {error}");
            None
        }
    }
}

/// Tells of an address that is not loopback, where the route has no rules, that nothing says which clients of
/// other machines may search.
pub(crate) fn tell_strangers<R: Eprint>(runtime: &R, address: IpAddr, route: &Route) {
    if !address.is_loopback() && route.parts().rules.is_empty() {
        let _ = eprintln!(runtime;
            "clients of other machines may connect, and no rules say who may search"
        );
    }
}

/// A listener at an address and a port.
fn bind<R: Net<Listener = TcpListener, Stream = TcpStream>>(
    runtime: &R,
    address: IpAddr,
    port: u32,
) -> Result<TcpListener> {
    let port = u16::try_from(port).unwrap_or(u16::MAX);
    TcpListener::bind(runtime, SocketAddr::from((address, port)))
}
