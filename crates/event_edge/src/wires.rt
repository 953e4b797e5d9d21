//! Links with targets, of which a wait is told when something has come over them.

ghost use Rattle.std.specs.Prelude.{◌≡◌};
ghost use Rattle.tcp_edge.specs.Links.{arrived_at, peer_at, number_of, delays_at};

use crate::Readiness;
use crate::tokens::Registered;
use gw_outside::{Dialled, Looked, Sent, Watched, Wire};
use log::Log;
use mio::unix::SourceFd;
use mio::{Interest, Registry};
use std::alloc::Global;
use std::io::Result;
use std::net::{Net, TcpStream};
use std::time;
use tcp_edge::{EdgeLink, EdgeWire, Watch};
use test_target::TestWorld;
use z_types::Address;

/// A wire no call of which waits, whose sockets to targets are registered with the front's poll, each for the
/// connection that asks there. A socket that is closed leaves the poll by itself.
#[derive(Drop)]
pub struct EventWire<'a, R: Net + time::Clock, L: Log> {
    wire: EdgeWire<'a, R, L>,
    readiness: &'a Readiness,
    registry: Option<Registry>,
}

impl<'a, R: Net<Stream = TcpStream> + time::Clock, L: Log> EventWire<'a, R, L> {
    /// Over another wire, without links yet. Without a registry no wait is told of targets, and they are looked at
    /// again every 20 milliseconds.
    pub fn new(
        wire: EdgeWire<'a, R, L>,
        readiness: &'a Readiness,
        registry: Option<Registry>,
    ) -> EventWire<'a, R, L> {
        EventWire {
            wire,
            readiness,
            registry,
        }
    }

    /// A wait is told from now on when something comes over a link, for the connection that is polled.
    fn watch(&self, link: &mut EdgeLink)
        ensures arrived { arrived_at link.new ≡ arrived_at link.old }
        ensures peer { peer_at link.new ≡ peer_at link.old }
        ensures number { number_of link.new ≡ number_of link.old }
        ensures delays { delays_at link.new ≡ delays_at link.old }
    {
        if let Some((before, watch)) = link.watch_for(self.readiness.polled())
            && let Some(registry) = &self.registry
        {
            let _ = register(registry, before, watch);
        }
    }
}

/// Registers a socket as it is to be watched: anew, where another descriptor was watched before.
fn register(registry: &Registry, before: Option<Watch>, watch: Watch) -> Result<()> {
    let mut source = SourceFd(&watch.descriptor);
    let token = Registered::Target(watch.place).token();
    let interest = if watch.room {
        Interest::READABLE | Interest::WRITABLE
    } else {
        Interest::READABLE
    };
    match before {
        Some(before) if before.descriptor == watch.descriptor => {
            registry.reregister(&mut source, token, interest)
        }
        _ => registry.register(&mut source, token, interest),
    }
}

impl<'a, R: Net + time::Clock, L: Log> Watched for EventWire<'a, R, L> {
    ghost use Rattle.std.specs.Prelude.{false};

    ghost counts = { λ own. ⟦<EdgeWire<'a, R, L> as Watched>⟧.counts own.wire };

    ghost exact = { false };

    ghost happened = { λ own. ⟦<EdgeWire<'a, R, L> as Watched>⟧.happened own.wire };
}

impl<R: Net<Stream = TcpStream> + time::Clock, L: Log> Wire<TestWorld> for EventWire<'_, R, L> {
    type Link = EdgeLink;

    fn dial(&mut self, alloc: Global, address: &Address) -> Dialled<EdgeLink> {
        self.wire.dial(alloc, address)
    }

    fn send(&mut self, alloc: Global, link: &mut EdgeLink, unit: &[u8]) -> Sent {
        let sent = self.wire.send(alloc, link, unit);
        self.watch(link);
        sent
    }

    fn look(&mut self, alloc: Global, link: &mut EdgeLink) -> Looked {
        let looked = self.wire.look(alloc, link);
        if looked == Looked::NotYet {
            self.watch(link);
            self.readiness.target_had_none();
        }
        looked
    }

    fn arrived<'a>(&self, link: &'a EdgeLink) -> &'a [u8] {
        self.wire.arrived(link)
    }

    fn consume(&mut self, link: &mut EdgeLink, count: usize) {
        self.wire.consume(link, count);
    }

    ghost exact_links = { λ e. e };
}
