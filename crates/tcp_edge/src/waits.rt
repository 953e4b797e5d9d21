//! Waiting for sockets.

use libc::net::{POLLIN, poll};
use libc::types::pollfd;
use std::net::TcpStream;
use std::os::fd::AsRawFd;

/// How many sockets are awaited at once, at most: a request has so many legs.
const MOST: usize = 16;

/// In the place of a socket where there is none: the system passes over it (poll(2)).
const NONE: i32 = -1;

/// The sockets of which looks found nothing since the last wait. Looks go round the links of a request, so
/// a wait is for all of them at once: as long as one link is slow, no other adds a wait of its own.
#[derive(Clone, Copy)]
pub(crate) struct Awaited {
    sockets: [i32; MOST],
}

impl Awaited {
    /// None yet.
    pub(crate) fn new() -> Awaited {
        Awaited {
            sockets: [NONE; MOST],
        }
    }

    /// Whether a socket may have octets, an end or an error to give. Where looks have come round to it, or
    /// none is awaited, it waits until one of them has, at most so many milliseconds. Where others are
    /// awaited and this one is not, and has nothing yet, it is awaited from now on, and nothing waits.
    pub(crate) fn may_give(&mut self, stream: &TcpStream, milliseconds: i32) -> bool {
        let socket = stream.as_raw_fd();
        if self.awaits_others(socket) {
            if gives(&alone(socket), socket, 0) {
                return true;
            }
            if self.replace(NONE, socket) {
                return false;
            }
        }
        self.replace(NONE, socket);
        let given = gives(&self.sockets, socket, milliseconds);
        if given {
            self.replace(socket, NONE);
        } else {
            self.sockets = alone(socket);
        }
        given
    }

    /// Whether others are awaited and this one is not.
    fn awaits_others(&self, socket: i32) -> bool {
        let mut others = false;
        for place in &self.sockets {
            if *place == socket {
                return false;
            }
            others = others || *place != NONE;
        }
        others
    }

    /// Puts a socket in the first place of another, and answers whether there was one.
    fn replace(&mut self, old: i32, new: i32) -> bool {
        for place in &mut self.sockets {
            if *place == old {
                *place = new;
                return true;
            }
        }
        false
    }
}

/// Whether a socket has octets, an end or an error to give now.
pub(crate) fn may_give(stream: &TcpStream) -> bool {
    let socket = stream.as_raw_fd();
    gives(&alone(socket), socket, 0)
}

/// One socket.
fn alone(socket: i32) -> [i32; MOST] {
    let mut sockets = [NONE; MOST];
    sockets[0] = socket;
    sockets
}

/// What is asked of a socket: whether it may be read.
fn asked(socket: i32) -> pollfd {
    pollfd {
        fd: socket,
        events: POLLIN,
        revents: 0,
    }
}

/// Waits until one of these sockets has octets, an end or an error to give, at most so many milliseconds,
/// and tells whether one among them has. A timeout of a socket's own is rounded up to the ticks of the
/// system.
fn gives(sockets: &[i32; MOST], socket: i32, milliseconds: i32) -> bool {
    let mut all = sockets.map(asked);
    let _ = poll(&mut all, milliseconds);
    for one in &all {
        if one.fd == socket && one.revents != 0 {
            return true;
        }
    }
    false
}
