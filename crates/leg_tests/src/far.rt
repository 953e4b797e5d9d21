//! A wire with a target far away, whose calls fail or lack memory by their numbers. Its set has 1,000
//! records of one octet, of which each reply brings one. Its links tell no peer.

use bytes::BytesMut;
use gw_outside::{Dialled, Linked, Looked, Sent, Watched, Wire};
use std::alloc::Global;
use test_target::TestWorld;
use z_types::Address;

/// An Init that is accepted, with named result sets.
const INIT: &[u8] = b"\xb5\x29\x83\x02\x05\xe0\x84\x03\x01\xc1\x02\x85\x03\x10\x00\x00\
\x86\x03\x10\x00\x00\x8c\x01\xff\x9f\x6e\x02mp\x9f\x6f\x07gateway\x9f\x70\x011";

/// A Search that found 1,000 records.
const SEARCH: &[u8] = b"\xb7\x0d\x97\x02\x03\xe8\x98\x01\x00\x99\x01\x01\x96\x01\xff";

/// A Present of one record, `r`.
const PRESENT: &[u8] = b"\xb9\x29\x98\x01\x01\x99\x01\x02\x9b\x01\x04\xbc\x1e\x30\x1c\
\x80\x07Default\xa1\x11\xa1\x0f\x28\x0d\x06\x08\x2a\x86\x48\xce\x13\x05\x6d\x0a\x81\x01r";

/// A wire, the calls that were made of it, and the numbers of those that fail or lack memory, counted
/// from 1. It gives a link at every host, and none at a test target.
#[derive(Drop)]
pub(crate) struct FarWire {
    calls: u64,
    failing: u64,
    lacking: u64,
    faults: u64,
}

/// A link: the octets that arrived, and a 0 for each unit that was sent, whose reply comes at the next
/// look.
#[derive(Drop)]
pub(crate) struct FarLink {
    arrived: BytesMut<Global>,
    delays: Vec<u8>,
}

impl Linked for FarLink {
    ghost use Rattle.std.specs.Prelude.{None, false};

    ghost arrived = { λ link. link.arrived.items };

    ghost peer = { λ _. None };

    ghost number = { λ _. 0 };

    ghost delays = { λ link. link.delays.items };

    ghost exact = { false };
}

impl FarWire {
    ghost use Rattle.std.specs.Prelude.{◌≡◌};

    /// A wire whose calls of these numbers fail, and lack memory; 0 is none.
    pub(crate) fn new(failing: u64, lacking: u64) -> FarWire {
        FarWire {
            calls: 0,
            failing,
            lacking,
            faults: 0,
        }
    }

    /// Whether the next call fails.
    fn next_fails(&mut self) -> bool
        ensures { self.new.faults ≡ self.old.faults }
    {
        self.calls = self.calls.saturating_add(1);
        self.calls == self.failing
    }

    /// Whether this call lacks memory.
    fn lacks(&self) -> bool {
        self.calls == self.lacking
    }
}

/// The reply to the last of so many units of a link.
fn reply_to(sent: usize) -> &'static [u8] {
    match sent {
        1 => INIT,
        2 => SEARCH,
        _ => PRESENT,
    }
}

impl Watched for FarWire {
    ghost use Rattle.std.specs.Prelude.{false};
    ghost use Rattle.gw_outside.specs.Counts.{no_counts};
    ghost use Rattle.gw_outside.specs.Happened.{nothing_happens};

    ghost counts = { λ wire. record no_counts { faults = wire.faults } };

    ghost exact = { false };

    ghost happened = { λ _. record { steady = false; lent = 0; of_target = λ _. nothing_happens } };
}

impl Wire<TestWorld> for FarWire {
    type Link = FarLink;

    ghost exact_links = { λ e. e };

    fn dial(&mut self, alloc: Global, address: &Address) -> Dialled<FarLink> {
        let Address::Tcp(_, _) = address else {
            self.faults = self.faults.saturating_add(1);
            return Dialled::Failed;
        };
        if self.next_fails() {
            self.faults = self.faults.saturating_add(1);
            return Dialled::Failed;
        }
        if self.lacks() {
            return Dialled::Memory;
        }
        Dialled::Link(FarLink {
            arrived: BytesMut::new(alloc),
            delays: Vec::new(alloc),
        })
    }

    fn send(&mut self, _: Global, link: &mut FarLink, _: &[u8]) -> Sent {
        if self.next_fails() {
            self.faults = self.faults.saturating_add(1);
            return Sent::Failed;
        }
        if self.lacks() {
            return Sent::Memory;
        }
        match link.delays.push(0) {
            Ok(()) => Sent::Sent,
            Err(_) => Sent::Memory,
        }
    }

    fn look(&mut self, _: Global, link: &mut FarLink) -> Looked {
        if self.next_fails() {
            self.faults = self.faults.saturating_add(1);
            return Looked::Failed;
        }
        let reply = reply_to(link.delays.len());
        if self.lacks() || reply.is_empty() {
            return Looked::Memory;
        }
        match link.arrived.extend_from_slice(reply) {
            Ok(()) => Looked::Arrived,
            Err(_) => Looked::Memory,
        }
    }

    fn arrived<'a>(&self, link: &'a FarLink) -> &'a [u8] {
        link.arrived.as_slice()
    }

    fn consume(&mut self, link: &mut FarLink, count: usize) {
        link.arrived.advance(count);
    }
}
