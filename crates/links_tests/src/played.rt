//! A wire that plays what a target far away sends, whatever is asked of it. Its links tell no peer.

ghost use Rattle.std.specs.Prelude.{◌≡◌, true};
ghost use Rattle.z_types.specs.Counts.{one_more};

use crate::octets::put_digits;
use bytes::BytesMut;
use gw_outside::{Dialled, Events, Linked, Looked, Sent, Watched, Wire};
use std::alloc::Global;
use test_target::TestWorld;
use z_types::{Address, Memory, Text};

/// A wire whose looks find what is played, in its order, whichever link is looked at, and then nothing.
/// It gives a link at every host, and none at a test target, and keeps all that was sent.
#[derive(Drop)]
pub(crate) struct PlayedWire {
    finds: Vec<Text>,
    sent: Text,
    is_cut: bool,
    faults: u64,
    waits: u64,
}

/// A link with a target that is played: the octets that arrived, and a 0 for each unit that was sent,
/// whose reply is to come after no look in vain.
#[derive(Drop)]
pub(crate) struct PlayedLink {
    arrived: BytesMut<Global>,
    delays: Vec<u8>,
}

impl Linked for PlayedLink {
    ghost use Rattle.std.specs.Prelude.{None, false};

    ghost arrived = { λ link. link.arrived.items };

    ghost peer = { λ _. None };

    ghost number = { λ _. 0 };

    ghost delays = { λ link. link.delays.items };

    ghost exact = { false };
}

impl PlayedWire {
    /// A wire whose looks find nothing yet.
    pub(crate) fn new(alloc: Global) -> PlayedWire {
        PlayedWire {
            finds: Vec::new(alloc),
            sent: Text::new(alloc),
            is_cut: false,
            faults: 0,
            waits: 0,
        }
    }

    /// Octets arrive at one look. Where there are none, the look finds nothing.
    pub(crate) fn bring(&mut self, alloc: Global, octets: &[u8]) -> Result<(), Memory> {
        self.finds.push(Text::copy_of(alloc, octets)?)?;
        Ok(())
    }

    /// Octets arrive in pieces of this size, at least 1, with a look that finds nothing between two.
    pub(crate) fn bring_pieces(
        &mut self,
        alloc: Global,
        octets: &[u8],
        size: usize,
    ) -> Result<(), Memory> {
        let mut is_first = true;
        for piece in octets.chunks(size.max(1)) {
            if !is_first {
                self.bring(alloc, &[])?;
            }
            self.bring(alloc, piece)?;
            is_first = false;
        }
        Ok(())
    }

    /// The units that were sent, over whichever link, in hexadecimal digits and with a space behind each.
    pub(crate) fn sent(&self) -> &Text {
        &self.sent
    }

    /// What the next look finds, where it is played.
    fn next_find(&mut self) -> Option<Text>
        ensures faults { self.new.faults ≡ self.old.faults }
        ensures waits { self.new.waits ≡ self.old.waits }
    {
        if self.finds.is_empty() {
            return None;
        }
        Some(self.finds.remove(0))
    }

    /// Keeps a unit that is sent.
    fn keep(&mut self, alloc: Global, unit: &[u8]) -> Result<(), Memory>
        ensures faults { self.new.faults ≡ self.old.faults }
        ensures waits { self.new.waits ≡ self.old.waits }
    {
        put_digits(alloc, &mut self.sent, unit)?;
        self.sent.push(b' ')
    }

    /// A look that finds nothing is counted.
    fn nothing(&mut self) -> Looked
        ensures found { result ≡ Looked.NotYet }
        ensures faults { self.new.faults ≡ self.old.faults }
        ensures waits { self.new.waits ≡ one_more true self.old.waits }
    {
        self.waits = self.waits.saturating_add(1);
        Looked::NotYet
    }
}

impl Watched for PlayedWire {
    ghost use Rattle.std.specs.Prelude.{false};
    ghost use Rattle.gw_outside.specs.Counts.{no_counts};
    ghost use Rattle.gw_outside.specs.Happened.{nothing_happens};

    ghost counts = { λ wire. record no_counts { faults = wire.faults; waits = wire.waits } };

    ghost exact = { false };

    ghost happened = { λ _. record { steady = false; lent = 0; of_target = λ _. nothing_happens } };
}

impl Wire<TestWorld> for PlayedWire {
    type Link = PlayedLink;

    ghost exact_links = { λ e. e };

    fn dial(&mut self, alloc: Global, address: &Address) -> Dialled<PlayedLink> {
        let Address::Tcp(_, _) = address else {
            self.faults = self.faults.saturating_add(1);
            return Dialled::Failed;
        };
        Dialled::Link(PlayedLink {
            arrived: BytesMut::new(alloc),
            delays: Vec::new(alloc),
        })
    }

    fn send(&mut self, alloc: Global, link: &mut PlayedLink, unit: &[u8]) -> Sent {
        if self.is_cut {
            self.faults = self.faults.saturating_add(1);
            return Sent::Failed;
        }
        let Ok(()) = self.keep(alloc, unit) else {
            return Sent::Memory;
        };
        match link.delays.push(0) {
            Ok(()) => Sent::Sent,
            Err(_) => Sent::Memory,
        }
    }

    fn look(&mut self, _: Global, link: &mut PlayedLink) -> Looked {
        match self.next_find() {
            Some(octets) => {
                if octets.is_empty() {
                    return self.nothing();
                }
                match link.arrived.extend_from_slice(octets.as_slice()) {
                    Ok(()) => Looked::Arrived,
                    Err(_) => Looked::Memory,
                }
            }
            None => {
                if !self.is_cut {
                    return self.nothing();
                }
                self.faults = self.faults.saturating_add(1);
                Looked::Failed
            }
        }
    }

    fn arrived<'a>(&self, link: &'a PlayedLink) -> &'a [u8] {
        link.arrived.as_slice()
    }

    fn consume(&mut self, link: &mut PlayedLink, count: usize) {
        link.arrived.advance(count);
    }
}

impl Events for PlayedWire {
    /// Nothing can be made gone: what is played arrives.
    fn gone(&mut self, _: u32, _: u32) -> Result<(), Memory> {
        Err(Memory)
    }

    /// What is played still arrives, and then the link is found cut; nothing can be sent any more.
    fn cut(&mut self, _: u32) -> Result<(), Memory> {
        self.is_cut = true;
        Ok(())
    }

    /// No reply can be made late: what is played says which looks find nothing.
    fn slow(&mut self, _: u32, _: u32) -> Result<(), Memory> {
        Err(Memory)
    }
}
