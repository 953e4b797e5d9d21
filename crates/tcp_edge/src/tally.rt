//! What a wire to hosts counts.

ghost use Rattle.std.specs.Prelude.{◌≡◌, ◌≤◌, false, true, List, ℕ, Option};
ghost use Rattle.z_types.specs.Counts.{one_more};
ghost use Rattle.gw_outside.specs.Counts.{WireCounts, no_counts};
ghost use Rattle.gw_outside.specs.Peers.{Peer};
ghost use Rattle.gw_outside.specs.Wires.{SendCounts, look_counted};
ghost use Rattle.tcp_edge.specs.Wires.{counts_in};

use gw_outside::{Looked, Sent};

/// The counts of a wire. Each stands still at the last value of 64 bits.
#[derive(Clone, Copy, PartialEq, Eq, Debug)]
pub struct Tally {
    /// Links that were made.
    pub dials: u64,
    /// Calls that failed.
    pub faults: u64,
    /// Looks that found nothing.
    pub waits: u64,
}

impl Tally {
    /// Nothing was counted yet.
    pub(crate) fn new() -> Tally
        ensures { counts_in result ≡ no_counts }
    {
        Tally {
            dials: 0,
            faults: 0,
            waits: 0,
        }
    }

    /// One link more.
    pub(crate) fn count_dial(&mut self)
        ensures { self.new ≡ record self.old { dials = one_more true self.old.dials } }
    {
        self.dials = self.dials.saturating_add(1);
    }

    /// One fault more.
    pub(crate) fn count_fault(&mut self)
        ensures counted { self.new ≡ record self.old { faults = one_more true self.old.faults } }
        ensures rising { self.old.faults ≤ self.new.faults }
    {
        self.faults = self.faults.saturating_add(1);
    }

    /// A send, which may have failed.
    pub(crate) fn count_send(&mut self, sent: Sent)
        ensures { (unit : List ℕ) → SendCounts false unit sent
            (counts_in self.old) (counts_in self.new) }
    {
        if sent == Sent::Failed {
            self.count_fault();
        }
    }

    /// A look, which may have failed or found nothing.
    pub(crate) fn count_look(&mut self, looked: Looked)
        ensures { (peer : Option Peer) → WireCounts false (look_counted peer looked)
            (counts_in self.old) (counts_in self.new) }
    {
        match looked {
            Looked::NotYet => self.waits = self.waits.saturating_add(1),
            Looked::Failed => self.count_fault(),
            Looked::Arrived | Looked::Memory => {}
        }
    }
}
