//! What a backend counts beside its wire.

ghost use Rattle.std.specs.Prelude.{◌≡◌, ◌≤◌, true};
ghost use Rattle.gw_outside.specs.Counts.{nothing};
ghost use Rattle.gw_outside.specs.Sessions.{start_counted};
ghost use Rattle.z_client.specs.Counts.{own_after, after_breach};

use gw_outside::Began;
use z_types::Ask;

/// What a backend counts itself. Each count stands still at the last value of 64 bits.
#[derive(Clone, Copy)]
pub struct Own {
    /// How many looks found a breach.
    pub breaches: u64,
    /// How many links were made.
    pub dials: u64,
    /// How many searches were begun.
    pub searches: u64,
    /// How many looks heard that a result set is gone.
    pub gones: u64,
}

impl Own {
    /// All counts at 0.
    pub fn zero() -> Own
        ensures { result ≡ record { breaches = 0; dials = 0; searches = 0; gones = 0 } }
    {
        Own {
            breaches: 0,
            dials: 0,
            searches: 0,
            gones: 0,
        }
    }

    /// Counts a breach.
    pub(crate) fn count_breach(&mut self)
        ensures breach { self.new ≡ after_breach self.old }
        ensures rises { self.old.breaches ≤ self.new.breaches }
    {
        self.breaches = self.breaches.saturating_add(1);
    }

    /// Counts a link.
    pub(crate) fn count_dial(&mut self)
        ensures { self.new ≡ own_after (record nothing { dial = true }) self.old }
    {
        self.dials = self.dials.saturating_add(1);
    }

    /// Counts an ask that was begun where it is a search.
    pub(crate) fn count_ask(&mut self, ask: &Ask, began: Began)
        ensures { self.new ≡ own_after (start_counted ask.now began) self.old }
    {
        match (began, ask) {
            (Began::Started, Ask::Search { .. }) => {
                self.searches = self.searches.saturating_add(1);
            }
            _ => {}
        }
    }

    /// Counts a result set that is gone.
    pub(crate) fn count_gone(&mut self)
        ensures { self.new ≡ own_after (record nothing { gone = true }) self.old }
    {
        self.gones = self.gones.saturating_add(1);
    }
}
