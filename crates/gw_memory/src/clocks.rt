//! A clock in memory.

ghost use Rattle.std.specs.Prelude.{◌≡◌};
ghost use Rattle.planned_calls.specs.Calls.{next_call};
ghost use Rattle.gw_memory.specs.Moments.{moment_after};

use gw_outside::Clock;
use z_types::List;

/// A clock of stated moments.
#[derive(Drop)]
pub struct MemoryClock {
    moments: List<u64>,
    given: usize,
}

impl MemoryClock {
    /// A clock that gives these moments in order, and the last again behind them; without any it gives 0.
    pub fn new(moments: List<u64>) -> MemoryClock
        ensures { result ≡ record { moments = moments; given = 0 } }
    {
        MemoryClock { moments, given: 0 }
    }
}

impl Clock for MemoryClock {
    fn now(&mut self) -> u64
        ensures given { result ≡ moment_after self.old.moments self.old.given }
        ensures counted { self.new ≡ record self.old { given = next_call self.old.given } }
    {
        let last = self.moments.len().saturating_sub(1);
        let place = self.given.min(last);
        self.given = self.given.saturating_add(1);
        self.moments.get(place).copied().unwrap_or(0)
    }
}
