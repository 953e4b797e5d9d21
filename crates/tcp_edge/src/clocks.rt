//! The clock of the system.

ghost use Rattle.std.specs.Prelude.{◌≡◌};

use gw_outside::Clock;
use std::time;

/// The seconds since some start of the system's own, which go on evenly however its time of day is set.
/// Where they cannot be read it gives 0, and counts a fault.
#[derive(Drop)]
pub struct SystemClock<'a, R: time::Clock> {
    runtime: &'a R,
    faults: u64,
}

impl<'a, R: time::Clock> SystemClock<'a, R> {
    /// The clock of this runtime, which has not failed yet.
    pub fn new(runtime: &'a R) -> SystemClock<'a, R>
        ensures { result.faults ≡ 0 }
    {
        SystemClock { runtime, faults: 0 }
    }

    /// How often it could not be read.
    pub fn faults(&self) -> u64
        ensures { result ≡ self.now.faults }
    {
        self.faults
    }
}

/// The seconds of the system's clock.
pub(crate) fn seconds<R: time::Clock>(runtime: &R) -> u64 {
    let mut clock = SystemClock::new(runtime);
    clock.now()
}

/// The milliseconds of the system's clock. Where they cannot be read it gives 0.
pub fn milliseconds<R: time::Clock>(runtime: &R) -> u64 {
    match runtime.monotonic() {
        Ok(since) => u64::try_from(since.as_millis()).unwrap_or(u64::MAX),
        Err(_) => 0,
    }
}

impl<R: time::Clock> Clock for SystemClock<'_, R> {
    fn now(&mut self) -> u64 {
        match self.runtime.monotonic() {
            Ok(since) => since.as_secs(),
            Err(_) => {
                self.faults = self.faults.saturating_add(1);
                0
            }
        }
    }
}
