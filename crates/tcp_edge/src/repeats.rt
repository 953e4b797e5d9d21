//! Lines of the log that may come often, and those that come once a minute.

use std::fmt;
use std::sync::atomic::{AtomicU64, Ordering};

/// How often something came since it was logged last, which is done once a second at most by all that share
/// this.
#[derive(Drop)]
pub(crate) struct Repeats {
    logged: AtomicU64,
    times: AtomicU64,
}

/// How often something came, as a line of the log says it: nothing where it was once.
#[derive(Clone, Copy, Debug, PartialEq, Eq)]
pub(crate) struct Times(pub u64);

impl Repeats {
    /// It did not come yet.
    pub(crate) fn new() -> Repeats {
        Repeats {
            logged: AtomicU64::new(0),
            times: AtomicU64::new(0),
        }
    }

    /// It came once more, in this second: how often it did since it was logged last, where it is to be logged
    /// now.
    pub(crate) fn count(&self, second: u64) -> Option<Times> {
        self.times.fetch_add(1, Ordering::SeqCst);
        let now = second.saturating_add(1);
        let logged = self.logged.load(Ordering::SeqCst);
        if logged == now {
            return None;
        }
        match self
            .logged
            .compare_exchange(logged, now, Ordering::SeqCst, Ordering::SeqCst)
        {
            Ok(_) => Some(Times(self.times.swap(0, Ordering::SeqCst))),
            Err(_) => None,
        }
    }
}

/// The seconds in a minute.
const MINUTE: u64 = 60;

/// The last minute in which something was done, by all that share this; 0 before the first.
#[derive(Drop)]
pub(crate) struct Minutes {
    last: AtomicU64,
}

impl Minutes {
    /// Nothing was done yet.
    pub(crate) fn new() -> Minutes {
        Minutes {
            last: AtomicU64::new(0),
        }
    }

    /// Something is done in this second: whether it is the first of its minute, and of a later minute than
    /// what was done before.
    pub(crate) fn begins(&self, second: u64) -> bool {
        let minute = (second / MINUTE).saturating_add(1);
        let last = self.last.fetch_max(minute, Ordering::SeqCst);
        0 < last && last < minute
    }
}

impl fmt::Display for Times {
    fn fmt<W: fmt::Write>(&self, f: &mut fmt::Formatter<W>) -> fmt::Result {
        if self.0 > 1 {
            write!(f, ", {} times", self.0)
        } else {
            Ok(())
        }
    }
}
