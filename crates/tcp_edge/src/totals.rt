//! What all workers of a server did so far, for the log. Its counts are shared, and no clause speaks of them.

ghost use Rattle.std.specs.Prelude.{◌<◌};

use crate::repeats::{Minutes, Repeats, Times};
use log::{Log, error, info};
use std::alloc::Global;
use std::fmt;
use std::io::Error;
use std::net::SocketAddr;
use std::sync::atomic::{AtomicU64, Ordering};
use z_types::{List, Mark, Memory, Text};

/// What all workers of a server did so far: the connections and the requests of clients, and what targets
/// at hosts were asked.
#[derive(Drop)]
pub struct Totals {
    accepted: Count,
    ended: Count,
    marked: [Count; KINDS],
    cached: Count,
    told: Count,
    minutes: Minutes,
    refused: Repeats,
    lost: Repeats,
    targets: List<TargetTotals>,
}

/// What a target at a host was asked.
#[derive(Drop)]
pub(crate) struct TargetTotals {
    name: Text,
    host: Text,
    port: u16,
    dials: Count,
    searches: Count,
    faults: Count,
    told: Count,
    unmade: Repeats,
    failed: Repeats,
}

/// How many kinds of marks there are: Plain, Link, Silent, Gone and Full.
const KINDS: usize = 5;

/// The first octet of a Search: 22, of the standard's tags, and constructed (ANSI/NISO Z39.50-2003, 4.1).
const SEARCH: u8 = 0xb6;

/// A count that several threads raise.
#[derive(Drop)]
struct Count {
    value: AtomicU64,
}

impl Count {
    /// Nothing was counted yet.
    fn new() -> Count {
        Count {
            value: AtomicU64::new(0),
        }
    }

    /// One more: the count with it.
    fn raise(&self) -> u64 {
        self.value.fetch_add(1, Ordering::SeqCst).saturating_add(1)
    }

    /// So many more.
    fn add(&self, more: u64) {
        self.value.fetch_add(more, Ordering::SeqCst);
    }

    /// The count.
    fn get(&self) -> u64 {
        self.value.load(Ordering::SeqCst)
    }

    /// Puts a value in its place, and answers whether it was another.
    fn replace(&self, value: u64) -> bool {
        self.value.swap(value, Ordering::SeqCst) != value
    }
}

impl Totals {
    /// Nothing was done yet, and no target is known.
    pub fn new(alloc: Global) -> Totals {
        Totals {
            accepted: Count::new(),
            ended: Count::new(),
            marked: [
                Count::new(),
                Count::new(),
                Count::new(),
                Count::new(),
                Count::new(),
            ],
            cached: Count::new(),
            told: Count::new(),
            minutes: Minutes::new(),
            refused: Repeats::new(),
            lost: Repeats::new(),
            targets: List::new(alloc),
        }
    }

    /// Counts what a target at a host is asked from now on, under its name.
    pub fn add_target(&mut self, name: Text, host: Text, port: u16) -> Result<(), Memory> {
        self.targets.push(TargetTotals {
            name,
            host,
            port,
            dials: Count::new(),
            searches: Count::new(),
            faults: Count::new(),
            told: Count::new(),
            unmade: Repeats::new(),
            failed: Repeats::new(),
        })
    }

    /// What targets at hosts were asked.
    fn targets(&self) -> &[TargetTotals] {
        self.targets.as_slice()
    }

    /// Logs what rose since it was logged last.
    pub fn tell<L: Log>(&self, log: &L) {
        if self.has_news() {
            info!(log; "{self}");
        }
        for target in self.targets() {
            if target.has_news() {
                info!(log; "{target}");
            }
        }
    }

    /// Logs it where this second, in which something was done, is the first such of its minute.
    pub fn tell_due<L: Log>(&self, log: &L, second: u64) {
        if self.minutes.begins(second) {
            self.tell(log);
        }
    }

    /// Whether something was done since this was asked last.
    fn has_news(&self) -> bool {
        let mut sum = self.accepted.get().saturating_add(self.ended.get());
        for count in &self.marked {
            sum = sum.saturating_add(count.get());
        }
        self.told.replace(sum)
    }

    /// A connection was accepted: its number.
    pub fn count_accepted(&self) -> u64 {
        self.accepted.raise()
    }

    /// A connection has ended, whose requests were answered under these marks, and so many Presents by records
    /// that were kept.
    pub fn count_ended(&self, marks: &[Mark], cached: u64) {
        self.ended.raise();
        self.cached.add(cached);
        for mark in marks {
            self.marked[kind_of(mark)].raise();
        }
    }

    /// Logs an accept that failed in this second: once a second at most, unless it is the last.
    pub fn tell_refused<L: Log>(&self, log: &L, error: &Error, passes: bool, second: u64) {
        let counted = self.refused.count(second);
        if let Some(times) = counted.or(if passes { None } else { Some(Times(1)) }) {
            error!(log; "accept failed: {error}{times}");
        }
    }

    /// Counts a connection that was lost before it could be served, and logs it, once a second at most.
    pub fn tell_lost<L: Log>(
        &self,
        log: &L,
        number: u64,
        peer: SocketAddr,
        error: &Error,
        second: u64,
    ) {
        self.count_ended(&[], 0);
        if let Some(times) = self.lost.count(second) {
            error!(log; "connection {number} from {peer} was lost: {error}{times}");
        }
    }

    /// The place of a target, where it is known.
    pub(crate) fn place_of(&self, host: &Text, port: u16) -> Option<usize> {
        self.targets()
            .iter()
            .position(|target| target.port == port && target.host == *host)
    }

    /// What the target at a place was asked.
    pub(crate) fn target(&self, place: Option<usize>) -> Option<&TargetTotals> {
        self.targets.get(place?)
    }
}

impl TargetTotals {
    /// Whether something was asked since this was called last.
    fn has_news(&self) -> bool {
        let asked = self.dials.get().saturating_add(self.searches.get());
        self.told.replace(asked.saturating_add(self.faults.get()))
    }

    /// A link was made.
    pub(crate) fn count_dial(&self) {
        self.dials.raise();
    }

    /// It could not be dialled, in this second: how often since it was logged last, where that is to be done.
    pub(crate) fn count_unmade(&self, second: u64) -> Option<Times> {
        self.faults.raise();
        self.unmade.count(second)
    }

    /// A link with it failed, in this second: how often since it was logged last, where that is to be done.
    pub(crate) fn count_failed(&self, second: u64) -> Option<Times> {
        self.faults.raise();
        self.failed.count(second)
    }

    /// A unit was sent.
    pub(crate) fn count_unit(&self, unit: &[u8]) {
        if unit.first() == Some(&SEARCH) {
            self.searches.raise();
        }
    }
}

impl fmt::Display for Totals {
    fn fmt<W: fmt::Write>(&self, f: &mut fmt::Formatter<W>) -> fmt::Result {
        let served = self.ended.get();
        let open = self.accepted.get().saturating_sub(served);
        let [plain, link, silent, gone, full] = &self.marked;
        write!(
            f,
            "totals: {open} connections open, {served} served, requests {} Plain, {} Link, \
             {} Silent, {} Gone, {} Full",
            plain.get(),
            link.get(),
            silent.get(),
            gone.get(),
            full.get(),
        )?;
        match self.cached.get() {
            0 => Ok(()),
            cached => write!(f, ", {cached} from the cache"),
        }
    }
}

impl fmt::Display for TargetTotals {
    fn fmt<W: fmt::Write>(&self, f: &mut fmt::Formatter<W>) -> fmt::Result {
        let (dials, searches, faults) = (self.dials.get(), self.searches.get(), self.faults.get());
        let name = std::str::from_utf8(self.name.as_slice()).unwrap_or("?");
        write!(
            f,
            "totals of target {name}: {dials} dials, {searches} searches, {faults} faults"
        )
    }
}

/// The place of a mark's kind.
fn kind_of(mark: &Mark) -> usize
    ensures { result < 5 }
{
    match mark {
        Mark::Plain => 0,
        Mark::Link => 1,
        Mark::Silent(_) => 2,
        Mark::Gone => 3,
        Mark::Full(_) => 4,
    }
}
