//! Which sockets may have something, as the last waits told. A source, a sink and the acceptor look here before
//! they ask the system, so a look at a socket to which nothing has happened costs no call of it.

use std::alloc::Global;
use std::sync::atomic::{AtomicBool, AtomicU64, AtomicUsize, Ordering};
use z_types::Memory;

/// How long a client may send nothing: 15 minutes.
const SILENT_MILLISECONDS: u64 = 900_000;

/// How long a client may take nothing of what is written.
const STALLED_MILLISECONDS: u64 = 60_000;

/// How long a target is not looked at again of which nothing is told.
const TARGET_MILLISECONDS: u64 = 20;

/// In the place of a moment where nothing is awaited.
const NEVER: u64 = u64::MAX;

/// Which sockets may have something: of each connection, by its place, with what it awaits of targets; and of the
/// listener. It knows the millisecond, and for which connection targets are asked.
#[derive(Drop)]
pub struct Readiness {
    places: Vec<Place>,
    listener: AtomicBool,
    polled: AtomicUsize,
    now: AtomicU64,
}

/// What is known of a connection.
#[derive(Drop)]
struct Place {
    is_taken: AtomicBool,
    reading: Direction,
    writing: Direction,
    targets: Targets,
}

/// What is known of one direction of a connection: whether it may have something, and since when its client is
/// awaited in vain.
#[derive(Drop)]
struct Direction {
    is_ready: AtomicBool,
    since: AtomicU64,
}

/// What is known of the targets that a connection awaits: whether one of them was told of since it was asked last,
/// and when they are looked at again at the latest.
#[derive(Drop)]
struct Targets {
    are_told: AtomicBool,
    due: AtomicU64,
}

impl Direction {
    /// It may have something.
    fn new() -> Direction {
        Direction {
            is_ready: AtomicBool::new(true),
            since: AtomicU64::new(NEVER),
        }
    }

    /// It may have something, and nothing is awaited.
    fn begin(&self) {
        self.tell();
        self.stop();
    }

    /// It may have something.
    fn tell(&self) {
        self.is_ready.store(true, Ordering::SeqCst);
    }

    /// Nothing is awaited of it.
    fn stop(&self) {
        self.since.store(NEVER, Ordering::SeqCst);
    }

    /// Whether it may have something, as far as is known.
    fn is_ready(&self) -> bool {
        self.is_ready.load(Ordering::SeqCst)
    }

    /// Whether it has been awaited for so long.
    fn is_late(&self, now: u64, most: u64) -> bool {
        now.saturating_sub(self.since.load(Ordering::SeqCst)) >= most
    }

    /// It had nothing, and is awaited, from now on if it was not.
    fn await_on(&self, now: u64) {
        self.is_ready.store(false, Ordering::SeqCst);
        if self.since.load(Ordering::SeqCst) == NEVER {
            self.since.store(now, Ordering::SeqCst);
        }
    }
}

impl Targets {
    /// None is awaited.
    fn new() -> Targets {
        Targets {
            are_told: AtomicBool::new(false),
            due: AtomicU64::new(NEVER),
        }
    }

    /// None is awaited.
    fn begin(&self) {
        self.are_told.store(false, Ordering::SeqCst);
        self.due.store(NEVER, Ordering::SeqCst);
    }

    /// Whether a look may find something, or is due: then none is awaited from now on. It is due also where no
    /// look was in vain.
    fn take(&self, now: u64) -> bool {
        let are_told = self.are_told.load(Ordering::SeqCst);
        let due = self.due.load(Ordering::SeqCst);
        if due == NEVER {
            return true;
        }
        if !are_told && now < due {
            return false;
        }
        self.begin();
        true
    }
}

impl Readiness {
    /// For so many connections at a time.
    pub fn new(alloc: Global, most: usize) -> Result<Readiness, Memory> {
        let mut places = Vec::new(alloc);
        for _ in 0..most {
            places.push(Place {
                is_taken: AtomicBool::new(false),
                reading: Direction::new(),
                writing: Direction::new(),
                targets: Targets::new(),
            })?;
        }
        Ok(Readiness {
            places,
            listener: AtomicBool::new(true),
            polled: AtomicUsize::new(0),
            now: AtomicU64::new(0),
        })
    }

    /// What is known of the connection of a place.
    fn at(&self, place: usize) -> Option<&Place> {
        self.places.as_slice().get(place)
    }

    /// The millisecond that was told last.
    fn now(&self) -> u64 {
        self.now.load(Ordering::SeqCst)
    }

    /// It is this millisecond.
    pub(crate) fn tell_now(&self, milliseconds: u64) {
        self.now.store(milliseconds, Ordering::SeqCst);
    }

    /// The place of one connection more, which is its own until it is left.
    pub(crate) fn take_place(&self) -> Option<usize> {
        for (number, place) in self.places.as_slice().iter().enumerate() {
            if !place.is_taken.swap(true, Ordering::SeqCst) {
                place.reading.begin();
                place.writing.begin();
                place.targets.begin();
                return Some(number);
            }
        }
        None
    }

    /// The connection of a place is over.
    pub(crate) fn leave_place(&self, place: usize) {
        if let Some(place) = self.at(place) {
            place.targets.begin();
            place.is_taken.store(false, Ordering::SeqCst);
        }
    }

    /// Whether there is a place for one connection more.
    pub(crate) fn has_place(&self) -> bool {
        for place in self.places.as_slice() {
            if !place.is_taken.load(Ordering::SeqCst) {
                return true;
            }
        }
        false
    }

    /// The system told of a connection.
    pub(crate) fn tell(&self, place: usize, is_readable: bool, is_writable: bool) {
        if let Some(place) = self.at(place) {
            if is_readable {
                place.reading.tell();
            }
            if is_writable {
                place.writing.tell();
            }
        }
    }

    /// The system told of a target of a connection.
    pub(crate) fn tell_target(&self, place: usize) {
        if let Some(place) = self.at(place) {
            place.targets.are_told.store(true, Ordering::SeqCst);
        }
    }

    /// The system told of the listener.
    pub(crate) fn tell_listener(&self) {
        self.listener.store(true, Ordering::SeqCst);
    }

    /// Whether the listener may have a connection.
    pub(crate) fn listener_may_have(&self) -> bool {
        self.listener.load(Ordering::SeqCst)
    }

    /// The listener had none.
    pub(crate) fn listener_had_none(&self) {
        self.listener.store(false, Ordering::SeqCst);
    }

    /// What is asked of targets from now on is for the connection of a place.
    pub(crate) fn turn_to(&self, place: usize) {
        self.polled.store(place, Ordering::SeqCst);
    }

    /// Whether a look at the targets that the connection of a place awaits may find something, or is due: then none
    /// is awaited from now on.
    pub(crate) fn take_targets(&self, place: usize) -> bool {
        match self.at(place) {
            Some(place) => place.targets.take(self.now()),
            None => true,
        }
    }

    /// The place of the connection for which targets are asked.
    pub(crate) fn polled(&self) -> usize {
        self.polled.load(Ordering::SeqCst)
    }

    /// A look at a target found nothing: the connection for which it was asked awaits it.
    pub(crate) fn target_had_none(&self) {
        if let Some(place) = self.at(self.polled()) {
            let due = self.now().saturating_add(TARGET_MILLISECONDS);
            place.targets.due.store(due, Ordering::SeqCst);
        }
    }

    /// How many of so many milliseconds pass at most until targets are looked at of which nothing is told.
    pub(crate) fn until_due(&self, most: u64) -> u64 {
        let now = self.now();
        let mut left = most;
        for place in self.places.as_slice() {
            let due = place.targets.due.load(Ordering::SeqCst);
            left = left.min(due.saturating_sub(now));
        }
        left
    }

    /// Whether something can come of a read: octets, the end, or that the client was silent for too long.
    pub(crate) fn may_read(&self, place: usize) -> bool {
        match self.at(place) {
            Some(place) => {
                place.reading.is_ready() || place.reading.is_late(self.now(), SILENT_MILLISECONDS)
            }
            None => true,
        }
    }

    /// Whether something can come of a write.
    pub(crate) fn may_write(&self, place: usize) -> bool {
        match self.at(place) {
            Some(place) => {
                place.writing.is_ready() || place.writing.is_late(self.now(), STALLED_MILLISECONDS)
            }
            None => true,
        }
    }

    /// Whether to ask the system for octets of a connection, as far as is known.
    pub(crate) fn asks_to_read(&self, place: usize) -> bool {
        match self.at(place) {
            Some(place) => place.reading.is_ready(),
            None => true,
        }
    }

    /// Whether to ask the system to take octets of a connection.
    pub(crate) fn asks_to_write(&self, place: usize) -> bool {
        match self.at(place) {
            Some(place) => place.writing.is_ready(),
            None => true,
        }
    }

    /// A connection gave octets.
    pub(crate) fn has_read(&self, place: usize) {
        if let Some(place) = self.at(place) {
            place.reading.stop();
        }
    }

    /// A connection took octets.
    pub(crate) fn has_written(&self, place: usize) {
        if let Some(place) = self.at(place) {
            place.writing.stop();
        }
    }

    /// A connection had no octets. Tells whether its client was silent for too long.
    pub(crate) fn had_none(&self, place: usize) -> bool {
        let now = self.now();
        match self.at(place) {
            Some(place) => {
                place.reading.await_on(now);
                place.reading.is_late(now, SILENT_MILLISECONDS)
            }
            None => false,
        }
    }

    /// A connection had no room. Tells whether its client took nothing for too long.
    pub(crate) fn had_no_room(&self, place: usize) -> bool {
        let now = self.now();
        match self.at(place) {
            Some(place) => {
                place.writing.await_on(now);
                place.writing.is_late(now, STALLED_MILLISECONDS)
            }
            None => false,
        }
    }
}
