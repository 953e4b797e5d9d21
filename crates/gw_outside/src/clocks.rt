//! The time of day.

/// A clock of whole seconds. It may give any values: a smaller one than before counts as the
/// greatest that was given.
pub trait Clock {
    /// The moment now, in seconds.
    fn now(&mut self) -> u64;
}
