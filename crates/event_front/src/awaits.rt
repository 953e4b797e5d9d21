//! What a connection awaits between its polls.

/// What a connection awaits between its polls.
#[derive(Clone, Copy, PartialEq, Eq, Debug)]
pub enum Awaits {
    /// Its client: its source had nothing yet, or its sink no room.
    Client,
    /// A target, which has not replied yet.
    Target,
    /// Nothing: it can go on at once.
    Nothing,
}
