//! How a front's loop ended.

/// How a front's loop ended.
#[derive(Clone, Copy, PartialEq, Eq, Debug)]
pub enum Fronted {
    /// No connection is left.
    Ended,
    /// An accept failed, and each connection that was open then has ended.
    AcceptFailed,
    /// A wait failed.
    PollFailed,
    /// No memory could be had to list what comes of one more connection.
    Memory,
}
