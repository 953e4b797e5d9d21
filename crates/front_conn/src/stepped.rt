//! What a step of a connection answers.

/// What a step of a connection did.
#[derive(Clone, Copy, PartialEq, Eq, Debug)]
pub enum Stepped {
    /// Nothing: the connection has ended, or nothing is in work and no whole request, no head, no bad
    /// unit and no end waits.
    Idle,
    /// It turned the request in work, and each leg that was not done heard nothing.
    NotYet,
    /// It began or answered a request, turned the one in work, or ended the connection.
    Went,
    /// No memory could be had: the connection has ended so, and is to be given up.
    Memory,
}
