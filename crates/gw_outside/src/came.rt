//! What came of a connection, for an operator.

use z_types::{End, Mark, Text};

/// Whose a connection was, by the Inits of its client (ANSI/NISO Z39.50-2003, 3.2.1.1.5).
#[derive(Clone, Copy)]
pub enum Whose<'a> {
    /// Nobody can tell: no Init was answered, or the client spoke HTTP.
    Untold,
    /// Its client sent so many Inits, of which none was accepted.
    Refused(u32),
    /// Nobody's whom the route knows.
    Anonymous,
    /// The user's of the route who has this name.
    User(&'a Text),
}

/// What came of a connection, as an acceptor may tell it to an operator.
#[derive(Clone, Copy)]
pub struct Came<'a> {
    /// Under which mark each request was answered, in their order.
    pub marks: &'a [Mark],
    /// How it ended; none where it was given up before.
    pub end: Option<End>,
    /// Whose it was.
    pub whose: Whose<'a>,
    /// How many Presents to targets were answered by records that were kept.
    pub cached: u64,
}
