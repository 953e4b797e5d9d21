//! Under which mark a request was answered, and how a connection ended (this project's own).

ghost use Rattle.z_types.specs.equality.Marks.{mark_exact, end_exact};

use crate::Exact;

/// Under which mark a request was answered.
#[derive(Clone, Copy, PartialEq, Eq, Debug)]
pub enum Mark {
    /// As a route with private sessions answers.
    Plain,
    /// A link to a target failed.
    Link,
    /// A target was silent for this many looks.
    Silent(u32),
    /// A target deleted the result set again and again.
    Gone,
    /// This many sessions were open, and none was idle.
    Full(u32),
}

/// How a connection ended.
#[derive(Clone, Copy, PartialEq, Eq, Debug)]
pub enum End {
    /// By a Close of the client.
    Closed,
    /// The input ended between two units.
    Finished,
    /// By a bad unit, which begins at this offset in octets.
    Malformed(u64),
    /// The input ended inside a unit, of which there were this many octets.
    Cut(u64),
    /// By a unit beyond the most that a connection may send.
    Limited,
    /// A read failed.
    ReadFault,
    /// A write failed.
    WriteFault,
    /// No memory could be had.
    Memory,
}

impl Exact for Mark {
    ghost exact_eq = { mark_exact };

    ghost exact_clone = { λ a b h. h };
}

impl Exact for End {
    ghost exact_eq = { end_exact };

    ghost exact_clone = { λ a b h. h };
}
