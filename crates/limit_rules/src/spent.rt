//! What a client has used, and what it wants.

/// What a connection has used.
#[derive(Clone, Copy, PartialEq, Eq, Debug)]
pub struct Spent {
    /// Units that were taken.
    pub units: u32,
    /// Searches that were handed out to targets.
    pub searches: u32,
    /// Records that were given, surrogates too.
    pub records: u32,
    /// Result sets that it has now.
    pub sets: u32,
}

/// What a client wants.
#[derive(Clone, Copy, PartialEq, Eq, Debug)]
pub enum Want {
    /// One more unit taken.
    Unit,
    /// One more search.
    Search,
    /// This many records.
    Records(u32),
    /// A result set of a name that it has not used.
    NewSet,
}
