//! What a replay did.

use z_types::{End, List, Mark, Text};

/// What one client was answered.
#[derive(Drop)]
pub struct ClientReport {
    /// The client's number, 1 to 10000.
    pub number: u32,
    /// The octets that were written to it.
    pub bytes: Text,
    /// Under which mark each request was answered, in order.
    pub marks: List<Mark>,
    /// How its connection ended.
    pub end: End,
}

/// What the requests of all clients cost in a class. A number past its type's end stays at that end.
#[derive(Drop)]
pub struct ClassReport {
    /// The class's name.
    pub name: Text,
    /// How many links were made.
    pub dials: u64,
    /// How many searches were sent.
    pub searches: u64,
    /// How often a target said that a result set is gone.
    pub gones: u64,
    /// How many calls failed.
    pub faults: u64,
}

/// What all clients were answered, and what it cost.
#[derive(Drop)]
pub struct Report {
    /// The clients that the script names, in ascending order.
    pub clients: List<ClientReport>,
    /// The classes of the route, in its order.
    pub classes: List<ClassReport>,
    /// How many Presents to targets were answered by records that were kept, where some may be.
    pub cache_hits: Option<u64>,
}
