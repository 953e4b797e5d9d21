//! What a request is admitted as.

use z_types::{Reply, Work};

/// What becomes of a request that a client sends.
#[derive(Drop)]
pub enum Admitted {
    /// It is answered at once.
    Reply(Reply),
    /// This is to be asked of the targets first; the request waits.
    Work(Work),
    /// It is out of its place: an Init behind an accepted one, or another request before one.
    Bad,
    /// It comes when the connection has sent all the units that it may send.
    Limited,
    /// No memory could be had.
    Memory,
}
