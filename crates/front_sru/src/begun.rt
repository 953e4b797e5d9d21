//! What became of a GET.

use z_types::{End, Mark, Work};

/// What became of a GET.
#[derive(Drop)]
pub enum Begun {
    /// Its reply was written, under this mark where it has one, and the connection has ended so.
    Write(Option<Mark>, Option<End>),
    /// This is to be asked of the targets first; nothing was written.
    Work(Work),
    /// No memory could be had.
    Memory,
}
