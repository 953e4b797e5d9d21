//! What a turn and a leg answer.

use z_types::{Diag, Item, List, Mark, ScanAnswer};

/// What a turn answers.
#[derive(Clone, Copy, PartialEq, Eq, Debug)]
pub enum Turned {
    /// The leg went on.
    Went,
    /// The one look heard nothing, and the patience is not at its end.
    NotYet,
    /// The leg is done: exactly where it is so after the turn.
    Done,
    /// No memory could be had; so it stays where a session is out for the leg.
    Memory,
}

/// What a leg answers. It fits the job at every address, and is the world's at one that is told.
#[derive(Drop)]
pub enum LegAnswer {
    /// How many records its set has.
    Hits(u32),
    /// The target's diagnostic.
    Refused(Diag),
    /// All the records that were asked for.
    Items(List<Item>),
    /// The records before the first that was refused, and the diagnostic in its place.
    Broken(List<Item>, Diag),
    /// The entries of an index.
    Scanned(ScanAnswer),
    /// A mark other than Plain.
    Marked(Mark),
}
