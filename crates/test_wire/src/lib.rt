//! A wire to the built-in test targets, in memory: each link holds its target's end, which answers each
//! request, and hands over each reply whole at one look.
#![tactic(auto)]

mod happenings;
mod links;
mod owed;
mod steady;
mod wires;

pub use links::TestLink;
pub use owed::Owed;
pub use wires::TestWire;
