//! The built-in test targets: what they find, by their meaning alone, with no link and no state; and
//! the target's end of a link with one of them.
#![tactic(auto)]

mod databases;
mod hits;
mod operands;
mod peers;
mod places;
mod presents;
mod records;
mod scan_replies;
mod scans;
mod searches;
mod syntaxes;
mod worlds;

pub use peers::{Peer, peer_step};
pub use worlds::TestWorld;
