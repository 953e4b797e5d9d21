//! Where the sets of sessions are found: the digests of their keys in order, with the numbers of the
//! sessions.
#![tactic(auto)]

mod digest;
mod index;

pub use digest::{Digest, KeyDigest};
pub use index::{KeyIndex, Pair};
