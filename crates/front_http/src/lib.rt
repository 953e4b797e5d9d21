//! An HTTP connection (RFC 9112, 2.1 and 9.6; SRU 1.2, searchRetrieve by GET): the head of its one
//! request, as its octets come, and what the GET comes to, by what came of its two works. Where the
//! connection stands, and how it moves, is left to the crate above.
#![tactic(auto)]

mod head;
mod laws;
mod seek;

pub use head::begin_head;
pub use laws::{gets_go_on, heads_answer};
pub use seek::{awaits_more, seek_head};

// Handed on: crates above name these through this one.
pub use front_sru;
pub use front_sru::sru_rules;
