//! What an HTTP client is answered (SRU 1.2, searchRetrieve by GET), as definitions: by the octets that
//! it sends, the route and what the targets mean alone. The answers to a client of either kind, with
//! the laws that no octets are without an answer, and that they have one answer and one end.
#![tactic(auto)]

mod laws;
mod retrieval;
mod works;

pub use laws::{
    fetch_asks_no_more, get_is_answered, head_is_refused, one_answer, one_end, one_reading,
    some_answer,
};
pub use retrieval::Retrieval;
pub use works::{get_is_open, works_answer, works_can_begin};

// Handed on: crates above name these through this one.
pub use gateway_rules;
