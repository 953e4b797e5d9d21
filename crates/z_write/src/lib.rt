//! The units of Z39.50 in their one written form (ANSI/NISO Z39.50-2003; definite lengths in the
//! fewest octets, X.690:2021, 10.1), put at the end of a text. Lengths are computed first, so that
//! each octet is put once: each function that puts something has a twin, named `_len`, that answers
//! the length of what it puts. What is read is left to others.
#![tactic(auto)]

mod cut;
mod fields;
mod lengths;
mod queries;
mod records;
mod replies;
mod requests;
mod scans;
mod structures;
mod weights;

pub use replies::{put_reply, write_reply};
pub use requests::{put_request, write_request};
pub use weights::weight;
