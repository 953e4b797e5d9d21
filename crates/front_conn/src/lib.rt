//! A connection of a client, of Z39.50 or of HTTP by its first octet: octets in any pieces in, the answers
//! to them out, one step at a time, over links to the targets.
#![tactic(auto)]

mod ahead;
mod answering;
mod conn;
mod driving;
mod ends;
mod laws;
mod stepped;
mod totals;

pub use conn::Conn;
pub use laws::{
    ends_answered, stands_at_start, stands_when_ended, stands_when_fed, stands_when_written,
    stays_of_route,
};
pub use stepped::Stepped;
pub use totals::Total;

// Handed on: crates above name these through this one.
pub use front_http;
pub use front_http::sru_rules;
pub use front_z::gateway_rules;
