//! Units of a client (ANSI/NISO Z39.50-2003, 4.2): the octets of one request in, those of its reply out.
#![tactic(auto)]

mod units;

pub use units::{Begun, begin_unit, end_unit};

// Handed on: crates above name these through this one.
pub use front_session;
pub use front_session::{gateway_rules, z_write};
