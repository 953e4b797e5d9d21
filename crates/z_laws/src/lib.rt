//! What is true of requests and replies between their written form and what is read (ANSI/NISO
//! Z39.50-2003, the ASN.1 of its APDUs). These functions do nothing; what they ensure is the law.
#![tactic(auto)]

mod laws;

pub use laws::{
    written_replies_are_one, written_replies_are_read, written_replies_are_units,
    written_requests_are_one, written_requests_are_read, written_requests_are_units,
};
