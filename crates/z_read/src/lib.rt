//! Requests and replies, read from their octets (ANSI/NISO Z39.50-2003, the ASN.1 of its APDUs;
//! X.690:2021), in every form that the Basic Encoding Rules allow.
#![tactic(auto)]

mod attributes;
mod close_unit;
mod diagnostics;
mod each;
mod element_names;
mod fault;
mod init_request;
mod laws;
mod lists;
mod present_request;
mod queries;
mod records;
mod responses;
mod scan_request;
mod search_request;
mod units;

pub use fault::ReadFault;
pub use laws::{numbers_in_range, one_answer, one_form, skipped_elements};
pub use units::{read_reply, read_request, read_unit};
