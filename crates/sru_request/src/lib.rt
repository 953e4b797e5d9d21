//! SRU requests by GET (SRU 1.2, searchRetrieve): the head of an HTTP request as it comes on a
//! connection, and the parameters of its query, which are checked in one order. What a database is
//! and what a query of CQL says is left to the crates above.
#![tactic(auto)]

mod checks;
mod choices;
mod end;
mod faults;
mod head;
mod laws;
mod name;
mod number;
mod others;
mod parameter;
mod query;
mod target;

pub use faults::{HeadFault, QueryFault};
pub use head::{Get, HeadGot, MOST_FIELDS, MOST_HEAD_OCTETS, read_head};
pub use laws::head_stays;
pub use name::name_of;
pub use query::{SruQuery, query_of};
