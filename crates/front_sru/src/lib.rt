//! GETs of a client (SRU 1.2, searchRetrieve): the octets of one request's answer, by what came of its
//! two works. What a head is, and when the connection ends without one, is left to the crates above.
#![tactic(auto)]

mod answer;
mod begin;
mod begun;
mod diagnostics;
mod end;
mod items;
mod outcomes;
mod query;
mod reading;
mod state;
mod works;

pub use begin::begin_get;
pub use begun::Begun;
pub use end::end_get;
pub use state::{SruStage, SruState};

// Handed on: crates above name these through this one.
pub use sru_rules;
