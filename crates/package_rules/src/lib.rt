//! The rules of a request's legs together (ANSI/NISO Z39.50-2003, 3.2.2.1, 3.2.3.1 and 3.2.8.1): what
//! each is asked for, what comes of the request by their answers, and the law that on a fair route this
//! is what its targets mean.
#![tactic(auto)]

mod answered;
mod laws;
mod members;
mod spans;
#[cfg(test)]
mod tests;

pub use answered::Answered;
pub use laws::{
    cause_is_allowed, fetches_may_be_asked, finished_fits, finished_has_mark, finished_is_outcome,
    first_mark_decides, scans_may_be_asked, searches_may_be_asked,
};
pub use members::have_members;
pub use spans::{Met, Span, spans_of};
