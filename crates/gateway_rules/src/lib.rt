//! What the gateway answers: the rules of a client's session, as definitions, the plain ones of
//! them as functions, the replies among them, and the laws that no octets are without an
//! answer, and that they have one answer and one end.
#![tactic(auto)]

mod agreement;
mod given;
mod init;
mod laws;
mod marks;
mod replies;
mod sizes;
mod statuses;

pub use agreement::{Agreement, agreed_by};
pub use given::{count_returned, present_reply, scan_reply, search_reply};
pub use init::{init_answer, init_reply, is_accepted};
pub use laws::{
    access_is_kept, courses_ask_open, fair_legs, one_answer, one_end, one_reading, rest_ends,
    runs_go_on, some_answer, units_end,
};
pub use marks::{mark_of, marked_diag};
pub use replies::{bad_unit_reply, failed_reply, finished_reply, limit_reply};
pub use sizes::Sizes;

// Handed on: crates above name it through this one.
pub use access_rules;
