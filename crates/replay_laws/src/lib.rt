//! Laws of replays (this project's own): where no request is disturbed by what befalls links, and
//! which marks the counts of a request and the sums of a report leave. These functions do nothing;
//! what they ensure is the law.
#![tactic(auto)]

mod laws;
#[cfg(test)]
mod tests;

pub use laws::{
    borne_is_plain, borne_is_plain_or_full, quiet_disturbs_nobody, sums_leave_marks,
    uncaused_request_is_plain,
};
