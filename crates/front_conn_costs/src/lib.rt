//! What the steps of a connection cost: its legs' counts are those of its backend, and its marks
//! have their counted cause, over a run.
#![tactic(auto)]

mod laws;

pub use laws::{
    costs_nothing, costs_on, leaves_no_more, marks_are_met, paid_is_risen, pays_on, rises_plainly,
    starts_costless, stays_costed, steps_cost, steps_count, steps_keep_totals, steps_meet,
    steps_owe_few, steps_pay, sums_at_rest,
};

// Handed on: crates above name these through this one.
pub use front_conn;
pub use front_conn::{front_http, gateway_rules, sru_rules};
