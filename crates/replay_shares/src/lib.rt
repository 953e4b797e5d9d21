//! Orderly scripts share the sessions of the pool: which works the runs of a script ask, and when, and
//! that each class costs what the uses of these works need.
#![tactic(auto)]

mod laws;
#[cfg(test)]
mod tests;

pub use laws::{gets_share, runs_share, scripts_share, units_share};

// Handed on: crates above name these through this one.
pub use replay;
pub use replay::{gateway_rules, sru_rules};
