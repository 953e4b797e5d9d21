//! Replays (this project's own): the events of a script are played over one backend and one pool, and
//! a report of it is printed.
#![tactic(auto)]

mod classes;
mod client;
mod clients;
mod closing;
mod laws;
mod page;
mod playing;
mod reporting;
mod reports;
mod runs;

pub use laws::{read_twice, uncaused_is_plain};
pub use page::print;
pub use reports::{ClassReport, ClientReport, Report};
pub use runs::{run_over, run_with_hits};

// Handed on: crates above name these through this one.
pub use front_conn_costs;
pub use front_conn_costs::{front_conn, gateway_rules, sru_rules};
pub use package_quiet;
