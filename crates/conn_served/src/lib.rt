//! What comes of a connection that is served, whatever drives it: what its sink received are the answers to what
//! its source gave, each end has its cause, and door and backend counted what it cost.
#![tactic(auto)]

mod clocks;
mod listed;
mod served;
mod whose;

pub use clocks::Ascending;
pub use listed::Listed;
pub use served::Served;
pub use whose::whose_of;

// Handed on: crates above name these through this one.
pub use front_conn_costs;
pub use front_conn_costs::{front_conn, sru_rules};
pub use front_conn_seats;
