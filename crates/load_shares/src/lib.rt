//! Loads are orderly: one client is served behind another, each asks for one of five letters, and so
//! each class costs what these searches need, and each request is answered without a mark.
#![tactic(auto)]

mod laws;
#[cfg(test)]
mod tests;

pub use laws::{
    loads_are_answered, loads_are_answered_plainly, loads_are_orderly, loads_need_so,
    requests_are_received,
};
