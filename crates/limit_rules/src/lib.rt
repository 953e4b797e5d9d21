//! The limits of a connection of Z39.50 (this project's own): what a client that has used so much may still
//! have. What follows from a refusal is for others to say.
#![tactic(auto)]

mod allowed;
mod rules;
mod spent;

pub use allowed::Allowed;
pub use rules::{allow, room};
pub use spent::{Spent, Want};
