//! The load script (this project's own): from a number the events of as many clients, which are played
//! as those of a script that was read.
#![tactic(auto)]

mod load;
mod requests;

pub use load::make;

#[cfg(test)]
mod tests;
