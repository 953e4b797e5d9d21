//! Virtual databases: the legs that a list of their names stands for, and where a leg goes (this
//! project's own).
#![tactic(auto)]

mod fault;
mod legs;
mod place;

pub use fault::DbFault;
pub use legs::{databases_of, legs_of};
pub use place::{LentLeg, leg_at};
