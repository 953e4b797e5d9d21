//! A client's session (ANSI/NISO Z39.50-2003, 4.2): requests are admitted, and settled by what came of
//! their work. No target is asked here.
#![tactic(auto)]

mod admitted;
mod asking;
mod check;
mod cut;
mod kept;
mod limited;
mod present;
mod refusal;
mod scan;
mod search;
mod session;
mod settle;

pub use admitted::Admitted;
pub use cut::cut_of;
pub use session::FrontSession;

// Handed on: crates above name these through this one.
pub use gateway_rules;
pub use z_write;
