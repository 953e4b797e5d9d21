//! Who may search what: whose a connection is by its login (ANSI/NISO Z39.50-2003, 3.2.1.1.5,
//! Id/authentication), and which databases the rules of the route allow. What a client is answered
//! is left to others.
#![tactic(auto)]

mod credentials;
mod decision;
mod denial;
mod equal;
mod laws;
mod who;

pub use decision::{Decision, decide};
pub use denial::first_denial;
pub use laws::{first_denied, one_reading};
pub use who::{Who, user_of};
