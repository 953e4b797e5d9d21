//! The top call: the commands of the program, over files, a sink and targets.
#![tactic(auto)]

mod calls;
mod itself;
mod load;
mod play;
mod say;
mod targets;
mod words;

pub use crate::calls::top;
pub use crate::itself::command;
pub use gateway_config::Status;
