//! What the commands of the program share: the configuration, read and refused, the lines that refusals
//! print, the numbers among the words, and the exit statuses.
#![tactic(auto)]

mod config;
mod lines;
mod numbers;
mod status;

pub use crate::config::{ConfigRead, read_config, refuse_config, unread};
pub use crate::lines::{USAGE, print_text, say};
pub use crate::numbers::number_in;
pub use crate::status::Status;
