//! A client of targets (ANSI/NISO Z39.50-2003): sessions over the links of a wire. Units are written by
//! `z_write`, framed as they come and read by `z_read`; what a reply says is taken by what was asked.
#![tactic(auto)]

mod arrivals;
mod backend;
mod found;
mod hearing;
mod listening;
mod own;
mod replies;
mod sending;
mod session;
mod sets;
mod typed;
mod units;

pub use crate::backend::ZBackend;
pub use crate::session::{LinkParts, ZSession};
pub use crate::sets::{FoundSet, Waiting};
