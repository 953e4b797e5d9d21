//! A backend over another, with a store of records (this project's own): Presents whose first records the
//! store has are answered by these, and what the backend beneath gives is kept.
#![tactic(auto)]

mod asks;
mod backend;
mod known;
mod looks;
mod presents;
mod sessions;

pub use backend::CachedBackend;
pub use known::Searched;
pub use sessions::{Awaited, CachedParts, CachedSession};
