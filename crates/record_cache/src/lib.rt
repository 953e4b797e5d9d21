//! Records that targets gave, by their keys (this project's own): what a store of them gives and takes,
//! the bounded store of one thread, and runs of records in a store.
#![tactic(auto)]

mod cache;
mod digests;
mod entries;
mod hashed;
mod keys;
mod runs;
mod seed;
mod stores;

pub use cache::RecordCache;
pub use keys::RecordKey;
pub use runs::keep_run;
pub use stores::{Found, Kept, Run, Store};
