//! The pool of one thread by indexes: it finds the session that it gives, and what expires, without
//! looking at others.
#![tactic(auto)]

mod door;
mod idlers;
mod pool;
mod register;
mod tally;

pub use pool::IndexedPool;
