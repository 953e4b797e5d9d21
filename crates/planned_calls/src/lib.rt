//! Calls that are counted, of which those of stated numbers are to fail: for objects in memory, and for
//! the links with the test targets.
#![tactic(auto)]

mod calls;

pub use calls::Calls;
