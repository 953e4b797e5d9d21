//! Over a quiet backend that counts exactly, at addresses that are told, nothing goes wrong: no call
//! fails, no look is in vain and no set is gone, whatever a leg or a package goes through. Where more befalls
//! links, but no more than a leg bears, no leg is marked but where the door was full.
#![tactic(auto)]

mod laws;
#[cfg(test)]
mod tests;

pub use laws::{
    bearing_stays, begun_bears, begun_is_well, packages_bear, packages_dial_on, packages_go_well,
    turns_bear, turns_go_well,
};

// Handed on: crates above name these through this one.
pub use package;
pub use package::package_rules;
