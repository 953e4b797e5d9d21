//! The legs of a request share the sessions of their classes: over a told pool each of whose classes is
//! kept as its uses left it, each leg dials and searches as its use needs, and once all are done each
//! class is kept with their uses.
#![tactic(auto)]

mod laws;
#[cfg(test)]
mod tests;

pub use laws::{
    begun_may_share, begun_shares, done_legs_leave_uses, packages_may_share, packages_share,
    quiet_packages_share, requests_share, rounds_share,
};

// Handed on: crates above name these through this one.
pub use package_quiet::package;
