//! A package is what one request asks of several targets together. Its legs go turn by turn, over a
//! door and a backend, first those for what is asked first and then those for the records that are
//! to be given; what comes of the request is what the legs answered, or the mark of the first that is
//! marked. Beside it stands what comes of a work where the targets are asked directly, with no link, no
//! pool and no mark (ANSI/NISO Z39.50-2003, 3.2.2.1, 3.2.3.1 and 3.2.8.1): a yardstick for tests.
#![tactic(auto)]

mod answers;
mod asking;
mod drive;
mod finishing;
mod flight;
mod hits;
mod laws;
mod outcomes;
mod package;
mod records;
mod rounds;
mod said;
mod shown;
mod supplies;
mod turning;

pub use flight::AllLegs;
pub use laws::{
    package_cause_is_allowed, package_is_answered, package_outcome_fits, package_outcome_is_true,
};
pub use outcomes::plain_outcome;
pub use package::Package;
pub use turning::Round;

// Handed on: crates above name these through this one.
pub use leg;
pub use package_rules;
