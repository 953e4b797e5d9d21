//! The limits of a connection of Z39.50, each as a test.

ghost use Rattle.std.specs.Prelude.{◌≡◌};
ghost use Rattle.limit_rules.specs.Limits as limits_of;

use limit_rules::{Allowed, Spent, Want, allow};
use z_types::Limits;

/// Whether no unit may come after those that were taken.
pub(crate) fn are_units_spent(limits: &Limits, spent: &Spent) -> bool
    ensures { result ≡ limits_of.are_units_spent limits.now spent.now.units }
{
    allow(limits, spent, &Want::Unit) != Allowed::Ok
}

/// Whether no Search may be asked after those that were.
pub(crate) fn are_searches_spent(limits: &Limits, spent: &Spent) -> bool
    ensures { result ≡ limits_of.are_searches_spent limits.now spent.now.searches }
{
    allow(limits, spent, &Want::Search) != Allowed::Ok
}

/// Whether no set of a new name may be made beside those that are there.
pub(crate) fn are_sets_full(limits: &Limits, spent: &Spent) -> bool
    ensures { result ≡ limits_of.are_sets_full limits.now spent.now.sets }
{
    allow(limits, spent, &Want::NewSet) != Allowed::Ok
}

/// Whether these records are too many for one request, or after those that were given.
pub(crate) fn are_too_many(limits: &Limits, spent: &Spent, number: u32) -> bool
    ensures { result ≡ limits_of.are_too_many limits.now spent.now.records number }
{
    allow(limits, spent, &Want::Records(number)) != Allowed::Ok
}
