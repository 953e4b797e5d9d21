//! The limits, tested.

ghost use Rattle.std.specs.Prelude.{◌≡◌, if◌then◌else◌};
ghost use Rattle.limit_rules.specs.Limits as limits_of;

use crate::{Allowed, Spent, Want};
use z_types::Limits;

/// The most records of one request.
const MOST_RECORDS: u32 = 1000;

/// What a client may have of what it wants, where it has used this much.
pub fn allow(limits: &Limits, spent: &Spent, want: &Want) -> Allowed
    ensures { result ≡ limits_of.allowed_of limits.now spent.now want.now }
{
    match want {
        Want::Unit => unless(spent.units == limits.units, Allowed::Units),
        Want::Search => unless(spent.searches == limits.searches, Allowed::Searches),
        Want::Records(number) => {
            let most = u64::from(limits.records);
            let all = u64::from(spent.records) + u64::from(*number);
            unless(*number > MOST_RECORDS || all > most, Allowed::Records)
        }
        Want::NewSet => unless(spent.sets == limits.sets, Allowed::Sets),
    }
}

/// The refusal where its limit is met.
fn unless(met: bool, refusal: Allowed) -> Allowed
    ensures { result ≡ (if met then refusal else Allowed.Ok) }
{
    if met { refusal } else { Allowed::Ok }
}

/// The most records that a client may have at its next request, where it was given this many.
pub fn room(limits: &Limits, given: u32) -> u32
    ensures { result ≡ limits_of.room limits.now given }
{
    MOST_RECORDS.min(limits.records.saturating_sub(given))
}
