//! How many records the legs have together.

ghost use Rattle.std.specs.Prelude.{◌≡◌};
ghost use Rattle.z_types.specs.MergedOrder as merged_order;

use z_types::MOST_NUMBER;

/// How many records legs with these hits have together, at most 2147483647 (the resultCount of
/// ANSI/NISO Z39.50-2003, 3.2.2).
pub fn total(hits: &[u32]) -> u32
    ensures { result ≡ merged_order.total hits.now }
{
    let mut sum = 0u64;
    for n in hits {
        sum = sum.saturating_add(u64::from(*n));
    }
    sum.min(u64::from(MOST_NUMBER)) as u32
}
