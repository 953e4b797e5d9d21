//! Where the record of a position stands.

ghost use Rattle.std.specs.Prelude.{◌≡◌, ◌+◌, ◌-◌, ◌<◌, ◌≤◌, length, sum, Some, slice_get};
ghost use Rattle.multi_merge.specs.Ranks.{up_to, IsOfRank};
ghost use Rattle.z_types.specs.Bounds.{most_legs};
ghost use Rattle.z_types.specs.MergedOrder as merged_order;
ghost use Rattle.z_types.specs.MergedOrder.{merged, of_rank, place_at};

use crate::ranks::{Rank, rank_at};
use z_types::MOST_LEGS;

/// The leg, counted from 0, and the rank, from 1, of the record at a position from 1 of the merged
/// order of legs with these hits. It takes as long for many hits as for few.
pub fn locate(hits: &[u32], position: u32) -> (u32, u32)
    requires few { length hits.now ≤ most_legs }
    requires counted { 0 < position }
    requires within { position ≤ merged_order.total hits.now }
    ensures { slice_get (merged hits.now) (position - 1) ≡ Some (place_at result.0 result.1) }
{
    let rank = rank_of(hits, position);
    (leg_at(hits, rank.number, rank.before), rank.number)
}

/// The rank of a position.
fn rank_of(hits: &[u32], position: u32) -> Rank
    requires few { length hits.now ≤ most_legs }
    requires counted { 0 < position }
    requires within { position ≤ sum hits.now }
    ensures rank { IsOfRank hits.now position result.number }
    ensures before { up_to (result.number - 1) hits.now + result.before + 1 ≡ position }
{
    let mut ascending = [0u32; MOST_LEGS];
    let ascending = &mut ascending[..hits.len()];
    ascending.copy_from_slice(hits);
    ascending.sort_unstable();
    rank_at(ascending, position)
}

/// The leg of the record of a rank that has `before` others of that rank before it.
fn leg_at(hits: &[u32], rank: u32, before: u64) -> u32
    requires few { length hits.now ≤ most_legs }
    requires within { before < length (of_rank hits.now rank) }
    ensures { slice_get (of_rank hits.now rank) before ≡ Some (place_at result rank) }
{
    let mut left = before;
    let mut leg = 0;
    for n in hits {
        if rank <= *n {
            if left == 0 {
                return leg;
            }
            left -= 1;
        }
        leg += 1;
    }
    leg
}
