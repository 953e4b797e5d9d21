//! The rank of a position in the merged order.

ghost use Rattle.std.specs.Prelude.{◌≡◌, ◌+◌, ◌-◌, ◌<◌, ◌≤◌, length, sum};
ghost use Rattle.std.specs.List.Sorted.{IsNonDecreasing};
ghost use Rattle.z_types.specs.Bounds.{most_legs};
ghost use Rattle.multi_merge.specs.Ranks.{up_to, IsOfRank};

/// A rank, from 1, and how many records of it stand before a position.
#[derive(Clone, Copy)]
pub(crate) struct Rank {
    pub(crate) number: u32,
    pub(crate) before: u64,
}

/// The rank of a position, from 1, where the hits of the legs ascend. The legs leave the merged
/// order one after another, and between two of them each rank has as many records as legs are left.
pub(crate) fn rank_at(hits: &[u32], position: u32) -> Rank
    requires ascending { IsNonDecreasing hits.now }
    requires few { length hits.now ≤ most_legs }
    requires counted { 0 < position }
    requires within { position ≤ sum hits.now }
    ensures rank { IsOfRank hits.now position result.number }
    ensures before { up_to (result.number - 1) hits.now + result.before + 1 ≡ position }
{
    let mut gone = 0;
    let mut left = u64::from(position) - 1;
    let mut legs = hits.len() as u64;
    for n in hits {
        let ranks = u64::from(*n - gone);
        if left < ranks * legs {
            return Rank {
                number: gone + (left / legs) as u32 + 1,
                before: left % legs,
            };
        }
        left -= ranks * legs;
        legs -= 1;
        gone = *n;
    }
    Rank {
        number: gone,
        before: left,
    }
}
