//! A session with a target, as proofs see it. No code has what it says.

ghost use Rattle.std.specs.Prelude.{ℕ, Bool, List, Option};
ghost use Rattle.z_types.specs.Links.{LinkView};
ghost use Rattle.z_types.specs.Pending.{Pending};
ghost use Rattle.z_types.specs.declared.key.SetKey.{SetKey};
ghost use Rattle.z_types.specs.declared.address.Address.{Address};

use crate::World;

/// A session with a target of a world: its address, the result sets that it made, what it waits for, and
/// how its link stands.
pub trait Sitting<W: World>: Drop {
    /// The address at which it was dialled.
    ghost address: { Self → Address };

    /// For each result set name the key and the hits of the last search under it that was answered,
    /// where that search succeeded.
    ghost made: { Self → List ℕ → Option (SetKey × ℕ) };

    /// What it waits for.
    ghost pending: { Self → Pending };

    /// How its link stands. Where its address is not told this says nothing.
    ghost link: { Self → LinkView };

    /// Whether a Present may be answered by records that are kept, and not over the link.
    ghost keeps: { Bool };
}
