//! A link with a target, as proofs see it.

ghost use Rattle.std.specs.Prelude.{ℕ, Bool, List, Option};
ghost use Rattle.gw_outside.specs.Peers.{Peer};

/// A link with a target, as proofs see it. No code has what it says.
pub trait Linked: Drop {
    /// The octets that arrived and are not consumed.
    ghost arrived: { Self → List ℕ };

    /// The target's end, where the link tells it.
    ghost peer: { Self → Option Peer };

    /// The number of its dial, as the wire counts its dials from 1.
    ghost number: { Self → ℕ };

    /// How many looks are to find nothing before each reply that is owed, in their order.
    ghost delays: { Self → List ℕ };

    /// Whether its wire is exact, and so has links to told addresses alone.
    ghost exact: { Bool };
}
