//! What proofs see of wires, and of sessions over them. No code has what it says.

ghost use Rattle.std.specs.Prelude.{Bool};
ghost use Rattle.gw_outside.specs.Counts.{Counts};
ghost use Rattle.gw_outside.specs.Happened.{Happened};

/// A wire, or sessions over wires, as proofs see it: what it counted, and what was made to happen to
/// its links.
pub trait Watched {
    /// What it counted. No count falls.
    ghost counts: { Self → Counts };

    /// Whether each of its counts, that of faults among them, rises by one at the answers that are
    /// named for it and at nothing else.
    ghost exact: { Bool };

    /// What was made to happen to its links.
    ghost happened: { Self → Happened };
}
