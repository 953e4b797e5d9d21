//! What the targets mean: the answers that they are taken to give, fixed by a type. No code has them.

ghost use Rattle.std.specs.Prelude.{ℕ, List, Option, Result};
ghost use Rattle.z_types.specs.declared.key.SetKey.{SetKey};
ghost use Rattle.z_types.specs.declared.diagnostic.Diag.{Diag};
ghost use Rattle.z_types.specs.declared.records.Item.{Item};
ghost use Rattle.z_types.specs.declared.scan.ScanAsk.{ScanAsk};
ghost use Rattle.z_types.specs.declared.scan.ScanAnswer.{ScanAnswer};
ghost use Rattle.z_types.specs.declared.address.Address.{Address};
ghost use Rattle.z_types.specs.World.{HitsAreCounts, InnerIsTold, WholeIsNotGone};

/// What the targets mean, as an unchanging database each.
pub trait World: Drop {
    /// The addresses that are told: those whose targets answer as the meanings below say.
    ghost told: { Address → Type 0 };

    /// A world that tells an address inside a login tells the inner address too.
    ghost inner_is_told: { InnerIsTold told };

    /// The hits of a search, or its diagnostic.
    ghost search: { Address → SetKey → Result ℕ Diag };

    /// The record at a position, counted from 1, in a syntax and an element set, or the diagnostic in
    /// place of the whole present.
    ghost record_: { Address → SetKey → ℕ → Option (List ℕ) → Option (List ℕ) → Result Item Diag };

    /// The entries of a scan of databases, or its diagnostic.
    ghost scan: { Address → List (List ℕ) → ScanAsk → Result ScanAnswer Diag };

    /// Hits are at most `MOST_NUMBER`.
    ghost hits_are_counts: { HitsAreCounts search };

    /// No diagnostic of a whole present is condition 27 or 30 of bib-1, by which a target says that it
    /// has no such result set, or no longer.
    ghost whole_is_not_gone: { WholeIsNotGone record_ };
}
