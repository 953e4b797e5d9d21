//! Why a request fails before any target is asked.

ghost use Rattle.std.specs.Prelude.{◌≡◌};
ghost use Rattle.front_session.specs.declared.refusal.Refusal.TheVariants.{Memory as no_memory};

use z_types::{Diag, Memory};

/// Why a request fails before any target is asked, or that no memory could be had.
#[derive(Drop)]
pub(crate) enum Refusal {
    /// A check refuses with this diagnostic.
    Refused(Diag),
    /// No memory could be had.
    Memory,
}

impl From<Memory> for Refusal {
    ghost from_gives = { λ _ e. e ≡ no_memory };

    fn from(_: Memory) -> Refusal {
        Refusal::Memory
    }
}
