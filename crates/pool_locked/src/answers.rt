//! Which count an answer of a door raises.

ghost use Rattle.std.specs.Prelude.{◌≡◌, option_copied};
ghost use Rattle.pool_sets.specs.Counts.{is_full, is_dial, is_booked};

use pool_sets::Taken;
use z_types::SetKey;

/// Whether the pool was full.
pub(crate) fn is_full<S>(taken: &Taken<S>) -> bool
    ensures { result ≡ is_full taken.now }
{
    matches!(taken, Taken::Full { .. })
}

/// Whether a session is to be dialled.
pub(crate) fn is_dial<S>(taken: &Taken<S>) -> bool
    ensures { result ≡ is_dial taken.now }
{
    matches!(taken, Taken::Dial { .. })
}

/// Whether a session was given that holds no set wanted, where one was wanted.
pub(crate) fn is_booked<S>(want: Option<&SetKey>, taken: &Taken<S>) -> bool
    ensures { result ≡ is_booked (option_copied want.entry) taken.now }
{
    want.is_some() && matches!(taken, Taken::Fresh { .. } | Taken::Dial { .. })
}
