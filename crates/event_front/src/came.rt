//! What the rounds of a poll came to.

use crate::Awaits;
use z_types::End;

/// What the rounds of a poll came to.
#[derive(Clone, Copy, PartialEq, Eq, Debug)]
pub(crate) enum Came {
    /// The connection goes on, and awaits this.
    To(Awaits),
    /// The connection has ended so.
    End(End),
}
