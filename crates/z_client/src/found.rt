//! What a look at a session found.

use gw_outside::Heard;
use z_types::Text;

/// What a look at a session found.
#[derive(Drop)]
pub enum Found {
    /// What is heard, but that a result set is gone.
    Heard(Heard),
    /// That a result set is gone: the octets that had arrived.
    Gone(Text),
    /// A breach: the octets that had arrived.
    Breach(Text),
}
