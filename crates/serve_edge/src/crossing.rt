//! Sessions with targets cross threads.

use gw_outside::Linked;
use z_client::ZSession;
use z_types::World;

/// Takes types whose values may go to another thread.
fn may_go<T: Send>() {}

/// A session with a target may go to another thread as its link may.
pub fn sessions_cross<W: World + Send, L: Linked + Send>() {
    may_go::<ZSession<W, L>>();
}
