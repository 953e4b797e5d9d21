//! Types that cross threads.

use pool_core::Pool;
use pool_index::IndexedPool;
use pool_keys::Digest;
use pool_locked::Counted;
use pool_sets::{Door, Pooled, SetTable};
use std::sync::Mutex;
use std::sync::ledger::Ledger;
use z_types::{Sitting, World};

/// Takes types whose values may go to another thread.
fn may_go<T: Send>() {}

/// Takes types whose values may be shared with another thread.
fn may_be_shared<T: Sync>() {}

/// A table of sets may go to another thread, and a session with its table where a session may.
pub fn sessions_cross<W: World + Send, S: Sitting<W> + Send>() {
    may_go::<SetTable>();
    may_go::<Pooled<W, S>>();
}

/// A pool may go to another thread where its sessions may.
pub fn pools_cross<W: World + Send, S: Sitting<W> + Send>() {
    may_go::<Pool<W, S>>();
}

/// A pool by indexes may go to another thread where its sessions may.
pub fn indexes_cross<W: World + Send, S: Sitting<W> + Send, D: Digest + Send>() {
    may_go::<IndexedPool<W, S, D>>();
}

/// A pool behind a lock may be shared with another thread where it and its sessions may go to one.
pub fn locks_cross<
    W: World + Send,
    S: Sitting<W> + Send,
    P: Door<W, S> + Drop + Send,
    L: Ledger,
    M: Ledger,
    O: Ledger,
    Q: Ledger,
>() {
    may_be_shared::<Mutex<Counted<W, S, P, L, M, O, Q>>>();
}
