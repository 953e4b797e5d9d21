//! Workers, whose backends are moved beneath ones with a store, and back.

ghost use Rattle.std.specs.Prelude.{◌≡◌, ◌+◌, ◌≤◌, ◌++◌, [], IfOk, OnErr, OnOk, map, reverse, vec_len, vec_capacity};
ghost use Rattle.serve_cached.specs.Beneath.{beneath};

use cache_backend::CachedBackend;
use cache_locked::LockedCache;
use gw_outside::Backend;
use record_cache::RecordCache;
use serve_threads::serve::Worker;
use std::alloc::Global;
use std::sync::{Mutex, Wait};
use z_types::{Memory, World};

/// A backend over another, with a store behind a lock.
pub(crate) type Cached<'a, R, W, B> = CachedBackend<W, B, LockedCache<'a, R, W>>;

/// Moves the workers' backends beneath ones with the store; without memory all stay.
pub(crate) fn over_store<'a, R: Wait + Sync, W: World, B: Backend<W> + Drop, A: Drop, C: Drop>(
    rt: &'a R,
    alloc: Global,
    store: &'a Mutex<RecordCache<W>>,
    record_bytes: u32,
    workers: &mut Vec<Worker<B, A, C>>,
) -> Result<Vec<Worker<Cached<'a, R, W, B>, A, C>>, Memory>
    ensures err { OnErr result (workers.new.items ≡ workers.old.items) }
    ensures moved { IfOk result (λ cached. reverse (map beneath cached.items) ≡ workers.old.items) }
    ensures left { OnOk result (workers.new.items ≡ []) }
    ensures long { IfOk result (λ cached. vec_len cached ≡ vec_len workers.old) }
    ensures room { vec_capacity workers.new ≡ vec_capacity workers.old }
{
    let mut cached = Vec::with_capacity(alloc, workers.len())?;
    while let Some(worker) = workers.pop() {
        cached.push_reserved(put_over(rt, store, record_bytes, worker));
    }
    Ok(cached)
}

/// Moves a worker's backend beneath one with the store.
fn put_over<'a, R: Wait + Sync, W: World, B: Backend<W>, A, C>(
    rt: &'a R,
    store: &'a Mutex<RecordCache<W>>,
    record_bytes: u32,
    worker: Worker<B, A, C>,
) -> Worker<Cached<'a, R, W, B>, A, C>
    ensures { beneath result ≡ worker }
{
    let Worker {
        backend,
        accept,
        clock,
        served,
    } = worker;
    let store = LockedCache::new(rt, store);
    Worker {
        backend: CachedBackend::new(backend, store, record_bytes),
        accept,
        clock,
        served,
    }
}

/// Moves the workers back, with the backends that were beneath.
pub(crate) fn take_back<R: Wait + Sync, W: World, B: Backend<W> + Drop, A: Drop, C: Drop>(
    mut cached: Vec<Worker<Cached<'_, R, W, B>, A, C>>,
    workers: &mut Vec<Worker<B, A, C>>,
)
    requires room { vec_len workers.old + vec_len cached ≤ vec_capacity workers.old }
    ensures moved { workers.new.items
        ≡ workers.old.items ++ reverse (map beneath cached.entry.items) }
{
    while let Some(worker) = cached.pop() {
        workers.push_reserved(take_out(worker));
    }
}

/// A worker with the backend that was beneath.
fn take_out<R: Wait + Sync, W: World, B: Backend<W>, A, C>(
    worker: Worker<Cached<'_, R, W, B>, A, C>,
) -> Worker<B, A, C>
    ensures { result ≡ beneath worker.entry }
{
    let Worker {
        backend,
        accept,
        clock,
        served,
    } = worker;
    Worker {
        backend: backend.into_inner(),
        accept,
        clock,
        served,
    }
}
