//! Workers that serve over one pool and one store.

ghost use Rattle.std.specs.Prelude.{◌≡◌, [], Some};
ghost use Rattle.pool_core.specs.PoolView.{pool_of};
ghost use Rattle.pool_locked.specs.Books.{counts_of};
ghost use Rattle.serve_threads.specs.Serving.{AreBooked, HaveServed};

use crate::moving::{over_store, take_back};
use cache_backend::{CachedBackend, CachedSession};
use cache_locked::LockedCache;
use gw_outside::{Accept, Backend, Clock, Watched};
use pool_sets::Door;
use record_cache::{RecordCache, Store};
use route_config::Route;
use serve_threads::serve::{Worked, Worker};
use serve_threads::serve_all;
use std::alloc::Global;
use std::sync::{Mutex, Wait};
use std::thread::Threads;
use z_types::World;

/// Serves as `serve_all` does, with one store of records, which the workers share behind a lock: a Present
/// whose first records the store has is answered by these, and records that targets give are kept. It tells how
/// they ended, and hands the pool back. In any case the workers stay the same, in the same order.
pub fn serve_all_cached<
    R: Threads + Wait + Sync,
    W: World + Send + Sync,
    B: Backend<W, Session: Send> + Drop + Send,
    P: Door<W, CachedSession<W, B::Session>> + Drop + Send,
    A: Accept<In: Send, Out: Send> + Drop + Send,
    C: Clock + Drop + Send,
>(
    rt: &R,
    alloc: Global,
    route: &Route,
    pool: P,
    store: RecordCache<W>,
    workers: &mut Vec<Worker<B, A, C>>,
) -> (Worked, P)
    requires pool { P.pool pool ≡ Some (pool_of route.now.pool 0 []) }
    requires new { P.counts pool ≡ counts_of route.now.pool.max_sessions 0 0 0 }
    ensures served { HaveServed W.World A.In.Source A.Out.Sink A.Accept B.Watched route.now
        route.now.pool.max_sessions workers.old.items workers.new.items result.0 }

    // What all of them searched was booked at the pool.
    ensures booked { AreBooked B.Watched
        (P.counts result.1).booked workers.old.items workers.new.items }
{
    let store = Mutex::new(store);
    let record_bytes = route.parts().cache_record_bytes;
    let Ok(mut cached) = over_store(rt, alloc, &store, record_bytes, workers) else {
        return (Worked::Memory, pool);
    };
    let came = serve_over::<R, W, B, LockedCache<R, W>, P, A, C>(
        rt,
        alloc,
        route,
        pool,
        &mut cached,
    );
    take_back(cached, workers);
    came
}

/// Serves over backends with stores.
fn serve_over<
    R: Threads + Wait + Sync,
    W: World + Send + Sync,
    B: Backend<W, Session: Send> + Drop + Send,
    T: Store<W> + Drop + Send,
    P: Door<W, CachedSession<W, B::Session>> + Drop + Send,
    A: Accept<In: Send, Out: Send> + Drop + Send,
    C: Clock + Drop + Send,
>(
    rt: &R,
    alloc: Global,
    route: &Route,
    pool: P,
    cached: &mut Vec<Worker<CachedBackend<W, B, T>, A, C>>,
) -> (Worked, P)
    requires pool { P.pool pool ≡ Some (pool_of route.now.pool 0 []) }
    requires new { P.counts pool ≡ counts_of route.now.pool.max_sessions 0 0 0 }
    ensures served { HaveServed W.World A.In.Source A.Out.Sink A.Accept
        ⟦<CachedBackend<W, B, T> as Watched>⟧ route.now
        route.now.pool.max_sessions cached.old.items cached.new.items result.0 }
    ensures booked { AreBooked ⟦<CachedBackend<W, B, T> as Watched>⟧
        (P.counts result.1).booked cached.old.items cached.new.items }
{
    serve_all::<R, W, CachedBackend<W, B, T>, P, A, C>(rt, alloc, route, pool, cached)
}
