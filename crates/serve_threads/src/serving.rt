//! Workers that serve over one pool.

ghost use Rattle.std.specs.Prelude.{◌≡◌, [], Some, vec_len, is_some, true};
ghost use Rattle.pool_core.specs.PoolView.{pool_of};
ghost use Rattle.pool_locked.specs.Books.{counts_of};
ghost use Rattle.serve_threads.specs.Serving.{AreBooked, HaveServed};

use crate::ends::worst;
use crate::moving::{make_jobs, take_back};
use crate::threads::do_jobs;
use gw_outside::{Accept, Backend, Clock};
use pool_locked::Counted;
use pool_sets::Door;
use route_config::Route;
use serve::{Worked, Worker};
use std::alloc::Global;
use std::marker::Brand;
use std::sync::ledger::{Blank, Ledger};
use std::sync::{Mutex, Wait};
use std::thread::Threads;
use z_types::World;

/// Four new ledgers, which no type stands for yet.
#[derive(Drop)]
struct Blanks {
    booked: Blank,
    fulls: Blank,
    opens: Blank,
    most: Blank,
}

/// Serves the workers' connections, each worker in a thread of its own, over one new pool of the route's
/// numbers, which they share behind a lock. It tells how they ended: by a failed accept (`Failed`), for want
/// of memory (`Memory`), or each by the end of its connections (`Ended`), and hands the pool back. In any
/// case the workers stay the same, in the same order.
pub fn serve_all<
    R: Threads + Wait + Sync,
    W: World + Send + Sync,
    B: Backend<W, Session: Send> + Drop + Send,
    P: Door<W, B::Session> + Drop + Send,
    A: Accept<In: Send, Out: Send> + Drop + Send,
    C: Clock + Drop + Send,
>(rt: &R, alloc: Global, route: &Route, pool: P, workers: &mut Vec<Worker<B, A, C>>) -> (Worked, P)
    requires pool { P.pool pool ≡ Some (pool_of route.now.pool 0 []) }
    requires new { P.counts pool ≡ counts_of route.now.pool.max_sessions 0 0 0 }
    ensures served { HaveServed W.World A.In.Source A.Out.Sink A.Accept B.Watched route.now
        route.now.pool.max_sessions workers.old.items workers.new.items result.0 }

    // What all of them searched was booked at the pool.
    ensures booked { AreBooked B.Watched
        (P.counts result.1).booked workers.old.items workers.new.items }
{
    let most = route.parts().pool.max_sessions;
    let parts = workers.len() as u64;
    let blanks = Blanks {
        booked: Blank::new(parts),
        fulls: Blank::new(parts),
        opens: Blank::new(parts),
        most: Blank::new(1),
    };
    serve_over::<R, W, B, P, A, C, Brand, Brand, Brand, Brand>(
        rt, alloc, route, pool, most, workers, blanks,
    )
}

/// Serves over a pool, whose counts are those of four new ledgers.
fn serve_over<
    R: Threads + Wait + Sync,
    W: World + Send + Sync,
    B: Backend<W, Session: Send> + Drop + Send,
    P: Door<W, B::Session> + Drop + Send,
    A: Accept<In: Send, Out: Send> + Drop + Send,
    C: Clock + Drop + Send,
    L: Ledger + Send + Sync,
    M: Ledger + Send + Sync,
    O: Ledger + Send + Sync,
    Q: Ledger + Send + Sync,
>(
    rt: &R,
    alloc: Global,
    route: &Route,
    pool: P,
    most: u32,
    workers: &mut Vec<Worker<B, A, C>>,
    blanks: Blanks,
) -> (Worked, P)
    requires told { is_some (P.pool pool) ≡ true }
    requires new { P.counts pool ≡ counts_of most 0 0 0 }
    requires names { (blanks.booked.name ≡ L.name) × (blanks.fulls.name ≡ M.name)
        × (blanks.opens.name ≡ O.name) × (blanks.most.name ≡ Q.name) }
    requires booked { (blanks.booked.parts ≡ L.parts)
        × (blanks.booked.parts ≡ vec_len workers.old) }
    requires fulls { (blanks.fulls.parts ≡ M.parts)
        × (blanks.fulls.parts ≡ vec_len workers.old) }
    requires opens { (blanks.opens.parts ≡ O.parts)
        × (blanks.opens.parts ≡ vec_len workers.old) }
    requires most { (blanks.most.parts ≡ Q.parts) × (blanks.most.parts ≡ 1) }
    ensures served { HaveServed W.World A.In.Source A.Out.Sink A.Accept B.Watched route.now most
        workers.old.items workers.new.items result.0 }
    ensures booked { AreBooked B.Watched
        (P.counts result.1).booked workers.old.items workers.new.items }
{
    let (booked_book, mut booked) = blanks.booked.open::<L>();
    let (fulls_book, mut fulls) = blanks.fulls.open::<M>();
    let (opens_book, mut opens) = blanks.opens.open::<O>();
    let (mut most_book, mut most_share) = blanks.most.open::<Q>();
    most_book.add(&mut most_share, u64::from(most));
    let counted = Counted::new(pool, booked_book, fulls_book, opens_book, most_book);
    let pool = Mutex::new(counted);
    let Ok(mut jobs) = make_jobs(alloc, workers, &mut booked, &mut fulls, &mut opens) else {
        return (Worked::Memory, pool.into_inner().into_door());
    };
    do_jobs(rt, alloc, route, &pool, most, &mut jobs);
    let worked = worst(jobs.as_slice());
    take_back(jobs, workers, &mut booked, &mut fulls, &mut opens);
    let mut pool = pool.into_inner();
    pool.audit(&mut booked, &mut fulls, &mut opens, &mut most_share);
    (worked, pool.into_door())
}
