//! Jobs, each done in a thread of its own.

ghost use Rattle.std.specs.Prelude.{ℕ, ◌≡◌, ◌<◌, length, vec_len, slice_index_or};
ghost use Rattle.std.specs.List.{AllZip};
ghost use Rattle.serve_threads.specs.steps.Jobs.{IsDone, amounts};

use crate::jobs::{Job, run};
use gw_outside::{Accept, Backend, Clock};
use pool_locked::Counted;
use pool_sets::Door;
use route_config::Route;
use std::alloc::Global;
use std::sync::ledger::Ledger;
use std::sync::{Mutex, Wait};
use std::thread;
use std::thread::Threads;
use z_types::World;

/// Does all jobs at once.
pub(crate) fn run_all<
    R: Threads + Wait + Sync,
    W: World + Send + Sync,
    B: Backend<W, Session: Send> + Send,
    P: Door<W, B::Session> + Drop + Send,
    A: Accept<In: Send, Out: Send> + Send,
    C: Clock + Send,
    L: Ledger + Send + Sync,
    M: Ledger + Send + Sync,
    O: Ledger + Send + Sync,
    Q: Ledger + Send + Sync,
>(
    rt: &R,
    alloc: Global,
    route: &Route,
    pool: &Mutex<Counted<W, B::Session, P, L, M, O, Q>>,
    most: u32,
    jobs: &mut [Job<B, A, C, L, M, O>],
)
    ensures done { (place : ℕ) (d : _) → place < length jobs.old
        → IsDone W.World A.In.Source A.Out.Sink A.Accept B.Watched route.now most
        (slice_index_or jobs.old place d).worker
        (amounts (slice_index_or jobs.old place d).fulls.amount
        (slice_index_or jobs.old place d).opens.amount
        (slice_index_or jobs.old place d).booked.amount)
        (slice_index_or jobs.new place d).worker
        (amounts (slice_index_or jobs.new place d).fulls.amount
        (slice_index_or jobs.new place d).opens.amount
        (slice_index_or jobs.new place d).booked.amount)
        (slice_index_or jobs.new place d).worked }
{
    let threads = jobs.len().max(1);
    let each = move |_place: usize, job: &mut Job<B, A, C, L, M, O>|
        requires { Unit {0} }
        ensures { IsDone W.World A.In.Source A.Out.Sink A.Accept B.Watched route.entry.now most
            job.old.worker
            (amounts job.old.fulls.amount job.old.opens.amount job.old.booked.amount)
            job.new.worker
            (amounts job.new.fulls.amount job.new.opens.amount job.new.booked.amount)
            job.new.worked }
    { run(rt, alloc, route, pool, most, job) };
    thread::for_each_mut(rt, jobs, threads, &each);
}

/// Does all jobs of a vector at once.
pub(crate) fn do_jobs<
    R: Threads + Wait + Sync,
    W: World + Send + Sync,
    B: Backend<W, Session: Send> + Send,
    P: Door<W, B::Session> + Drop + Send,
    A: Accept<In: Send, Out: Send> + Send,
    C: Clock + Send,
    L: Ledger + Send + Sync,
    M: Ledger + Send + Sync,
    O: Ledger + Send + Sync,
    Q: Ledger + Send + Sync,
>(
    rt: &R,
    alloc: Global,
    route: &Route,
    pool: &Mutex<Counted<W, B::Session, P, L, M, O, Q>>,
    most: u32,
    jobs: &mut Vec<Job<B, A, C, L, M, O>>,
)
    ensures done { AllZip (λ old new.
        IsDone W.World A.In.Source A.Out.Sink A.Accept B.Watched route.now most
        old.worker (amounts old.fulls.amount old.opens.amount old.booked.amount)
        new.worker (amounts new.fulls.amount new.opens.amount new.booked.amount) new.worked)
        jobs.old.items jobs.new.items }
    ensures len { vec_len jobs.new ≡ vec_len jobs.old }
{
    run_all(rt, alloc, route, pool, most, jobs.as_mut_slice());
}
