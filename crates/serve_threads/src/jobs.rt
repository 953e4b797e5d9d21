//! A job: a worker with its shares.

ghost use Rattle.std.specs.Prelude.{◌<◌, ◌+◌};
ghost use Rattle.serve_threads.specs.steps.Jobs.{IsDone, amounts};

use gw_outside::{Accept, Backend, Clock};
use pool_locked::{Counted, LockedDoor};
use pool_sets::Door;
use route_config::Route;
use serve::{Worked, Worker, work};
use std::alloc::Global;
use std::mem;
use std::sync::ledger::{Ledger, Share};
use std::sync::{Mutex, Wait};
use z_types::World;

/// A worker with a share of each ledger, and how its loop ended.
#[derive(Drop)]
pub(crate) struct Job<B, A, C, L: Ledger, M: Ledger, O: Ledger> {
    pub worker: Worker<B, A, C>,
    pub booked: Share<L>,
    pub fulls: Share<M>,
    pub opens: Share<O>,
    pub worked: Worked,
    ghost booked_part: { 0 < booked.parts },
    ghost fulls_part: { 0 < fulls.parts },
    ghost opens_part: { 0 < opens.parts },
}

/// Does a job: its worker serves over the locked pool, and counts in the job's shares.
pub(crate) fn run<
    R: Wait + Sync,
    W: World,
    B: Backend<W>,
    P: Door<W, B::Session> + Drop,
    A: Accept,
    C: Clock,
    L: Ledger,
    M: Ledger,
    O: Ledger,
    Q: Ledger,
>(
    rt: &R,
    alloc: Global,
    route: &Route,
    pool: &Mutex<Counted<W, B::Session, P, L, M, O, Q>>,
    most: u32,
    job: &mut Job<B, A, C, L, M, O>,
)
    ensures done { IsDone W.World A.In.Source A.Out.Sink A.Accept B.Watched route.now most
        job.old.worker (amounts job.old.fulls.amount job.old.opens.amount job.old.booked.amount)
        job.new.worker (amounts job.new.fulls.amount job.new.opens.amount job.new.booked.amount)
        job.new.worked }
{
    let none = job.booked.empty();
    let booked = mem::replace(&mut job.booked, none);
    let none = job.fulls.empty();
    let fulls = mem::replace(&mut job.fulls, none);
    let none = job.opens.empty();
    let opens = mem::replace(&mut job.opens, none);
    let mut door = LockedDoor::new(rt, pool, most, booked, fulls, opens);
    job.worked = work(rt, alloc, route, &mut door, &mut job.worker);
    let (booked, fulls, opens) = door.shares();
    job.booked = booked;
    job.fulls = fulls;
    job.opens = opens;
}
