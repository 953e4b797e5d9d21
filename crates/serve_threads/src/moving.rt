//! Workers, moved into jobs and back.

ghost use Rattle.std.specs.Prelude.{◌≡◌, ◌≤◌, ◌+◌, ◌++◌, [], IfOk, OnErr, OnOk, map, reverse, vec_len, vec_capacity};
ghost use Rattle.std.specs.List.{AllByRecursion, sum_by};
ghost use Rattle.serve_threads.specs.steps.Jobs.{amounts};

use crate::jobs::Job;
use serve::{Worked, Worker};
use std::alloc::Global;
use std::sync::ledger::{Ledger, Share};
use z_types::Memory;

/// Moves the workers into jobs, each with one part of each ledger; without memory all stay.
pub(crate) fn make_jobs<B: Drop, A: Drop, C: Drop, L: Ledger, M: Ledger, O: Ledger>(
    alloc: Global,
    workers: &mut Vec<Worker<B, A, C>>,
    booked: &mut Share<L>,
    fulls: &mut Share<M>,
    opens: &mut Share<O>,
) -> Result<Vec<Job<B, A, C, L, M, O>>, Memory>
    requires parts { (vec_len workers.old ≤ booked.old.parts)
        × (vec_len workers.old ≤ fulls.old.parts) × (vec_len workers.old ≤ opens.old.parts) }
    requires nothing { (booked.old.amount ≡ 0) × (fulls.old.amount ≡ 0) × (opens.old.amount ≡ 0) }
    ensures err { OnErr result (workers.new.items ≡ workers.old.items) }
    ensures moved { IfOk result (λ jobs.
        reverse (map (λ job. job.worker) jobs.items) ≡ workers.old.items) }
    ensures nothing { IfOk result (λ jobs. AllByRecursion (λ job.
        amounts job.fulls.amount job.opens.amount job.booked.amount ≡ amounts 0 0 0) jobs.items) }
    ensures none { OnOk result
        ((booked.new.amount ≡ 0) × (fulls.new.amount ≡ 0) × (opens.new.amount ≡ 0)) }
    ensures left { OnOk result (workers.new.items ≡ []) }
    ensures room { vec_capacity workers.new ≡ vec_capacity workers.old }
    ensures parts { OnOk result ((booked.new.parts + vec_len workers.old ≡ booked.old.parts)
        × (fulls.new.parts + vec_len workers.old ≡ fulls.old.parts)
        × (opens.new.parts + vec_len workers.old ≡ opens.old.parts)) }
{
    let mut jobs = Vec::with_capacity(alloc, workers.len())?;
    while let Some(worker) = workers.pop() {
        jobs.push_reserved(Job {
            worker,
            booked: booked.split_off(1, 0),
            fulls: fulls.split_off(1, 0),
            opens: opens.split_off(1, 0),
            worked: Worked::Ended,
        });
    }
    Ok(jobs)
}

/// Moves the workers back, and merges the shares.
pub(crate) fn take_back<B: Drop, A: Drop, C: Drop, L: Ledger, M: Ledger, O: Ledger>(
    mut jobs: Vec<Job<B, A, C, L, M, O>>,
    workers: &mut Vec<Worker<B, A, C>>,
    booked: &mut Share<L>,
    fulls: &mut Share<M>,
    opens: &mut Share<O>,
)
    requires room { vec_len workers.old + vec_len jobs ≤ vec_capacity workers.old }
    requires bound { (booked.old.parts ≤ L.parts) × (fulls.old.parts ≤ M.parts)
        × (opens.old.parts ≤ O.parts) }
    ensures moved { workers.new.items
        ≡ workers.old.items ++ reverse (map (λ job. job.worker) jobs.items) }
    ensures booked { booked.new.amount
        ≡ booked.old.amount + sum_by (λ job. job.booked.amount) jobs.items }
    ensures fulls { fulls.new.amount
        ≡ fulls.old.amount + sum_by (λ job. job.fulls.amount) jobs.items }
    ensures opens { opens.new.amount
        ≡ opens.old.amount + sum_by (λ job. job.opens.amount) jobs.items }
    ensures parts { (booked.old.parts + vec_len jobs ≤ booked.new.parts)
        × (fulls.old.parts + vec_len jobs ≤ fulls.new.parts)
        × (opens.old.parts + vec_len jobs ≤ opens.new.parts) }
    ensures bound { (booked.new.parts ≤ L.parts) × (fulls.new.parts ≤ M.parts)
        × (opens.new.parts ≤ O.parts) }
{
    while let Some(job) = jobs.pop() {
        let Job {
            worker,
            booked: own_booked,
            fulls: own_fulls,
            opens: own_opens,
            worked: _,
        } = job;
        booked.merge(own_booked);
        fulls.merge(own_fulls);
        opens.merge(own_opens);
        workers.push_reserved(worker);
    }
}
