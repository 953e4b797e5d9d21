//! How jobs ended, all in all.

ghost use Rattle.std.specs.Prelude.{◌≡◌, map};
ghost use Rattle.serve.specs.declared.working.Worked.TheVariants.{Ended};
ghost use Rattle.serve_threads.specs.steps.Jobs.{worse, worst_after};

use crate::jobs::Job;
use serve::Worked;
use std::sync::ledger::Ledger;

/// Of all ends of jobs the one that is told.
pub(crate) fn worst<B, A, C, L: Ledger, M: Ledger, O: Ledger>(
    jobs: &[Job<B, A, C, L, M, O>],
) -> Worked
    ensures { result ≡ worst_after Ended (map (λ job. job.worked) jobs.now) }
{
    let mut worst = Worked::Ended;
    for job in jobs {
        worst = worse(worst, job.worked);
    }
    worst
}

/// Of two ends the one that is told.
fn worse(worked: Worked, other: Worked) -> Worked
    ensures { result ≡ worse worked other }
{
    match worked {
        Worked::Failed => Worked::Failed,
        Worked::Ended => other,
        Worked::Memory => match other {
            Worked::Failed => Worked::Failed,
            Worked::Ended | Worked::Memory => Worked::Memory,
        },
    }
}
