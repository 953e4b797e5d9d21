//! The deeds of a leg at its door.

ghost use Rattle.std.specs.Prelude.{◌≡◌, ℕ, Bool};
ghost use Rattle.z_types.specs.Members.{AreMembers};
ghost use Rattle.pool_sets.specs.Doors.{TakenFits};
ghost use Rattle.leg.specs.Deeds.{BackendView, took, rises_of};
ghost use Rattle.leg.specs.Kept.{LegKept, StandsAt, IsFirst};
ghost use Rattle.leg.specs.Tasks.{want_of};
ghost use Rattle.leg.specs.Terms.{lent_terms};
ghost use Rattle.leg.specs.steps.Follows.{MayCount, IsStep, Follows};
ghost use Rattle.leg.specs.declared.phases.Phase.TheVariants.{Begin, Returning, Losing, Redialling};

use crate::searches::with_set;
use crate::tasks::want_of;
use crate::{Account, Held, LegAnswer, LentTerms, Phase, Rises, Task, Turned};
use pool_sets::{Door, Seat, Taken};
use std::alloc::Global;
use z_types::{List, Mark, Sitting, World};

/// Takes a session.
pub(crate) fn take<W: World, S: Sitting<W>, D: Door<W, S>>(
    alloc: Global,
    terms: &LentTerms<'_>,
    task: &Task,
    door: &mut D,
    account: &mut Account,
    now: u64,
) -> (Phase<S>, Turned)
    requires members { AreMembers (lent_terms terms.now).at }
    requires kept { LegKept W.World S.Sitting task.now Begin account.old }
    requires counts { MayCount S (lent_terms terms.now) task.now Begin account.old }
    requires first { IsFirst account.old }
    ensures step { (exact : Bool) (backend : BackendView)
        → IsStep W.World S.Sitting (lent_terms terms.now) task.now now exact
        Begin result.0 account.old account.new result.1
        (record { pool = D.pool door.old; counts = D.counts door.old })
        (record { pool = D.pool door.new; counts = D.counts door.new })
        backend backend }
{
    let taken = door.take(
        alloc,
        terms.class,
        terms.at,
        terms.login.as_ref(),
        want_of(task),
        now,
    );
    after_take(alloc, terms, task, account, taken)
}

/// Which counts rise at what a door gave.
fn rises_of_taken<S>(task: &Task, taken: &Taken<S>) -> Rises
    ensures { result ≡ rises_of (want_of task.now) (took taken.now) }
{
    let mut rises = Rises::none();
    match taken {
        Taken::Reuse { .. } | Taken::Memory => {}
        Taken::Fresh { .. } => rises.booked = want_of(task).is_some(),
        Taken::Dial { .. } => {
            rises.opens = true;
            rises.booked = want_of(task).is_some();
        }
        Taken::Full { .. } => rises.fulls = true,
    }
    rises
}

/// Goes on with what a door gave.
fn after_take<W: World, S: Sitting<W>>(
    alloc: Global,
    terms: &LentTerms<'_>,
    task: &Task,
    account: &mut Account,
    taken: Taken<S>,
) -> (Phase<S>, Turned)
    requires kept { LegKept W.World S.Sitting task.now Begin account.old }
    requires counts { MayCount S (lent_terms terms.now) task.now Begin account.old }
    requires first { IsFirst account.old }
    requires fits { (most : ℕ) × TakenFits W.World S.Sitting (lent_terms terms.now).class
        (lent_terms terms.now).at (lent_terms terms.now).login (want_of task.now) most taken }
    ensures follows { (most now : ℕ)
        → TakenFits W.World S.Sitting (lent_terms terms.now).class (lent_terms terms.now).at
        (lent_terms terms.now).login (want_of task.now) most taken
        → Follows W.World S.Sitting (lent_terms terms.now) task.now now most
        (took taken) Begin result.0 account.old account.new result.1 }
{
    account.count(terms.class, rises_of_taken(task, &taken), false, 0);
    match taken {
        Taken::Reuse {
            seat,
            parts,
            slot,
            hits,
        } => {
            let given = true;
            let held = Held { seat, parts, given };
            with_set(alloc, terms, task, held, List::new(alloc), slot, hits)
        }
        Taken::Fresh { seat, parts } => {
            let given = true;
            let held = Held { seat, parts, given };
            let items = List::new(alloc);
            (Phase::Ready { held, items }, Turned::Went)
        }
        Taken::Dial { seat, member } => (Phase::Dialling { seat, member }, Turned::Went),
        Taken::Full { open } => {
            let answer = LegAnswer::Marked(Mark::Full(open));
            (Phase::Done { answer }, Turned::Done)
        }
        Taken::Memory => (Phase::Begin, Turned::Memory),
    }
}

/// Puts the session back.
pub(crate) fn put_back<W: World, S: Sitting<W>, D: Door<W, S>>(
    terms: &LentTerms<'_>,
    task: &Task,
    door: &mut D,
    account: &mut Account,
    held: Held<S>,
    answer: LegAnswer,
    now: u64,
) -> (Phase<S>, Turned)
    requires kept { LegKept W.World S.Sitting task.now (Returning held answer) account.old }
    requires counts { MayCount S (lent_terms terms.now) task.now
        (Returning held answer) account.old }
    requires stands { StandsAt W.World S.Sitting (lent_terms terms.now) (D.counts door.old).most
        task.now (Returning held answer) account.old }
    ensures step { (exact : Bool) (backend : BackendView)
        → IsStep W.World S.Sitting (lent_terms terms.now) task.now now exact
        (Returning held answer) result.0 account.old account.new result.1
        (record { pool = D.pool door.old; counts = D.counts door.old })
        (record { pool = D.pool door.new; counts = D.counts door.new })
        backend backend }
{
    account.count(terms.class, Rises::none(), held.given, 0);
    let Held {
        seat,
        parts,
        given: _,
    } = held;
    door.put(seat, parts, now);
    (Phase::Done { answer }, Turned::Done)
}

/// Gives the session up.
pub(crate) fn lose<W: World, S: Sitting<W>, D: Door<W, S>>(
    terms: &LentTerms<'_>,
    task: &Task,
    door: &mut D,
    account: &mut Account,
    seat: Seat,
    answer: LegAnswer,
) -> (Phase<S>, Turned)
    requires kept { LegKept W.World S.Sitting task.now (Losing seat answer) account.old }
    requires counts { MayCount S (lent_terms terms.now) task.now (Losing seat answer) account.old }
    requires stands { StandsAt W.World S.Sitting (lent_terms terms.now) (D.counts door.old).most
        task.now (Losing seat answer) account.old }
    ensures step { (now : ℕ) (exact : Bool) (backend : BackendView)
        → IsStep W.World S.Sitting (lent_terms terms.now) task.now now exact
        (Losing seat answer) result.0 account.old account.new result.1
        (record { pool = D.pool door.old; counts = D.counts door.old })
        (record { pool = D.pool door.new; counts = D.counts door.new })
        backend backend }
{
    account.count(terms.class, Rises::none(), false, 0);
    door.lost(seat);
    (Phase::Done { answer }, Turned::Done)
}

/// Has another member named in the place of a session that came from the pool and failed.
pub(crate) fn redial<W: World, S: Sitting<W>, D: Door<W, S>>(
    terms: &LentTerms<'_>,
    task: &Task,
    door: &mut D,
    account: &mut Account,
    mut seat: Seat,
) -> (Phase<S>, Turned)
    requires members { AreMembers (lent_terms terms.now).at }
    requires kept { LegKept W.World S.Sitting task.now (Redialling seat) account.old }
    requires counts { MayCount S (lent_terms terms.now) task.now (Redialling seat) account.old }
    ensures step { (now : ℕ) (exact : Bool) (backend : BackendView)
        → IsStep W.World S.Sitting (lent_terms terms.now) task.now now exact
        (Redialling seat) result.0 account.old account.new result.1
        (record { pool = D.pool door.old; counts = D.counts door.old })
        (record { pool = D.pool door.new; counts = D.counts door.new })
        backend backend }
{
    let mut rises = Rises::none();
    rises.opens = true;
    account.count(terms.class, rises, false, 0);
    let member = door.redial(&mut seat, terms.at);
    (Phase::Dialling { seat, member }, Turned::Went)
}
