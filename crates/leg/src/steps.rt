//! The steps of a leg, from phase to phase.

ghost use Rattle.std.specs.Prelude.{◌≡◌, ℕ, Bool};
ghost use Rattle.z_types.specs.Members.{AreMembers};
ghost use Rattle.unit_forms.specs.Logins.{IsLoginIf};
ghost use Rattle.gw_outside.specs.Asks.{AreFewShort};
ghost use Rattle.leg.specs.Deeds.{BackendView};
ghost use Rattle.leg.specs.Kept.{LegKept, StandsAt};
ghost use Rattle.leg.specs.Terms.{lent_terms};
ghost use Rattle.leg.specs.steps.Awaited.{is_waiting, IsAsking, IsWaiting};
ghost use Rattle.leg.specs.steps.Follows.{MayCount, IsStep};
ghost use Rattle.leg.specs.Turns.{DoorView};
ghost use Rattle.leg.specs.declared.phases.Phase.TheVariants.{Done, Spoiled, Ended};

use crate::doors::{lose, put_back, redial, take};
use crate::opens::{dial, wait_for_init};
use crate::presents::{present, wait_for_items};
use crate::scans::{scan, wait_for_entries};
use crate::searches::{search, wait_for_hits};
use crate::{Account, LegAnswer, LentTerms, Phase, Rises, Task, Turned};
use gw_outside::Backend;
use pool_sets::{Door, Seat};
use std::alloc::Global;
use z_types::{Sitting, World};

/// One turn of a leg, by its phase.
pub(crate) fn turn_phase<W: World, S: Sitting<W>, B: Backend<W, Session = S>, D: Door<W, S>>(
    alloc: Global,
    terms: &LentTerms<'_>,
    task: &Task,
    phase: Phase<S>,
    account: &mut Account,
    backend: &mut B,
    door: &mut D,
    now: u64,
) -> (Phase<S>, Turned)
    requires members { AreMembers (lent_terms terms.now).at }
    requires login { IsLoginIf (lent_terms terms.now).login }
    requires dbs { AreFewShort (lent_terms terms.now).dbs }
    requires kept { LegKept W.World S.Sitting task.now phase account.old }
    requires counts { MayCount S (lent_terms terms.now) task.now phase account.old }
    requires stands { StandsAt W.World S.Sitting (lent_terms terms.now) (D.counts door.old).most
        task.now phase account.old }
    ensures step { IsStep W.World S.Sitting (lent_terms terms.now) task.now now B.exact
        phase result.0 account.old account.new result.1
        (record { pool = D.pool door.old; counts = D.counts door.old })
        (record { pool = D.pool door.new; counts = D.counts door.new })
        (record { counts = B.counts backend.old; happened = B.happened backend.old })
        (record { counts = B.counts backend.new; happened = B.happened backend.new }) }
{
    match phase {
        Phase::Begin => take(alloc, terms, task, door, account, now),
        Phase::Returning { held, answer } => {
            put_back(terms, task, door, account, held, answer, now)
        }
        Phase::Losing { seat, answer } => lose(terms, task, door, account, seat, answer),
        Phase::Redialling { seat } => redial(terms, task, door, account, seat),
        Phase::Done { answer } => stay_done(terms, task, account, answer),
        Phase::Spoiled { seat } => stay_spoiled(terms, task, account, seat),
        Phase::Ended => stay_ended(terms, task, account),
        other => {
            if is_waiting(&other) {
                return hear(alloc, terms, task, other, account, backend, now);
            }
            open_or_ask(alloc, terms, task, other, account, backend)
        }
    }
}

/// Whether a reply is awaited.
fn is_waiting<S>(phase: &Phase<S>) -> bool
    ensures { result ≡ is_waiting phase.now }
{
    matches!(
        phase,
        Phase::Dialled { .. }
            | Phase::Searching { .. }
            | Phase::Fetching { .. }
            | Phase::Scanning { .. }
    )
}

/// Opens a session, or asks it.
fn open_or_ask<W: World, S: Sitting<W>, B: Backend<W, Session = S>>(
    alloc: Global,
    terms: &LentTerms<'_>,
    task: &Task,
    phase: Phase<S>,
    account: &mut Account,
    backend: &mut B,
) -> (Phase<S>, Turned)
    requires members { AreMembers (lent_terms terms.now).at }
    requires login { IsLoginIf (lent_terms terms.now).login }
    requires asks { IsAsking W.World S.Sitting (lent_terms terms.now) phase }
    requires dbs { AreFewShort (lent_terms terms.now).dbs }
    requires kept { LegKept W.World S.Sitting task.now phase account.old }
    requires counts { MayCount S (lent_terms terms.now) task.now phase account.old }
    ensures step { (now : ℕ) (door : DoorView S)
        → IsStep W.World S.Sitting (lent_terms terms.now) task.now now B.exact
        phase result.0 account.old account.new result.1 door door
        (record { counts = B.counts backend.old; happened = B.happened backend.old })
        (record { counts = B.counts backend.new; happened = B.happened backend.new }) }
{
    match phase {
        Phase::Dialling { seat, member } => {
            dial(alloc, terms, task, backend, account, seat, member)
        }
        Phase::Ready { held, items } => match task {
            Task::Hits { key } | Task::Records { key, .. } => {
                search(alloc, terms, task, key, backend, account, held, items)
            }
            Task::Scan { ask } => scan(alloc, terms, task, ask, backend, account, held, items),
        },
        Phase::Presenting {
            held,
            items,
            slot,
            hits,
        } => present(
            alloc, terms, task, backend, account, held, items, slot, hits,
        ),
        _ => unreachable!(),
    }
}

/// Looks for the reply that is awaited.
fn hear<W: World, S: Sitting<W>, B: Backend<W, Session = S>>(
    alloc: Global,
    terms: &LentTerms<'_>,
    task: &Task,
    phase: Phase<S>,
    account: &mut Account,
    backend: &mut B,
    now: u64,
) -> (Phase<S>, Turned)
    requires waits { IsWaiting W.World S.Sitting (lent_terms terms.now) task.now phase }
    requires kept { LegKept W.World S.Sitting task.now phase account.old }
    requires counts { MayCount S (lent_terms terms.now) task.now phase account.old }
    ensures step { (door : DoorView S)
        → IsStep W.World S.Sitting (lent_terms terms.now) task.now now B.exact
        phase result.0 account.old account.new result.1 door door
        (record { counts = B.counts backend.old; happened = B.happened backend.old })
        (record { counts = B.counts backend.new; happened = B.happened backend.new }) }
{
    match phase {
        Phase::Dialled { held, looks } => {
            wait_for_init(alloc, terms, task, backend, account, held, looks)
        }
        Phase::Searching {
            held,
            items,
            slot,
            looks,
        } => wait_for_hits(
            alloc, terms, task, backend, account, held, items, slot, looks, now,
        ),
        Phase::Fetching {
            held,
            items,
            slot,
            hits,
            looks,
        } => wait_for_items(
            alloc, terms, task, backend, account, held, items, slot, hits, looks,
        ),
        Phase::Scanning { held, looks } => {
            wait_for_entries(alloc, terms, task, backend, account, held, looks)
        }
        _ => unreachable!(),
    }
}

/// A leg that is done does nothing.
fn stay_done<W: World, S: Sitting<W>>(
    terms: &LentTerms<'_>,
    task: &Task,
    account: &mut Account,
    answer: LegAnswer,
) -> (Phase<S>, Turned)
    requires kept { LegKept W.World S.Sitting task.now (Done answer) account.old }
    requires counts { MayCount S (lent_terms terms.now) task.now (Done answer) account.old }
    ensures step { (now : ℕ) (exact : Bool) (door : DoorView S) (backend : BackendView)
        → StandsAt W.World S.Sitting (lent_terms terms.now) door.counts.most
        task.now (Done answer) account.old
        → IsStep W.World S.Sitting (lent_terms terms.now) task.now now exact
        (Done answer) result.0 account.old account.new result.1 door door backend backend }
{
    account.count(terms.class, Rises::none(), false, 0);
    (Phase::Done { answer }, Turned::Done)
}

/// A leg that has only its seat does nothing.
fn stay_spoiled<W: World, S: Sitting<W>>(
    terms: &LentTerms<'_>,
    task: &Task,
    account: &mut Account,
    seat: Seat,
) -> (Phase<S>, Turned)
    requires kept { LegKept W.World S.Sitting task.now (Spoiled seat) account.old }
    requires counts { MayCount S (lent_terms terms.now) task.now (Spoiled seat) account.old }
    ensures step { (now : ℕ) (exact : Bool) (door : DoorView S) (backend : BackendView)
        → IsStep W.World S.Sitting (lent_terms terms.now) task.now now exact
        (Spoiled seat) result.0 account.old account.new result.1 door door backend backend }
{
    account.count(terms.class, Rises::none(), false, 0);
    (Phase::Spoiled { seat }, Turned::Memory)
}

/// A leg that was given up does nothing.
fn stay_ended<W: World, S: Sitting<W>>(
    terms: &LentTerms<'_>,
    task: &Task,
    account: &mut Account,
) -> (Phase<S>, Turned)
    requires kept { LegKept W.World S.Sitting task.now Ended account.old }
    requires counts { MayCount S (lent_terms terms.now) task.now Ended account.old }
    ensures step { (now : ℕ) (exact : Bool) (door : DoorView S) (backend : BackendView)
        → IsStep W.World S.Sitting (lent_terms terms.now) task.now now exact
        Ended result.0 account.old account.new result.1 door door backend backend }
{
    account.count(terms.class, Rises::none(), false, 0);
    (Phase::Ended, Turned::Memory)
}
