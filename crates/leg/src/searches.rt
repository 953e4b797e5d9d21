//! How a leg searches.

ghost use Rattle.std.specs.Prelude.{◌≡◌, ◌<◌, ◌+◌, ℕ, Contains, Some, Ok, IfOk};
ghost use Rattle.z_types.specs.Pending.{resting};
ghost use Rattle.z_types.specs.declared.ask.Ask.TheVariants as asks;
ghost use Rattle.pool_sets.specs.Doors.{HasWanted};
ghost use Rattle.pool_sets.specs.Kept.{slot_name};
ghost use Rattle.leg.specs.Deeds as deed;
ghost use Rattle.leg.specs.Kept.{LegKept, StandsAt, SessionKept, IsHeld, ItemsKept};
ghost use Rattle.leg.specs.Phases.{is_done};
ghost use Rattle.leg.specs.steps.Replies.{SearchHeard, IsFound};
ghost use Rattle.leg.specs.Rules.{with_set, recorded, out_of_range};
ghost use Rattle.leg.specs.Tasks.{want_of, MayDo};
ghost use Rattle.leg.specs.Terms.{lent_terms, sites};
ghost use Rattle.leg.specs.steps.Follows.{MayCount, IsStep, Follows, GoesOn};
ghost use Rattle.leg.specs.Turns.{DoorView, is_done_answer};
ghost use Rattle.leg.specs.declared.accounts.Account.{Account};
ghost use Rattle.leg.specs.declared.answers.LegAnswer.TheVariants.{Broken};
ghost use Rattle.leg.specs.declared.phases.Phase.TheVariants.{Ready, Searching, Returning, Spoiled};

use crate::hearing::{count_look, count_start};
use crate::phases::{after_fault, diag_of, silent};
use crate::tasks::want_of;
use crate::{Account, Held, LegAnswer, LentTerms, Phase, Rises, Task, Turned};
use gw_outside::{Backend, Began, Heard};
use std::alloc::Global;
use z_types::{Ask, Condition, Diag, Item, List, Memory, SetKey, Sitting, Text, World, copy};

/// The name of a slot.
pub(crate) fn slot_name(alloc: Global, slot: u32) -> Result<Text, Memory>
    ensures { IfOk result (λ name. name ≡ slot_name slot) }
{
    let text = format!(in alloc; "{slot}")?;
    Text::copy_of(alloc, text.as_bytes())
}

/// The search for a key under a slot.
fn search_for(alloc: Global, slot: u32, key: &SetKey) -> Result<Ask, Memory>
    ensures { IfOk result (λ ask. ask ≡ asks.Search (slot_name slot) key.now) }
{
    Ok(Ask::Search {
        name: slot_name(alloc, slot)?,
        key: copy(key)?,
    })
}

/// Sends the search of a key, under a slot that has room: the key that it had is forgotten before.
pub(crate) fn search<W: World, S: Sitting<W>, B: Backend<W, Session = S>>(
    alloc: Global,
    terms: &LentTerms<'_>,
    task: &Task,
    key: &SetKey,
    backend: &mut B,
    account: &mut Account,
    mut held: Held<S>,
    items: List<Item>,
) -> (Phase<S>, Turned)
    requires wants { want_of task.now ≡ Some key.now }
    requires kept { LegKept W.World S.Sitting task.now (Ready held items) account.old }
    requires counts { MayCount S (lent_terms terms.now) task.now (Ready held items) account.old }
    requires among { Contains (sites (lent_terms terms.now)) held.parts.address }
    ensures step { (now : ℕ) (door : DoorView S)
        → IsStep W.World S.Sitting (lent_terms terms.now) task.now now B.exact
        (Ready held items) result.0 account.old account.new result.1 door door
        (record { counts = B.counts backend.old; happened = B.happened backend.old })
        (record { counts = B.counts backend.new; happened = B.happened backend.new }) }
{
    let slot = held.parts.table.room();
    let Ok(ask) = search_for(alloc, slot, key) else {
        account.count(terms.class, Rises::none(), held.given, 0);
        drop((held.parts, items));
        return (Phase::Spoiled { seat: held.seat }, Turned::Memory);
    };
    let began = backend.start(alloc, &mut held.parts.session, &ask);
    count_start(account, terms.class, &ask, began, held.given);
    drop(ask);
    let looks = 0;
    match began {
        Began::Started => (
            Phase::Searching {
                held,
                items,
                slot,
                looks,
            },
            Turned::Went,
        ),
        Began::Failed => {
            drop(items);
            (after_fault(held), Turned::Went)
        }
        Began::Memory => {
            drop((held.parts, items));
            (Phase::Spoiled { seat: held.seat }, Turned::Memory)
        }
    }
}

/// Looks for the reply to the search.
pub(crate) fn wait_for_hits<W: World, S: Sitting<W>, B: Backend<W, Session = S>>(
    alloc: Global,
    terms: &LentTerms<'_>,
    task: &Task,
    backend: &mut B,
    account: &mut Account,
    mut held: Held<S>,
    items: List<Item>,
    slot: u32,
    looks: u32,
    now: u64,
) -> (Phase<S>, Turned)
    requires kept { LegKept W.World S.Sitting task.now
        (Searching held items slot looks) account.old }
    requires counts { MayCount S (lent_terms terms.now) task.now
        (Searching held items slot looks) account.old }
    requires among { Contains (sites (lent_terms terms.now)) held.parts.address }
    ensures step { (door : DoorView S)
        → IsStep W.World S.Sitting (lent_terms terms.now) task.now now B.exact
        (Searching held items slot looks) result.0 account.old account.new result.1 door door
        (record { counts = B.counts backend.old; happened = B.happened backend.old })
        (record { counts = B.counts backend.new; happened = B.happened backend.new }) }
{
    let heard = backend.look(alloc, &mut held.parts.session);
    after_search(
        alloc, terms, task, account, held, items, slot, looks, heard, now,
    )
}

/// Goes on with what was heard of the search.
fn after_search<W: World, S: Sitting<W>>(
    alloc: Global,
    terms: &LentTerms<'_>,
    task: &Task,
    account: &mut Account,
    mut held: Held<S>,
    items: List<Item>,
    slot: u32,
    looks: u32,
    heard: Heard,
    now: u64,
) -> (Phase<S>, Turned)
    requires may { MayDo task.now }
    requires counts { MayCount S (lent_terms terms.now) task.now
        (Searching held items slot looks) account.old }
    requires heard { SearchHeard W.World S.Sitting task.now held slot heard }
    requires items { ItemsKept W.World S.Sitting task.now held items }
    requires among { Contains (sites (lent_terms terms.now)) held.parts.address }
    ensures follows { (most : ℕ)
        → Follows W.World S.Sitting (lent_terms terms.now) task.now now most
        (deed.heard heard held.parts.session) (Searching held items slot looks) result.0
        account.old account.new result.1 }
{
    let looks = count_look(account, terms.class, &heard, held.given, looks);
    match heard {
        Heard::Hits(hits) => {
            drop(heard);
            held.given = false;
            found(alloc, terms, task, held, items, slot, hits, now)
        }
        Heard::NotYet => {
            drop(heard);
            if terms.pool.patience <= looks {
                drop((held.parts, items));
                return (silent(held.seat, terms.pool.patience), Turned::Went);
            }
            (
                Phase::Searching {
                    held,
                    items,
                    slot,
                    looks,
                },
                Turned::NotYet,
            )
        }
        Heard::Failed => {
            drop((heard, items));
            (after_fault(held), Turned::Went)
        }
        Heard::Memory => {
            drop((heard, held.parts, items));
            (Phase::Spoiled { seat: held.seat }, Turned::Memory)
        }
        other => {
            drop(items);
            held.given = false;
            let answer = LegAnswer::Refused(diag_of(other));
            (Phase::Returning { held, answer }, Turned::Went)
        }
    }
}

/// Records the key and the hits under the slot, and goes on with the set.
fn found<W: World, S: Sitting<W>>(
    alloc: Global,
    terms: &LentTerms<'_>,
    task: &Task,
    mut held: Held<S>,
    items: List<Item>,
    slot: u32,
    hits: u32,
    now: u64,
) -> (Phase<S>, Turned)
    requires may { MayDo task.now }
    requires known { IsFound W.World S.Sitting task.now held slot hits }
    requires items { ItemsKept W.World S.Sitting task.now held items }
    requires among { Contains (sites (lent_terms terms.now)) held.parts.address }
    ensures goes { GoesOn
        (with_set task.now (recorded (want_of task.now) slot hits now held) items slot hits)
        (Spoiled held.seat) result.1 result.0 }
    ensures session { SessionKept W.World S.Sitting task.now result.0 }
    ensures done { is_done_answer result.1 ≡ is_done result.0 }
    ensures stands { (most : ℕ) (account : Account)
        → StandsAt W.World S.Sitting (lent_terms terms.now) most task.now result.0 account }
{
    let Some(key) = want_of(task) else {
        unreachable!()
    };
    let Ok(key) = copy(key) else {
        return (Phase::Spoiled { seat: held.seat }, Turned::Memory);
    };
    let Ok(()) = held.parts.table.record_(slot, key, hits, now) else {
        return (Phase::Spoiled { seat: held.seat }, Turned::Memory);
    };
    with_set(alloc, terms, task, held, items, slot, hits)
}

/// Goes on with a set that is held.
pub(crate) fn with_set<W: World, S: Sitting<W>>(
    alloc: Global,
    terms: &LentTerms<'_>,
    task: &Task,
    held: Held<S>,
    items: List<Item>,
    slot: u32,
    hits: u32,
) -> (Phase<S>, Turned)
    requires may { MayDo task.now }
    requires own { HasWanted (want_of task.now) held.parts.table.entries slot hits }
    requires held { IsHeld W.World S.Sitting resting held }
    requires items { ItemsKept W.World S.Sitting task.now held items }
    requires among { Contains (sites (lent_terms terms.now)) held.parts.address }
    ensures goes { GoesOn
        (with_set task.now held items slot hits) (Spoiled held.seat) result.1 result.0 }
    ensures session { SessionKept W.World S.Sitting task.now result.0 }
    ensures done { is_done_answer result.1 ≡ is_done result.0 }
    ensures stands { (most : ℕ) (account : Account)
        → StandsAt W.World S.Sitting (lent_terms terms.now) most task.now result.0 account }
{
    match task {
        Task::Hits { key: _ } => {
            let answer = LegAnswer::Hits(hits);
            (Phase::Returning { held, answer }, Turned::Went)
        }
        Task::Records { first, count, .. } => {
            if hits < *first + (*count - 1) {
                return too_few(alloc, held, items);
            }
            (
                Phase::Presenting {
                    held,
                    items,
                    slot,
                    hits,
                },
                Turned::Went,
            )
        }
        Task::Scan { ask: _ } => unreachable!(),
    }
}

/// Answers that the set has fewer records than the last that was asked for.
fn too_few<S: Drop>(alloc: Global, held: Held<S>, items: List<Item>) -> (Phase<S>, Turned)
    ensures goes { GoesOn
        (Returning held (Broken items out_of_range)) (Spoiled held.seat) result.1 result.0 }
    ensures done { is_done_answer result.1 ≡ is_done result.0 }
{
    let Ok(diag) = Diag::bib1(alloc, Condition::PresentRequestOutOfRange, Text::new(alloc)) else {
        return (Phase::Spoiled { seat: held.seat }, Turned::Memory);
    };
    let answer = LegAnswer::Broken(items, diag);
    (Phase::Returning { held, answer }, Turned::Went)
}
