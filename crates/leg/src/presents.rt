//! How a leg fetches records.

ghost use Rattle.std.specs.Prelude.{◌≡◌, ◌<◌, ◌+◌, ◌++◌, ℕ, Contains, Some, Ok, IfOk};
ghost use Rattle.leg.specs.Deeds as deed;
ghost use Rattle.leg.specs.Kept.{LegKept, StandsAt, SessionKept, IsHeld, ItemsKept, HasOwnSet};
ghost use Rattle.leg.specs.Phases.{is_done};
ghost use Rattle.leg.specs.steps.Replies.{PresentHeard, AreNext, IsPresentReply};
ghost use Rattle.leg.specs.Rules.{next_ask, with_items, with_reply, stopped, gone_again, Becomes};
ghost use Rattle.leg.specs.Tasks.{MayDo, IsLeft};
ghost use Rattle.leg.specs.Terms.{lent_terms, sites};
ghost use Rattle.leg.specs.steps.Follows.{MayCount, IsStep, Follows, GoesOn};
ghost use Rattle.leg.specs.Turns.{DoorView, is_done_answer};
ghost use Rattle.leg.specs.declared.accounts.Account.{Account};
ghost use Rattle.leg.specs.declared.phases.Phase.TheVariants.{Presenting, Fetching, Spoiled};
ghost use Rattle.z_types.specs.Pending.{resting};

use crate::hearing::{count_look, count_start};
use crate::phases::{after_fault, diag_of, silent};
use crate::searches::slot_name;
use crate::{Account, Held, LegAnswer, LentTerms, Phase, Rises, Task, Turned};
use gw_outside::{Backend, Began, Heard};
use std::alloc::Global;
use z_types::{Ask, Diag, Item, List, Mark, Memory, Sitting, World, copy};

/// The present of the records that are left, from a slot's set.
fn present_for(alloc: Global, task: &Task, items: &List<Item>, slot: u32) -> Result<Ask, Memory>
    requires may { MayDo task.now }
    requires left { IsLeft task.now items.now }
    ensures { IfOk result (λ ask. next_ask task.now items.now slot ≡ Some ask) }
{
    let Task::Records {
        key: _,
        first,
        count,
        syntax,
        element,
    } = task
    else {
        unreachable!()
    };
    let had = items.len() as u32;
    Ok(Ask::Present {
        name: slot_name(alloc, slot)?,
        first: *first + had,
        count: *count - had,
        syntax: copy(syntax)?,
        element: copy(element)?,
    })
}

/// Asks for the records that are left.
pub(crate) fn present<W: World, S: Sitting<W>, B: Backend<W, Session = S>>(
    alloc: Global,
    terms: &LentTerms<'_>,
    task: &Task,
    backend: &mut B,
    account: &mut Account,
    mut held: Held<S>,
    items: List<Item>,
    slot: u32,
    hits: u32,
) -> (Phase<S>, Turned)
    requires kept { LegKept W.World S.Sitting task.now
        (Presenting held items slot hits) account.old }
    requires counts { MayCount S (lent_terms terms.now) task.now
        (Presenting held items slot hits) account.old }
    requires among { Contains (sites (lent_terms terms.now)) held.parts.address }
    ensures step { (now : ℕ) (door : DoorView S)
        → IsStep W.World S.Sitting (lent_terms terms.now) task.now now B.exact
        (Presenting held items slot hits) result.0 account.old account.new result.1 door door
        (record { counts = B.counts backend.old; happened = B.happened backend.old })
        (record { counts = B.counts backend.new; happened = B.happened backend.new }) }
{
    let Ok(ask) = present_for(alloc, task, &items, slot) else {
        account.count(terms.class, Rises::none(), held.given, 0);
        drop((held.parts, items));
        return (Phase::Spoiled { seat: held.seat }, Turned::Memory);
    };
    let began = backend.start(alloc, &mut held.parts.session, &ask);
    count_start(account, terms.class, &ask, began, held.given);
    drop(ask);
    let looks = 0;
    match began {
        Began::Started => (
            Phase::Fetching {
                held,
                items,
                slot,
                hits,
                looks,
            },
            Turned::Went,
        ),
        Began::Failed => {
            drop(items);
            (after_fault(held), Turned::Went)
        }
        Began::Memory => {
            drop((held.parts, items));
            (Phase::Spoiled { seat: held.seat }, Turned::Memory)
        }
    }
}

/// Looks for records.
pub(crate) fn wait_for_items<W: World, S: Sitting<W>, B: Backend<W, Session = S>>(
    alloc: Global,
    terms: &LentTerms<'_>,
    task: &Task,
    backend: &mut B,
    account: &mut Account,
    mut held: Held<S>,
    items: List<Item>,
    slot: u32,
    hits: u32,
    looks: u32,
) -> (Phase<S>, Turned)
    requires kept { LegKept W.World S.Sitting task.now
        (Fetching held items slot hits looks) account.old }
    requires counts { MayCount S (lent_terms terms.now) task.now
        (Fetching held items slot hits looks) account.old }
    requires among { Contains (sites (lent_terms terms.now)) held.parts.address }
    ensures step { (now : ℕ) (door : DoorView S)
        → IsStep W.World S.Sitting (lent_terms terms.now) task.now now B.exact
        (Fetching held items slot hits looks) result.0 account.old account.new result.1 door door
        (record { counts = B.counts backend.old; happened = B.happened backend.old })
        (record { counts = B.counts backend.new; happened = B.happened backend.new }) }
{
    let heard = backend.look(alloc, &mut held.parts.session);
    after_present(
        alloc, terms, task, account, held, items, slot, hits, looks, heard,
    )
}

/// Goes on with what was heard of the records.
fn after_present<W: World, S: Sitting<W>>(
    alloc: Global,
    terms: &LentTerms<'_>,
    task: &Task,
    account: &mut Account,
    mut held: Held<S>,
    items: List<Item>,
    slot: u32,
    hits: u32,
    looks: u32,
    heard: Heard,
) -> (Phase<S>, Turned)
    requires may { MayDo task.now }
    requires counts { MayCount S (lent_terms terms.now) task.now
        (Fetching held items slot hits looks) account.old }
    requires heard { PresentHeard W.World S.Sitting task.now held items slot heard }
    requires items { ItemsKept W.World S.Sitting task.now held items }
    requires own { HasOwnSet W.World S.Sitting task.now held slot hits }
    requires among { Contains (sites (lent_terms terms.now)) held.parts.address }
    ensures follows { (now most : ℕ)
        → Follows W.World S.Sitting (lent_terms terms.now) task.now now most
        (deed.heard heard held.parts.session) (Fetching held items slot hits looks) result.0
        account.old account.new result.1 }
{
    let looks = count_look(account, terms.class, &heard, held.given, looks);
    match heard {
        Heard::Gone => {
            drop(heard);
            held.given = false;
            held.parts.table.forget(slot);
            let phase = gone_again(terms.pool.repeats, account.gones, held, items);
            (phase, Turned::Went)
        }
        Heard::NotYet => {
            drop(heard);
            if terms.pool.patience <= looks {
                drop((held.parts, items));
                return (silent(held.seat, terms.pool.patience), Turned::Went);
            }
            let phase = Phase::Fetching {
                held,
                items,
                slot,
                hits,
                looks,
            };
            (phase, Turned::NotYet)
        }
        Heard::Failed => {
            drop((heard, items));
            (after_fault(held), Turned::Went)
        }
        Heard::Memory => {
            drop((heard, held.parts, items));
            (Phase::Spoiled { seat: held.seat }, Turned::Memory)
        }
        reply => {
            held.given = false;
            with_reply(terms, task, held, items, slot, hits, reply)
        }
    }
}

/// Goes on with the reply to a present.
fn with_reply<W: World, S: Sitting<W>>(
    terms: &LentTerms<'_>,
    task: &Task,
    held: Held<S>,
    items: List<Item>,
    slot: u32,
    hits: u32,
    reply: Heard,
) -> (Phase<S>, Turned)
    requires reply { IsPresentReply reply }
    requires heard { PresentHeard W.World S.Sitting task.now held items slot reply }
    requires items { ItemsKept W.World S.Sitting task.now held items }
    requires own { HasOwnSet W.World S.Sitting task.now held slot hits }
    requires among { Contains (sites (lent_terms terms.now)) held.parts.address }
    ensures goes { Becomes (deed.heard reply held.parts.session)
        (with_reply task.now held items slot hits reply) (Spoiled held.seat) result.1 result.0 }
    ensures session { SessionKept W.World S.Sitting task.now result.0 }
    ensures done { is_done_answer result.1 ≡ is_done result.0 }
    ensures stands { (most : ℕ) (account : Account)
        → StandsAt W.World S.Sitting (lent_terms terms.now) most task.now result.0 account }
{
    match reply {
        Heard::Items(others) => with_items(terms, task, held, items, others, slot, hits),
        other => {
            let answer = stopped(items, diag_of(other));
            (Phase::Returning { held, answer }, Turned::Went)
        }
    }
}

/// A diagnostic in place of the next record.
fn stopped(items: List<Item>, diag: Diag) -> LegAnswer
    ensures { result ≡ stopped items diag }
{
    if items.is_empty() {
        return LegAnswer::Refused(diag);
    }
    LegAnswer::Broken(items, diag)
}

/// Searches again for a set that is gone, until it was gone too often.
fn gone_again<S>(repeats: u32, gones: u32, held: Held<S>, items: List<Item>) -> Phase<S>
    ensures { result ≡ gone_again repeats gones held items }
{
    if gones <= repeats {
        return Phase::Ready { held, items };
    }
    let answer = LegAnswer::Marked(Mark::Gone);
    Phase::Returning { held, answer }
}

/// Items with others behind them.
fn joined(items: List<Item>, others: List<Item>) -> Result<List<Item>, Memory>
    ensures { IfOk result (λ all. all ≡ items ++ others) }
{
    if items.is_empty() {
        return Ok(others);
    }
    let mut all = items.into_vec();
    let mut others = others.into_vec();
    all.append(&mut others)?;
    Ok(List::from_vec(all))
}

/// Goes on with some more records.
fn with_items<W: World, S: Sitting<W>>(
    terms: &LentTerms<'_>,
    task: &Task,
    held: Held<S>,
    items: List<Item>,
    others: List<Item>,
    slot: u32,
    hits: u32,
) -> (Phase<S>, Turned)
    requires held { IsHeld W.World S.Sitting resting held }
    requires next { AreNext W.World S.Sitting task.now held items others }
    requires items { ItemsKept W.World S.Sitting task.now held items }
    requires own { HasOwnSet W.World S.Sitting task.now held slot hits }
    requires among { Contains (sites (lent_terms terms.now)) held.parts.address }
    ensures goes { GoesOn
        (with_items task.now held (items ++ others) slot hits) (Spoiled held.seat) result.1 result.0 }
    ensures session { SessionKept W.World S.Sitting task.now result.0 }
    ensures done { is_done_answer result.1 ≡ is_done result.0 }
    ensures stands { (most : ℕ) (account : Account)
        → StandsAt W.World S.Sitting (lent_terms terms.now) most task.now result.0 account }
{
    let Task::Records { count, .. } = task else {
        unreachable!()
    };
    let Ok(items) = joined(items, others) else {
        drop(held.parts);
        return (Phase::Spoiled { seat: held.seat }, Turned::Memory);
    };
    if items.len() < *count as usize {
        let phase = Phase::Presenting {
            held,
            items,
            slot,
            hits,
        };
        return (phase, Turned::Went);
    }
    let answer = LegAnswer::Items(items);
    (Phase::Returning { held, answer }, Turned::Went)
}
