//! How a leg scans.

ghost use Rattle.std.specs.Prelude.{◌≡◌, ◌<◌, ℕ, Contains, IfOk};
ghost use Rattle.gw_outside.specs.Asks.{AreFewShort};
ghost use Rattle.z_types.specs.declared.ask.Ask.TheVariants as asks;
ghost use Rattle.leg.specs.Deeds as deed;
ghost use Rattle.leg.specs.Kept.{LegKept, IsScanning};
ghost use Rattle.leg.specs.steps.Replies.{ScanHeard, IsScanReply};
ghost use Rattle.leg.specs.Rules.{scan_answer};
ghost use Rattle.leg.specs.Tasks.{MayDo};
ghost use Rattle.leg.specs.Terms.{lent_terms, sites};
ghost use Rattle.leg.specs.steps.Follows.{MayCount, IsStep, Follows};
ghost use Rattle.leg.specs.Turns.{DoorView};
ghost use Rattle.leg.specs.declared.phases.Phase.TheVariants.{Ready, Scanning};
ghost use Rattle.leg.specs.declared.tasks.Task.TheVariants.{Scan};

use crate::hearing::{count_look, count_start};
use crate::phases::{after_fault, diag_of, silent};
use crate::{Account, Held, LegAnswer, LentTerms, Phase, Rises, Task, Turned};
use gw_outside::{Backend, Began, Heard};
use std::alloc::Global;
use z_types::{Ask, Item, List, Memory, ScanAsk, Sitting, Text, World, copy};

/// The scan of databases.
fn scan_for(alloc: Global, dbs: &List<Text>, ask: &ScanAsk) -> Result<Ask, Memory>
    ensures { IfOk result (λ own. own ≡ asks.Scan dbs.now ask.now) }
{
    Ok(Ask::Scan {
        dbs: copy(dbs)?,
        ask: copy(ask)?,
    })
}

/// Sends the scan.
pub(crate) fn scan<W: World, S: Sitting<W>, B: Backend<W, Session = S>>(
    alloc: Global,
    terms: &LentTerms<'_>,
    task: &Task,
    ask: &ScanAsk,
    backend: &mut B,
    account: &mut Account,
    mut held: Held<S>,
    items: List<Item>,
) -> (Phase<S>, Turned)
    requires scan { task.now ≡ Scan ask.now }
    requires dbs { AreFewShort (lent_terms terms.now).dbs }
    requires kept { LegKept W.World S.Sitting task.now (Ready held items) account.old }
    requires counts { MayCount S (lent_terms terms.now) task.now (Ready held items) account.old }
    requires among { Contains (sites (lent_terms terms.now)) held.parts.address }
    ensures step { (now : ℕ) (door : DoorView S)
        → IsStep W.World S.Sitting (lent_terms terms.now) task.now now B.exact
        (Ready held items) result.0 account.old account.new result.1 door door
        (record { counts = B.counts backend.old; happened = B.happened backend.old })
        (record { counts = B.counts backend.new; happened = B.happened backend.new }) }
{
    let Ok(own) = scan_for(alloc, terms.dbs, ask) else {
        account.count(terms.class, Rises::none(), held.given, 0);
        drop((held.parts, items));
        return (Phase::Spoiled { seat: held.seat }, Turned::Memory);
    };
    let began = backend.start(alloc, &mut held.parts.session, &own);
    count_start(account, terms.class, &own, began, held.given);
    drop((own, items));
    match began {
        Began::Started => (Phase::Scanning { held, looks: 0 }, Turned::Went),
        Began::Failed => (after_fault(held), Turned::Went),
        Began::Memory => {
            drop(held.parts);
            (Phase::Spoiled { seat: held.seat }, Turned::Memory)
        }
    }
}

/// Looks for the reply to the scan.
pub(crate) fn wait_for_entries<W: World, S: Sitting<W>, B: Backend<W, Session = S>>(
    alloc: Global,
    terms: &LentTerms<'_>,
    task: &Task,
    backend: &mut B,
    account: &mut Account,
    mut held: Held<S>,
    looks: u32,
) -> (Phase<S>, Turned)
    requires kept { LegKept W.World S.Sitting task.now (Scanning held looks) account.old }
    requires counts { MayCount S (lent_terms terms.now) task.now (Scanning held looks) account.old }
    requires among { Contains (sites (lent_terms terms.now)) held.parts.address }
    requires scan { IsScanning W.World S.Sitting (lent_terms terms.now) task.now held }
    ensures step { (now : ℕ) (door : DoorView S)
        → IsStep W.World S.Sitting (lent_terms terms.now) task.now now B.exact
        (Scanning held looks) result.0 account.old account.new result.1 door door
        (record { counts = B.counts backend.old; happened = B.happened backend.old })
        (record { counts = B.counts backend.new; happened = B.happened backend.new }) }
{
    let heard = backend.look(alloc, &mut held.parts.session);
    after_scan(terms, task, account, held, looks, heard)
}

/// Goes on with what was heard of the scan.
fn after_scan<W: World, S: Sitting<W>>(
    terms: &LentTerms<'_>,
    task: &Task,
    account: &mut Account,
    mut held: Held<S>,
    looks: u32,
    heard: Heard,
) -> (Phase<S>, Turned)
    requires may { MayDo task.now }
    requires counts { MayCount S (lent_terms terms.now) task.now (Scanning held looks) account.old }
    requires heard { ScanHeard W.World S.Sitting (lent_terms terms.now) task.now held heard }
    requires among { Contains (sites (lent_terms terms.now)) held.parts.address }
    ensures follows { (now most : ℕ)
        → Follows W.World S.Sitting (lent_terms terms.now) task.now now most
        (deed.heard heard held.parts.session) (Scanning held looks) result.0
        account.old account.new result.1 }
{
    let looks = count_look(account, terms.class, &heard, held.given, looks);
    match heard {
        Heard::NotYet => {
            drop(heard);
            if terms.pool.patience <= looks {
                drop(held.parts);
                return (silent(held.seat, terms.pool.patience), Turned::Went);
            }
            (Phase::Scanning { held, looks }, Turned::NotYet)
        }
        Heard::Failed => {
            drop(heard);
            (after_fault(held), Turned::Went)
        }
        Heard::Memory => {
            drop((heard, held.parts));
            (Phase::Spoiled { seat: held.seat }, Turned::Memory)
        }
        reply => {
            held.given = false;
            let answer = scan_answer(reply);
            (Phase::Returning { held, answer }, Turned::Went)
        }
    }
}

/// What is answered to a scan.
fn scan_answer(reply: Heard) -> LegAnswer
    requires reply { IsScanReply reply }
    ensures answer { result ≡ scan_answer reply }
{
    match reply {
        Heard::Scanned(entries) => LegAnswer::Scanned(entries),
        other => LegAnswer::Refused(diag_of(other)),
    }
}
