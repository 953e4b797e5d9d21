//! How a leg opens a session.

ghost use Rattle.std.specs.Prelude.{◌≡◌, ◌<◌, ℕ, length, Contains, Option, IfOk};
ghost use Rattle.z_types.specs.Members.{AreMembers};
ghost use Rattle.z_types.specs.declared.key.SetKey.{SetKey};
ghost use Rattle.unit_forms.specs.Logins.{HasLogin, IsLoginIf};
ghost use Rattle.pool_sets.specs.Table.{empty_table};
ghost use Rattle.leg.specs.Deeds as deed;
ghost use Rattle.leg.specs.Deeds.{rises_of};
ghost use Rattle.leg.specs.Kept.{LegKept};
ghost use Rattle.gw_outside.specs.Sessions.{IfSession, IsNewSession};
ghost use Rattle.leg.specs.steps.Replies.{InitHeard};
ghost use Rattle.leg.specs.Tasks.{MayDo};
ghost use Rattle.route_config.specs.Sound.{ArePoolNumbers};
ghost use Rattle.leg.specs.Terms.{lent_terms, opened_at, sites};
ghost use Rattle.leg.specs.steps.Follows.{MayCount, IsStep, Follows};
ghost use Rattle.leg.specs.Turns.{DoorView};
ghost use Rattle.leg.specs.declared.phases.Phase.TheVariants.{Dialling, Dialled, Spoiled};

use crate::hearing::count_look;
use crate::phases::{after_fault, silent};
use crate::{Account, Held, LegAnswer, LentTerms, Phase, Rises, Task, Turned};
use gw_outside::{Backend, Heard, Opening};
use pool_sets::{Parts, Seat, SetTable};
use std::alloc::Global;
use z_types::{Address, List, Mark, Memory, Sitting, World};

/// Dials the member that the door named.
pub(crate) fn dial<W: World, S: Sitting<W>, B: Backend<W, Session = S>>(
    alloc: Global,
    terms: &LentTerms<'_>,
    task: &Task,
    backend: &mut B,
    account: &mut Account,
    seat: Seat,
    member: u32,
) -> (Phase<S>, Turned)
    requires members { AreMembers (lent_terms terms.now).at }
    requires within { member < length (lent_terms terms.now).at }
    requires login { IsLoginIf (lent_terms terms.now).login }
    requires kept { LegKept W.World S.Sitting task.now (Dialling seat member) account.old }
    requires counts { MayCount S (lent_terms terms.now) task.now
        (Dialling seat member) account.old }
    ensures step { (now : ℕ) (door : DoorView S)
        → IsStep W.World S.Sitting (lent_terms terms.now) task.now now B.exact
        (Dialling seat member) result.0 account.old account.new result.1 door door
        (record { counts = B.counts backend.old; happened = B.happened backend.old })
        (record { counts = B.counts backend.new; happened = B.happened backend.new }) }
{
    let Ok((address, table)) = place_for(alloc, terms, member) else {
        account.count(terms.class, Rises::none(), false, 0);
        return (Phase::Spoiled { seat }, Turned::Memory);
    };
    let opening = backend.open_(alloc, &address);
    after_open(terms, task, account, seat, member, address, table, opening)
}

/// The address that is opened for a member, inside the login, and a table without sets.
#[tactic(auto, using(crate::proofs::Opened::opened_login))]
fn place_for(
    alloc: Global,
    terms: &LentTerms<'_>,
    member: u32,
) -> Result<(Address, SetTable), Memory>
    requires members { AreMembers (lent_terms terms.now).at }
    requires within { member < length (lent_terms terms.now).at }
    requires login { IsLoginIf (lent_terms terms.now).login }
    requires pool { ArePoolNumbers (lent_terms terms.now).pool }
    ensures address { IfOk result (λ place. place.0 ≡ opened_at (lent_terms terms.now) member) }
    ensures login { IfOk result (λ place. HasLogin place.0) }
    ensures table { IfOk result (λ place. place.1
        ≡ empty_table (lent_terms terms.now).pool.sets_max) }
{
    let address = &terms.at[member as usize];
    Ok((
        address.inside(terms.login)?,
        SetTable::new(alloc, terms.pool.sets_max)?,
    ))
}

/// Which counts rise at what an opening gave.
fn rises_of_opening<S>(opening: &Opening<S>) -> Rises
    ensures { (want : Option SetKey) → result ≡ rises_of want (deed.opened opening.now) }
{
    let mut rises = Rises::none();
    match opening {
        Opening::Session(_) => rises.dials = true,
        Opening::Failed { linked } => {
            rises.dials = *linked;
            rises.faults = true;
        }
        Opening::Memory => {}
    }
    rises
}

/// Goes on with what an opening gave.
fn after_open<W: World, S: Sitting<W>>(
    terms: &LentTerms<'_>,
    task: &Task,
    account: &mut Account,
    seat: Seat,
    member: u32,
    address: Address,
    table: SetTable,
    opening: Opening<S>,
) -> (Phase<S>, Turned)
    requires kept { LegKept W.World S.Sitting task.now (Dialling seat member) account.old }
    requires counts { MayCount S (lent_terms terms.now) task.now
        (Dialling seat member) account.old }
    requires within { member < length (lent_terms terms.now).at }
    requires address { address ≡ opened_at (lent_terms terms.now) member }
    requires table { table ≡ empty_table (lent_terms terms.now).pool.sets_max }
    requires opened { IfSession opening (IsNewSession S.Sitting address) }
    ensures follows { (now most : ℕ)
        → Follows W.World S.Sitting (lent_terms terms.now) task.now now most
        (deed.opened opening) (Dialling seat member) result.0 account.old account.new result.1 }
{
    account.count(terms.class, rises_of_opening(&opening), false, 0);
    match opening {
        Opening::Session(session) => {
            let parts = Parts {
                session,
                table,
                address,
            };
            let given = false;
            let held = Held { seat, parts, given };
            (Phase::Dialled { held, looks: 0 }, Turned::Went)
        }
        Opening::Failed { linked: _ } => {
            let answer = LegAnswer::Marked(Mark::Link);
            (Phase::Losing { seat, answer }, Turned::Went)
        }
        Opening::Memory => (Phase::Spoiled { seat }, Turned::Memory),
    }
}

/// Looks for the reply to the Init.
pub(crate) fn wait_for_init<W: World, S: Sitting<W>, B: Backend<W, Session = S>>(
    alloc: Global,
    terms: &LentTerms<'_>,
    task: &Task,
    backend: &mut B,
    account: &mut Account,
    mut held: Held<S>,
    looks: u32,
) -> (Phase<S>, Turned)
    requires kept { LegKept W.World S.Sitting task.now (Dialled held looks) account.old }
    requires counts { MayCount S (lent_terms terms.now) task.now (Dialled held looks) account.old }
    requires among { Contains (sites (lent_terms terms.now)) held.parts.address }
    ensures step { (now : ℕ) (door : DoorView S)
        → IsStep W.World S.Sitting (lent_terms terms.now) task.now now B.exact
        (Dialled held looks) result.0 account.old account.new result.1 door door
        (record { counts = B.counts backend.old; happened = B.happened backend.old })
        (record { counts = B.counts backend.new; happened = B.happened backend.new }) }
{
    let heard = backend.look(alloc, &mut held.parts.session);
    after_init(alloc, terms, task, account, held, looks, heard)
}

/// Goes on with what was heard of the Init.
fn after_init<W: World, S: Sitting<W>>(
    alloc: Global,
    terms: &LentTerms<'_>,
    task: &Task,
    account: &mut Account,
    mut held: Held<S>,
    looks: u32,
    heard: Heard,
) -> (Phase<S>, Turned)
    requires may { MayDo task.now }
    requires counts { MayCount S (lent_terms terms.now) task.now (Dialled held looks) account.old }
    requires heard { InitHeard W.World S.Sitting task.now held heard }
    requires among { Contains (sites (lent_terms terms.now)) held.parts.address }
    ensures follows { (now most : ℕ)
        → Follows W.World S.Sitting (lent_terms terms.now) task.now now most
        (deed.heard heard held.parts.session) (Dialled held looks) result.0
        account.old account.new result.1 }
{
    let looks = count_look(account, terms.class, &heard, held.given, looks);
    match heard {
        Heard::Opened => {
            drop(heard);
            held.given = false;
            let items = List::new(alloc);
            (Phase::Ready { held, items }, Turned::Went)
        }
        Heard::NotYet => {
            drop(heard);
            if terms.pool.patience <= looks {
                drop(held.parts);
                return (silent(held.seat, terms.pool.patience), Turned::Went);
            }
            (Phase::Dialled { held, looks }, Turned::NotYet)
        }
        Heard::Failed => {
            drop(heard);
            (after_fault(held), Turned::Went)
        }
        Heard::Memory => {
            drop((heard, held.parts));
            (Phase::Spoiled { seat: held.seat }, Turned::Memory)
        }
        _ => unreachable!(),
    }
}
