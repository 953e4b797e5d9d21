//! Two doors over one pool.

ghost use Rattle.std.specs.Prelude.{◌≡◌, is_some, true};
ghost use Rattle.pool_locked.specs.Books.{counts_of};

use crate::holders::{Holder, Quiet};
use crate::ledgers::{Blanks, Three, door_of, take_back};
use crate::turns::{Desk, Login, Turn, goes};
use pool_locked::Counted;
use pool_sets::Door;
use std::alloc::Global;
use std::sync::ledger::Ledger;
use std::sync::{Mutex, Wait};
use z_types::Memory;

/// At which of two doors something happens.
#[derive(Clone, Copy)]
pub(crate) enum Side {
    Left,
    Right,
}

/// A turn, at which of two doors, in which class and under which login it happens.
pub(crate) type Row = (Side, u32, Login, Turn);

/// The place of the first turn that goes otherwise at one door, counted from 0.
pub(crate) fn first_other<D: Door<Quiet, Holder>>(
    alloc: Global,
    desk: &Desk,
    door: &mut D,
    turns: &[Row],
) -> Result<Option<usize>, Memory> {
    for (place, (_, class, login, turn)) in turns.iter().enumerate() {
        if !goes(alloc, desk, door, *class, *login, *turn)? {
            return Ok(Some(place));
        }
    }
    Ok(None)
}

/// The same at two doors.
fn first_other_of_two<D: Door<Quiet, Holder>>(
    alloc: Global,
    desk: &Desk,
    left: &mut D,
    right: &mut D,
    turns: &[Row],
) -> Result<Option<usize>, Memory> {
    for (place, (side, class, login, turn)) in turns.iter().enumerate() {
        let went = match side {
            Side::Left => goes(alloc, desk, left, *class, *login, *turn)?,
            Side::Right => goes(alloc, desk, right, *class, *login, *turn)?,
        };
        if !went {
            return Ok(Some(place));
        }
    }
    Ok(None)
}

/// The same at two doors over a lock, which tell these numbers as the most sessions. Their
/// shares are handed back.
fn first_other_over<
    R: Wait + Sync,
    P: Door<Quiet, Holder> + Drop,
    L: Ledger,
    M: Ledger,
    O: Ledger,
    Q: Ledger,
>(
    rt: &R,
    alloc: Global,
    desk: &Desk,
    pool: &Mutex<Counted<Quiet, Holder, P, L, M, O, Q>>,
    tells: (u32, u32),
    three: &mut Three<L, M, O>,
    turns: &[Row],
) -> Result<Option<usize>, Memory>
    requires booked { (three.old.booked.parts ≡ 2) × (three.old.booked.amount ≡ 0) }
    requires fulls { (three.old.fulls.parts ≡ 2) × (three.old.fulls.amount ≡ 0) }
    requires opens { (three.old.opens.parts ≡ 2) × (three.old.opens.amount ≡ 0) }
    requires parts { (L.parts ≡ 2) × (M.parts ≡ 2) × (O.parts ≡ 2) }
    ensures whole { (three.new.booked.parts ≡ 2)
        × (three.new.fulls.parts ≡ 2) × (three.new.opens.parts ≡ 2) }
{
    let mut left = door_of(rt, pool, tells.0, three);
    let mut right = door_of(rt, pool, tells.1, three);
    let other = first_other_of_two(alloc, desk, &mut left, &mut right, turns);
    take_back(left, three);
    take_back(right, three);
    other
}

/// The same over a new pool of at most so many sessions, which is audited at the end.
pub(crate) fn first_other_behind<
    R: Wait + Sync,
    P: Door<Quiet, Holder> + Drop,
    L: Ledger,
    M: Ledger,
    O: Ledger,
    Q: Ledger,
>(
    rt: &R,
    alloc: Global,
    desk: &Desk,
    pool: P,
    max_sessions: u32,
    tells: (u32, u32),
    blanks: Blanks,
    turns: &[Row],
) -> Result<Option<usize>, Memory>
    requires told { is_some (P.pool pool) ≡ true }
    requires new { P.counts pool ≡ counts_of max_sessions 0 0 0 }
    requires names { (blanks.booked.name ≡ L.name) × (blanks.fulls.name ≡ M.name)
        × (blanks.opens.name ≡ O.name) × (blanks.most.name ≡ Q.name) }
    requires parts { (blanks.booked.parts ≡ L.parts) × (blanks.fulls.parts ≡ M.parts)
        × (blanks.opens.parts ≡ O.parts) × (blanks.most.parts ≡ Q.parts) }
    requires two { (L.parts ≡ 2) × (M.parts ≡ 2) × (O.parts ≡ 2) × (Q.parts ≡ 1) }
{
    let (booked_book, booked) = blanks.booked.open::<L>();
    let (fulls_book, fulls) = blanks.fulls.open::<M>();
    let (opens_book, opens) = blanks.opens.open::<O>();
    let (mut most_book, mut most) = blanks.most.open::<Q>();
    most_book.add(&mut most, u64::from(max_sessions));
    let mut three = Three {
        booked,
        fulls,
        opens,
    };
    let counted = Counted::new(pool, booked_book, fulls_book, opens_book, most_book);
    let pool = Mutex::new(counted);
    let other = first_other_over(rt, alloc, desk, &pool, tells, &mut three, turns);
    let Three {
        mut booked,
        mut fulls,
        mut opens,
    } = three;
    let mut pool = pool.into_inner();
    pool.audit(&mut booked, &mut fulls, &mut opens, &mut most);
    other
}
