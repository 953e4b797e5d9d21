//! What doors over one pool give.

ghost use Rattle.std.specs.Prelude.{◌≡◌};

use crate::doors::Side::{Left, Right};
use crate::doors::{Row, first_other, first_other_behind};
use crate::holders::{Holder, Quiet};
use crate::ledgers::blanks_of;
use crate::turns::Given::{Dialled, Full, Idle, Reused};
use crate::turns::Login::{Absent, Empty, Own};
use crate::turns::Turn::{Expire, Lose, Put, Redial, TakeAny, TakeFor, TakeForOther};
use crate::turns::desk_of;
use pool_core::Pool;
use route_config::PoolNumbers;
use std::alloc::Global;
use std::marker::Brand;
use std::sync::Wait;
use std::test::Fail;
use z_types::Memory;

/// The numbers of a pool of at most so many sessions of a class.
fn numbers_of(max_sessions: u32) -> PoolNumbers
    ensures most { result.max_sessions ≡ max_sessions }
{
    PoolNumbers {
        max_sessions,
        sets_max: 10,
        session_ttl: 300,
        set_ttl: 60,
        repeats: 2,
        patience: 1000,
    }
}

/// The place of the first turn that goes otherwise at the one door of a pool.
fn first_other_alone(
    alloc: Global,
    max_sessions: u32,
    turns: &[Row],
) -> Result<Option<usize>, Memory> {
    let desk = desk_of(alloc)?;
    let mut pool: Pool<Quiet, Holder> = Pool::after(alloc, numbers_of(max_sessions), 0);
    first_other(alloc, &desk, &mut pool, turns)
}

/// The same at two doors over such a pool, which tell these numbers as the most sessions.
fn first_other_locked<R: Wait + Sync>(
    rt: &R,
    alloc: Global,
    max_sessions: u32,
    tells: (u32, u32),
    turns: &[Row],
) -> Result<Option<usize>, Memory> {
    let desk = desk_of(alloc)?;
    let pool: Pool<Quiet, Holder> = Pool::after(alloc, numbers_of(max_sessions), 0);
    first_other_behind::<R, Pool<Quiet, Holder>, Brand, Brand, Brand, Brand>(
        rt,
        alloc,
        &desk,
        pool,
        max_sessions,
        tells,
        blanks_of(2),
        turns,
    )
}

/// Each door gives what the pool has, whichever door it came by: sessions that were dialled, put
/// back and given up, and sets that were kept or forgotten.
const TURNS: &[Row] = &[
    (Left, 0, Absent, TakeAny(Dialled(1, 0))),
    (Right, 0, Absent, TakeFor(0, Dialled(2, 1))),
    (Left, 0, Absent, TakeFor(0, Full(2))),
    (Right, 0, Absent, Redial(2, 1)),
    (Left, 0, Absent, Put(1, 0)),
    (Right, 0, Absent, TakeFor(0, Reused(1))),
    (Left, 0, Absent, TakeAny(Full(2))),
    (Left, 0, Absent, Lose(2)),
    (Right, 0, Absent, TakeFor(0, Dialled(3, 1))),
    (Left, 0, Absent, Put(1, 0)),
    (Right, 0, Absent, TakeForOther(Idle(1))),
    (Right, 0, Absent, Put(1, 0)),
    (Left, 0, Absent, TakeFor(59, Reused(1))),
    (Right, 0, Absent, Put(1, 59)),
    (Left, 0, Absent, TakeFor(119, Idle(1))),
    (Left, 0, Absent, Put(1, 119)),
    (Right, 0, Absent, TakeFor(418, Idle(1))),
    (Right, 0, Absent, Put(1, 418)),
    (Left, 0, Absent, Expire(477)),
    (Right, 0, Absent, TakeFor(0, Reused(1))),
    (Right, 0, Absent, Put(1, 418)),
    (Left, 0, Absent, Expire(478)),
    (Right, 0, Absent, TakeFor(0, Idle(1))),
];

/// The same in two classes, of which none is given a session of the other, though both have its address, and
/// each dials all its members in turn: sessions and sets are as old as the moments say.
const CLASSES: &[Row] = &[
    (Left, 0, Absent, TakeAny(Dialled(1, 0))),
    (Right, 1, Absent, TakeAny(Dialled(2, 0))),
    (Left, 0, Absent, Put(1, 0)),
    (Right, 1, Absent, TakeFor(0, Dialled(3, 1))),
    (Right, 1, Absent, TakeAny(Dialled(4, 2))),
    (Left, 1, Absent, TakeAny(Full(3))),
    (Left, 1, Absent, Redial(4, 2)),
    (Right, 0, Absent, TakeFor(59, Reused(1))),
    (Right, 1, Absent, Put(2, 100)),
    (Left, 0, Absent, TakeFor(100, Dialled(5, 1))),
    (Left, 1, Absent, TakeFor(159, Reused(2))),
    (Left, 1, Absent, Put(2, 159)),
    (Right, 1, Absent, TakeFor(219, Idle(2))),
    (Right, 1, Absent, Put(2, 219)),
    (Left, 1, Absent, TakeFor(519, Dialled(6, 0))),
    (Left, 1, Absent, Lose(3)),
    (Right, 1, Absent, TakeFor(519, Dialled(7, 1))),
];

/// The same under three logins, of which no login is one, and the empty one another: each has
/// sessions and sets of its own, also of one key. Where no more may be open, the idle one of the
/// least number makes room and counts no longer for its member; a redial keeps the login.
const LOGINS: &[Row] = &[
    (Left, 0, Own, TakeAny(Dialled(1, 0))),
    (Right, 0, Own, Put(1, 0)),
    (Left, 0, Own, TakeFor(0, Reused(1))),
    (Left, 0, Own, Put(1, 0)),
    (Right, 0, Absent, TakeFor(0, Dialled(2, 1))),
    (Right, 0, Absent, Put(2, 0)),
    (Left, 0, Empty, TakeAny(Dialled(3, 0))),
    (Left, 0, Absent, TakeAny(Idle(2))),
    (Right, 0, Own, TakeAny(Full(2))),
    (Right, 0, Empty, Redial(3, 0)),
    (Left, 0, Empty, Put(3, 0)),
    (Right, 0, Empty, TakeFor(0, Reused(3))),
    (Right, 0, Empty, Put(3, 0)),
    (Left, 0, Own, TakeAny(Dialled(4, 0))),
    (Left, 0, Own, Put(4, 0)),
    (Right, 0, Absent, Put(2, 0)),
    (Right, 0, Own, TakeFor(0, Reused(4))),
    (Left, 0, Absent, TakeFor(0, Reused(2))),
];

#[test]
fn two_doors_over_a_pool_answer_as_the_pool(rt: HostRuntime) -> Result<(), Fail> {
    for (most, turns) in [(2, TURNS), (3, CLASSES), (2, LOGINS)] {
        assert_eq!(rt; first_other_alone(rt.alloc(), most, turns)?, None);
        let other = first_other_locked(&rt, rt.alloc(), most, (most, most), turns)?;
        assert_eq!(rt; other, None);
    }
    Ok(())
}

/// A full pool is full under the number of the door.
const FULL: &[Row] = &[
    (Left, 0, Absent, TakeAny(Dialled(1, 0))),
    (Left, 0, Absent, TakeAny(Full(1))),
    (Right, 0, Absent, TakeAny(Full(7))),
    (Right, 0, Absent, TakeFor(0, Full(7))),
];

#[test]
fn a_full_pool_is_full_under_the_number_of_the_door(rt: HostRuntime) -> Result<(), Fail> {
    assert_eq!(rt; first_other_locked(&rt, rt.alloc(), 1, (1, 7), FULL)?, None);
    Ok(())
}
