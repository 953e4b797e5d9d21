//! Pools of sessions in memory, turn by turn, and what they gave.

ghost use Rattle.std.specs.Prelude.{◌≡◌, ℕ, Some, true, false};
ghost use Rattle.z_types.specs.declared.key.SetKey.{SetKey};
ghost use Rattle.z_types.specs.Counts.{one_more};
ghost use Rattle.unit_forms.specs.Logins.{HasLogin, IsLoginIf};
ghost use Rattle.pool_sets.specs.Counts.{is_booked};

use crate::logins::{Who, login_of};
use crate::sessions::{key_for, session_holding};
use crate::targets::Steady;
use gw_memory::{FakeBackend, FakeSession};
use pool_core::Pool;
use pool_index::IndexedPool;
use pool_keys::Digest;
use pool_sets::{Door, Seat, Taken};
use route_config::{Members, PoolNumbers, Route, RouteParts};
use std::alloc::Global;
use z_types::{Address, List, Memory, SetKey, Site, Text};

/// What a pool gave, without the session.
#[derive(Clone, Copy, Debug, PartialEq, Eq)]
pub(crate) enum Given {
    Reused(u64),
    Idle(u64),
    Dialled(u64, u32),
    Full(u32),
    Nothing,
}

/// What happens at a pool, and what comes of it.
#[derive(Clone, Copy)]
pub(crate) enum Turn {
    /// Who asks from here on. At first it is one without a login.
    As(Who),
    /// Any session is taken at a moment.
    TakeAny(u64, Given),
    /// A session for the key is taken at a moment.
    TakeFor(u64, Given),
    /// A session for the key is taken at a moment, and put back.
    Borrow(u64, Given),
    /// A session of a number that holds the key's set, used at a moment, is put back at another, inside
    /// the login of who asks.
    Put(u64, u64, u64),
    /// The session of a number is given up, by a seat of a class.
    Lose(u32, u64),
    /// A member is dialled in place of the session of a number.
    Redial(u64, u32),
}

/// Which pool.
#[derive(Clone, Copy, Debug)]
pub(crate) enum Kind {
    /// The list of sessions.
    Plain,
    /// The one by indexes.
    Indexed,
    /// The same, where all keys have one digest.
    OneDigest,
}

/// All pools, which answer alike.
pub(crate) const KINDS: [Kind; 3] = [Kind::Plain, Kind::Indexed, Kind::OneDigest];

/// The digest of each key is 7, and that of each class and login.
#[derive(Drop)]
struct Seven {}

impl Digest for Seven {
    ghost own = { λ _. 7 };

    ghost digest = { λ _ _. 7 };

    fn own(_: u32, _: Option<&Text>) -> u64 {
        7
    }

    fn digest(_: u64, _: &SetKey) -> u64 {
        7
    }
}

/// A pool, the addresses of its class's two members, the key of a search, and who asks.
#[derive(Drop)]
struct Trial<P> {
    pool: P,
    backend: FakeBackend<Steady>,
    members: Members,
    key: SetKey,
    who: Who,
}

/// The smallest route, with at most `max_sessions` sessions of a class.
fn route_of(alloc: Global, max_sessions: u32) -> Result<Route, Memory> {
    let mut parts = RouteParts::smallest(alloc)?;
    parts.pool.max_sessions = max_sessions;
    if !parts.are_sound() {
        return Err(Memory);
    }
    Route::new(alloc, parts)
}

/// Two members at test targets.
fn two(alloc: Global, first: u32, second: u32) -> Result<Members, Memory> {
    let mut addresses = List::new(alloc);
    addresses.push(Address::Test(first))?;
    addresses.push(Address::Test(second))?;
    Ok(Members::new(addresses))
}

/// A trial of a pool whose second member is at that test target.
fn trial_of<P: Door<Steady, FakeSession> + Drop>(
    alloc: Global,
    pool: P,
    second: u32,
) -> Result<Trial<P>, Memory> {
    Ok(Trial {
        pool,
        backend: FakeBackend::new(Steady, List::new(alloc)),
        members: two(alloc, 0, second)?,
        key: key_for(alloc, 3)?,
        who: Who::Nobody,
    })
}

/// What was given.
fn what_was_given(taken: &Taken<FakeSession>) -> Given
    ensures reused { (key : SetKey) (number : ℕ) → result ≡ Given.Reused number
        → is_booked (Some key) taken.now ≡ false }
    ensures idle { (key : SetKey) (number : ℕ) → result ≡ Given.Idle number
        → is_booked (Some key) taken.now ≡ true }
{
    match taken {
        Taken::Reuse { seat, .. } => Given::Reused(seat.number),
        Taken::Fresh { seat, .. } => Given::Idle(seat.number),
        Taken::Dial { seat, member } => Given::Dialled(seat.number, *member),
        Taken::Full { open } => Given::Full(*open),
        Taken::Memory => Given::Nothing,
    }
}

/// Takes any session.
fn take_any<P: Door<Steady, FakeSession> + Drop>(
    alloc: Global,
    trial: &mut Trial<P>,
    login: Option<&Text>,
    now: u64,
) -> Given {
    let at = trial.members.as_slice();
    what_was_given(&trial.pool.take(alloc, 0, at, login, None, now))
}

/// Takes a session for the key. The pool counts where it gives one that has no set of it.
fn take_for<P: Door<Steady, FakeSession> + Drop>(
    alloc: Global,
    trial: &mut Trial<P>,
    login: Option<&Text>,
    now: u64,
) -> Given
    ensures reused { (number : ℕ) → result ≡ Given.Reused number
        → (P.counts trial.new.pool).booked ≡ (P.counts trial.old.pool).booked }
    ensures idle { (number : ℕ) → result ≡ Given.Idle number
        → (P.counts trial.new.pool).booked
        ≡ one_more true (P.counts trial.old.pool).booked }
{
    let at = trial.members.as_slice();
    what_was_given(&trial.pool.take(alloc, 0, at, login, Some(&trial.key), now))
}

/// Takes a session for the key and puts it back.
fn borrow_for<P: Door<Steady, FakeSession> + Drop>(
    alloc: Global,
    trial: &mut Trial<P>,
    login: Option<&Text>,
    now: u64,
) -> Given {
    let at = trial.members.as_slice();
    let taken = trial.pool.take(alloc, 0, at, login, Some(&trial.key), now);
    let given = what_was_given(&taken);
    match taken {
        Taken::Reuse { seat, parts, .. } | Taken::Fresh { seat, parts } => {
            trial.pool.put(seat, parts, now);
        }
        _ => {}
    }
    given
}

/// The address of the first member inside a login, where there is one.
fn first_inside(login: Option<Text>) -> Address
    requires { IsLoginIf login }
    ensures { HasLogin result }
{
    match login {
        Some(login) => Address::Login(Site::Test(0), login),
        None => Address::Test(0),
    }
}

/// Puts a session that holds the key's set, used at a moment, back at another.
fn put_back<P: Door<Steady, FakeSession> + Drop>(
    alloc: Global,
    trial: &mut Trial<P>,
    number: u64,
    used: u64,
    now: u64,
) -> Result<(), Memory> {
    let key = key_for(alloc, 3)?;
    let address = first_inside(login_of(alloc, trial.who)?);
    let parts = session_holding(alloc, &mut trial.backend, &address, &key, used)?.apart();
    trial.pool.put(Seat { class: 0, number }, parts, now);
    Ok(())
}

/// Gives the session of a number up, by a seat of a class.
fn lose<P: Door<Steady, FakeSession> + Drop>(trial: &mut Trial<P>, class: u32, number: u64) {
    trial.pool.lost(Seat { class, number });
}

/// The member to dial in place of a session.
fn redial<P: Door<Steady, FakeSession> + Drop>(trial: &mut Trial<P>, number: u64) -> u32 {
    let at = trial.members.as_slice();
    trial.pool.redial(&mut Seat { class: 0, number }, at)
}

/// Whether a turn goes so.
fn goes<P: Door<Steady, FakeSession> + Drop>(
    alloc: Global,
    trial: &mut Trial<P>,
    turn: Turn,
) -> Result<bool, Memory> {
    let login = login_of(alloc, trial.who)?;
    let login = login.as_ref();
    match turn {
        Turn::As(who) => {
            trial.who = who;
            Ok(true)
        }
        Turn::TakeAny(now, given) => Ok(take_any(alloc, trial, login, now) == given),
        Turn::TakeFor(now, given) => Ok(take_for(alloc, trial, login, now) == given),
        Turn::Borrow(now, given) => Ok(borrow_for(alloc, trial, login, now) == given),
        Turn::Put(number, used, now) => {
            put_back(alloc, trial, number, used, now)?;
            Ok(true)
        }
        Turn::Lose(class, number) => {
            lose(trial, class, number);
            Ok(true)
        }
        Turn::Redial(number, member) => Ok(redial(trial, number) == member),
    }
}

/// The place of the first turn that goes otherwise, counted from 0.
fn first_other<P: Door<Steady, FakeSession> + Drop>(
    alloc: Global,
    pool: P,
    second: u32,
    turns: &[Turn],
) -> Result<Option<usize>, Memory> {
    let mut trial = trial_of(alloc, pool, second)?;
    for (place, turn) in turns.iter().enumerate() {
        if !goes(alloc, &mut trial, *turn)? {
            return Ok(Some(place));
        }
    }
    Ok(None)
}

/// The place of the first turn that goes otherwise, where a class has at most `max_sessions` sessions
/// and its second member is at that test target.
pub(crate) fn first_other_of(
    alloc: Global,
    kind: Kind,
    (max_sessions, second): (u32, u32),
    turns: &[Turn],
) -> Result<Option<usize>, Memory> {
    let route = route_of(alloc, max_sessions)?;
    match kind {
        Kind::Plain => {
            let pool: Pool<Steady, FakeSession> = Pool::new(alloc, &route)?;
            first_other(alloc, pool, second, turns)
        }
        Kind::Indexed => {
            let pool: IndexedPool<Steady, FakeSession> = IndexedPool::new(alloc, &route)?;
            first_other(alloc, pool, second, turns)
        }
        Kind::OneDigest => {
            let pool: IndexedPool<Steady, FakeSession, Seven> = IndexedPool::new(alloc, &route)?;
            first_other(alloc, pool, second, turns)
        }
    }
}

/// The numbers of a pool of two sessions of a class.
fn numbers() -> PoolNumbers {
    PoolNumbers {
        max_sessions: 2,
        sets_max: 10,
        session_ttl: 300,
        set_ttl: 60,
        repeats: 2,
        patience: 1000,
    }
}

/// The same of a pool whose sessions have the numbers behind this one.
pub(crate) fn first_other_behind(
    alloc: Global,
    kind: Kind,
    number: u64,
    turns: &[Turn],
) -> Result<Option<usize>, Memory> {
    match kind {
        Kind::Plain => {
            let pool: Pool<Steady, FakeSession> = Pool::after(alloc, numbers(), number);
            first_other(alloc, pool, 1, turns)
        }
        Kind::Indexed => {
            let pool: IndexedPool<Steady, FakeSession> = IndexedPool::after(
                alloc,
                numbers(),
                number,
            );
            first_other(alloc, pool, 1, turns)
        }
        Kind::OneDigest => {
            let pool: IndexedPool<Steady, FakeSession, Seven> = IndexedPool::after(
                alloc,
                numbers(),
                number,
            );
            first_other(alloc, pool, 1, turns)
        }
    }
}

/// Whether a thousand sessions are dialled, of two members in turn, and lent again from the first.
pub(crate) fn lends_a_thousand(alloc: Global, kind: Kind) -> Result<bool, Memory> {
    let route = route_of(alloc, 1000)?;
    match kind {
        Kind::Plain => {
            let pool: Pool<Steady, FakeSession> = Pool::new(alloc, &route)?;
            dials_and_lends(alloc, pool)
        }
        Kind::Indexed => {
            let pool: IndexedPool<Steady, FakeSession> = IndexedPool::new(alloc, &route)?;
            dials_and_lends(alloc, pool)
        }
        Kind::OneDigest => {
            let pool: IndexedPool<Steady, FakeSession, Seven> = IndexedPool::new(alloc, &route)?;
            dials_and_lends(alloc, pool)
        }
    }
}

/// Whether a pool dials a thousand sessions and lends them again.
fn dials_and_lends<P: Door<Steady, FakeSession> + Drop>(
    alloc: Global,
    pool: P,
) -> Result<bool, Memory> {
    let mut trial = trial_of(alloc, pool, 1)?;
    Ok(dials_a_thousand(alloc, &mut trial) && lends_again(alloc, &mut trial)?)
}

/// Whether a thousand sessions are dialled, and no more.
fn dials_a_thousand<P: Door<Steady, FakeSession> + Drop>(
    alloc: Global,
    trial: &mut Trial<P>,
) -> bool {
    for _ in 0..999 {
        take_any(alloc, trial, None, 0);
    }
    take_any(alloc, trial, None, 0) == Given::Dialled(1000, 1)
        && take_any(alloc, trial, None, 0) == Given::Full(1000)
}

/// Whether a thousand sessions that are put back are lent again from the first.
fn lends_again<P: Door<Steady, FakeSession> + Drop>(
    alloc: Global,
    trial: &mut Trial<P>,
) -> Result<bool, Memory> {
    for number in 1..=1000 {
        put_back(alloc, trial, 1001 - number, 0, 0)?;
    }
    Ok(
        take_for(alloc, trial, None, 0) == Given::Reused(1)
            && take_any(alloc, trial, None, 0) == Given::Idle(2),
    )
}
