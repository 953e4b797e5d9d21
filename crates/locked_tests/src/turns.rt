//! Turns at doors, and what they gave.

use crate::holders::{Holder, Quiet, holder_of, key_for};
use pool_sets::{Door, Seat, Taken};
use route_config::Members;
use std::alloc::Global;
use z_types::{Address, List, Memory, SetKey, Text};

/// What a door gave, without the session.
#[derive(Clone, Copy, PartialEq, Eq)]
pub(crate) enum Given {
    Reused(u64),
    Idle(u64),
    Dialled(u64, u32),
    Full(u32),
    Nothing,
}

/// Under which login something happens.
#[derive(Clone, Copy)]
pub(crate) enum Login {
    /// None.
    Absent,
    /// One of no octets.
    Empty,
    /// One of a few octets.
    Own,
}

/// What happens at a door in a class, under a login, and what comes of it.
#[derive(Clone, Copy)]
pub(crate) enum Turn {
    /// Any session is taken.
    TakeAny(Given),
    /// A session for the key is taken at a moment.
    TakeFor(u64, Given),
    /// A session for another key is taken.
    TakeForOther(Given),
    /// The session of a number is put back at a moment, with a set of the key that was used then.
    Put(u64, u64),
    /// The session of a number is given up.
    Lose(u64),
    /// A member is dialled in place of the session of a number.
    Redial(u64, u32),
    /// What was unused for too long is forgotten at a moment.
    Expire(u64),
}

/// What the turns of two classes need: the addresses of the members of class 0 and of class 1, two
/// keys, and what each login is.
#[derive(Drop)]
pub(crate) struct Desk {
    first: Members,
    second: Members,
    key: SetKey,
    other: SetKey,
    absent: Option<Text>,
    empty: Option<Text>,
    own: Option<Text>,
}

impl Desk {
    /// The members of a class.
    fn members(&self, class: u32) -> &Members {
        if class == 0 {
            &self.first
        } else {
            &self.second
        }
    }

    /// What a login is.
    fn login(&self, login: Login) -> &Option<Text> {
        match login {
            Login::Absent => &self.absent,
            Login::Empty => &self.empty,
            Login::Own => &self.own,
        }
    }
}

/// A desk for a class of the test targets 0 and 1, and one of 1, 2 and 3.
pub(crate) fn desk_of(alloc: Global) -> Result<Desk, Memory> {
    let mut first = List::new(alloc);
    first.push(Address::Test(0))?;
    first.push(Address::Test(1))?;
    let mut second = List::new(alloc);
    second.push(Address::Test(1))?;
    second.push(Address::Test(2))?;
    second.push(Address::Test(3))?;
    Ok(Desk {
        first: Members::new(first),
        second: Members::new(second),
        key: key_for(alloc, 3)?,
        other: key_for(alloc, 4)?,
        absent: None,
        empty: Some(Text::new(alloc)),
        own: Some(Text::copy_of(alloc, b"own")?),
    })
}

/// What was given.
fn what_was_given(taken: &Taken<Holder>) -> Given {
    match taken {
        Taken::Reuse { seat, .. } => Given::Reused(seat.number),
        Taken::Fresh { seat, .. } => Given::Idle(seat.number),
        Taken::Dial { seat, member } => Given::Dialled(seat.number, *member),
        Taken::Full { open } => Given::Full(*open),
        Taken::Memory => Given::Nothing,
    }
}

/// Takes a session of a class and login.
fn take<D: Door<Quiet, Holder>>(
    alloc: Global,
    desk: &Desk,
    door: &mut D,
    class: u32,
    login: Login,
    want: Option<&SetKey>,
    now: u64,
) -> Given {
    let at = desk.members(class).as_slice();
    what_was_given(&door.take(alloc, class, at, desk.login(login).as_ref(), want, now))
}

/// Puts the session of a seat back, at the address that both classes have, inside a login.
fn put<D: Door<Quiet, Holder>>(
    alloc: Global,
    desk: &Desk,
    door: &mut D,
    seat: Seat,
    login: Login,
    now: u64,
) -> Result<(), Memory> {
    let parts = holder_of(alloc, &desk.key, desk.login(login), now)?.apart();
    door.put(seat, parts, now);
    Ok(())
}

/// The member of a class to dial in place of a session.
fn redial<D: Door<Quiet, Holder>>(desk: &Desk, door: &mut D, class: u32, number: u64) -> u32 {
    door.redial(&mut Seat { class, number }, desk.members(class).as_slice())
}

/// Whether a turn of a class, under a login, goes so.
pub(crate) fn goes<D: Door<Quiet, Holder>>(
    alloc: Global,
    desk: &Desk,
    door: &mut D,
    class: u32,
    login: Login,
    turn: Turn,
) -> Result<bool, Memory> {
    match turn {
        Turn::TakeAny(given) => Ok(take(alloc, desk, door, class, login, None, 0) == given),
        Turn::TakeFor(now, given) => {
            Ok(take(alloc, desk, door, class, login, Some(&desk.key), now) == given)
        }
        Turn::TakeForOther(given) => {
            Ok(take(alloc, desk, door, class, login, Some(&desk.other), 0) == given)
        }
        Turn::Put(number, now) => {
            put(alloc, desk, door, Seat { class, number }, login, now)?;
            Ok(true)
        }
        Turn::Lose(number) => {
            door.lost(Seat { class, number });
            Ok(true)
        }
        Turn::Redial(number, member) => Ok(redial(desk, door, class, number) == member),
        Turn::Expire(now) => {
            door.expire(now);
            Ok(true)
        }
    }
}
