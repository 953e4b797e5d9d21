//! Which session of a pool is chosen.

ghost use Rattle.std.specs.Prelude.{◌≡◌, ◌<◌, ◌^◌, ◌≤◌, position, option_copied, length, filter, count_by};
ghost use Rattle.pool_sets.specs.Sessions.{open_of, member_for};
ghost use Rattle.pool_sets.specs.Plain.{is_seat};
ghost use Rattle.pool_core.specs.Loads.{is_counted, is_counted_for};
ghost use Rattle.pool_core.specs.PoolView.{idle_place, own_place, holder_place, idle_number};

use crate::Spot;
use crate::session::{holds_in, is_idle_for, is_idle_in, is_in_class, is_of_member, is_seat};
use load_balance::least;
use pool_sets::{Open, Pooled, Seat};
use z_types::{Address, SetKey, Sitting, Text, World};

/// The place of the first idle session of the class.
pub fn idle_place<W: World, S: Sitting<W>>(
    sessions: &[Open<Pooled<W, S>, Spot>],
    class: u32,
    at: &[Address],
) -> Option<usize>
    ensures { result ≡ idle_place class at.now sessions.now }
{
    sessions.iter().position(|o| is_idle_in(o, class, at))
}

/// The place of the first of them that is one of the login.
pub fn own_place<W: World, S: Sitting<W>>(
    sessions: &[Open<Pooled<W, S>, Spot>],
    class: u32,
    at: &[Address],
    login: Option<&Text>,
) -> Option<usize>
    ensures { result ≡ own_place class at.now (option_copied login.entry) sessions.now }
{
    sessions
        .iter()
        .position(|o| is_idle_for(o, class, at, login))
}

/// The place of the first of those that holds a set of the key.
pub fn holder_place<W: World, S: Sitting<W>>(
    sessions: &[Open<Pooled<W, S>, Spot>],
    class: u32,
    at: &[Address],
    login: Option<&Text>,
    key: &SetKey,
) -> Option<usize>
    ensures { result
        ≡ holder_place class at.now (option_copied login.entry) key.now sessions.now }
{
    sessions
        .iter()
        .position(|o| holds_in(o, class, at, login, key))
}

/// The number of the first idle session of the class.
pub fn first_idle<W: World, S: Sitting<W>>(
    sessions: &[Open<Pooled<W, S>, Spot>],
    class: u32,
    at: &[Address],
) -> Option<u64>
    ensures { result ≡ idle_number class at.now sessions.now }
{
    let Some(place) = idle_place(sessions, class, at) else {
        return None;
    };
    Some(sessions[place].number)
}

/// How many sessions of the class are open, whatever their logins.
pub fn open_in<W: World, S: Sitting<W>>(
    sessions: &[Open<Pooled<W, S>, Spot>],
    class: u32,
    at: &[Address],
) -> usize
    ensures count { result ≡ open_of class at.now sessions.now }
{
    sessions
        .iter()
        .filter(|o| is_in_class(*o, class, at))
        .count()
}

/// The place of the session of the seat, where it is out.
pub fn seat_place<W: World, S: Sitting<W>>(
    sessions: &[Open<Pooled<W, S>, Spot>],
    seat: &Seat,
) -> Option<usize>
    ensures { result ≡ position (λ o. is_seat seat.now o) sessions.now }
{
    sessions.iter().position(|o| is_seat(o, seat))
}

/// How many sessions count for a member of the class.
fn load<W: World, S: Sitting<W>>(
    sessions: &[Open<Pooled<W, S>, Spot>],
    class: u32,
    at: &[Address],
    member: u32,
    but: Option<&Seat>,
) -> u32
    requires few { length sessions.now < 2 ^ 32 }
    ensures { result
        ≡ count_by (is_counted_for (option_copied but.entry) class at.now member) sessions.now }
{
    sessions
        .iter()
        .filter(|o| is_of_member(*o, class, at, member, but))
        .count() as u32
}

/// The member of the class with the fewest sessions, the first in a tie.
pub fn member_for<W: World, S: Sitting<W>>(
    sessions: &[Open<Pooled<W, S>, Spot>],
    class: u32,
    at: &[Address],
    but: Option<&Seat>,
) -> u32
    requires few { length sessions.now < 2 ^ 32 }
    requires some { 0 < length at.now }
    requires members { length at.now ≤ 16 }
    ensures member { result
        ≡ member_for class at.now (filter (is_counted (option_copied but.entry)) sessions.now) }
    ensures within { result < length at.now }
{
    let mut loads = [0; 16];
    for member in 0..at.len() {
        loads[member] = load(sessions, class, at, member as u32, but);
    }
    least(&loads[..at.len()])
}
