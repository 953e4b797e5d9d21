//! The sessions of a pool in the order of their numbers, as it left them.

ghost use Rattle.std.specs.Prelude.{◌≡◌, ◌≢◌, ◌==◌, ◌≤◌, ◌<◌, ◌^◌, true, false, nat_lt, not, filter, map, All, length, position, is_some, count_by, option_copied, IfSome, IsNone, OnOk, OnErr, ◌++◌, ◌∷◌, []};
ghost use Rattle.std.specs.List.Sorted.{IsPartitionPoint};
ghost use Rattle.pool_sets.specs.Sessions.{idle_in, idle_for, idle_with, in_class, member_for};
ghost use Rattle.pool_sets.specs.Plain.{stays_open, is_seat};
ghost use Rattle.pool_core.specs.Loads.{is_counted, is_counted_for};
ghost use Rattle.pool_roster.specs.Told.{settled, StandSince};
ghost use Rattle.pool_roster.specs.RosterView.{Rises, IsPlace};

use crate::Berth;
use crate::berth::{Expiries, settle};
use load_balance::least;
use pool_core::{
    Spot, holds_in, is_idle_for, is_idle_in, is_in_class, is_of_member, is_seat, stays,
};
use pool_sets::{Open, Pooled, Seat, Stand};
use z_types::{Address, Memory, SetKey, Sitting, Text, World};

/// Leaves each session as it is told.
pub fn settle_each<W: World, S: Sitting<W>>(
    berths: &mut Vec<Berth<Open<Pooled<W, S>, Spot>>>,
    expiries: Expiries,
    ttl: u64,
    stamp: u64,
)
    ensures { berths.new.items ≡ map (settled expiries ttl stamp) berths.old.items }
{
    for place in 0..berths.len() {
        settle(&mut berths[place], expiries, ttl, stamp);
    }
}

/// Drops the sessions that were unused for too long.
pub fn drop_old<W: World, S: Sitting<W>>(
    berths: &mut Vec<Berth<Open<Pooled<W, S>, Spot>>>,
    now: u64,
    ttl: u64,
)
    ensures { berths.new.items ≡ filter (λ b. stays_open now ttl b.session) berths.old.items }
{
    berths.retain(|b| stays(&b.session, now, ttl));
}

/// Drops the session of a number.
pub fn drop_number<W: World, S: Sitting<W>>(
    berths: &mut Vec<Berth<Open<Pooled<W, S>, Spot>>>,
    number: u64,
)
    requires order { Rises berths.old.items }
    ensures { berths.new.items
        ≡ filter (λ b. not (b.session.number == number)) berths.old.items }
{
    if let Some(place) = place_of(berths.as_slice(), number) {
        berths.remove(place);
    }
}

/// Drops the session of the seat.
pub fn drop_seat<W: World, S: Sitting<W>>(
    berths: &mut Vec<Berth<Open<Pooled<W, S>, Spot>>>,
    seat: &Seat,
)
    requires order { Rises berths.old.items }
    ensures { berths.new.items
        ≡ filter (λ b. not (is_seat seat.now b.session)) berths.old.items }
{
    if let Some(place) = seat_place(berths.as_slice(), seat) {
        berths.remove(place);
    }
}

/// The moment since when the session is idle, or the last of all moments.
fn since<W: World, S: Sitting<W>>(session: &Open<Pooled<W, S>, Spot>) -> u64
    ensures { StandSince result session.now.stand }
{
    match &session.stand {
        Stand::Idle { since, .. } => *since,
        Stand::Out { .. } => u64::MAX,
    }
}

/// A moment since when each session is idle that is.
pub fn oldest<W: World, S: Sitting<W>>(berths: &[Berth<Open<Pooled<W, S>, Spot>>]) -> u64
    ensures { All (λ b. StandSince result b.session.stand) berths.now }
{
    let mut oldest = u64::MAX;
    for berth in berths {
        oldest = oldest.min(since(&berth.session));
    }
    oldest
}

/// Puts a session at the end.
pub fn add<W: World, S: Sitting<W>>(
    berths: &mut Vec<Berth<Open<Pooled<W, S>, Spot>>>,
    berth: Berth<Open<Pooled<W, S>, Spot>>,
) -> Result<(), Memory>
    ensures ok { OnOk result (berths.new.items ≡ berths.old.items ++ berth ∷ []) }
    ensures err { OnErr result (berths.new.items ≡ berths.old.items) }
{
    berths.push(berth)?;
    Ok(())
}

/// How many sessions have lesser numbers.
fn count_below<W: World, S: Sitting<W>>(
    berths: &[Berth<Open<Pooled<W, S>, Spot>>],
    number: u64,
) -> usize
    requires order { Rises berths.now }
    ensures bound { result ≤ length berths.now }
    ensures point { IsPartitionPoint (λ b. nat_lt b.session.number number ≡ true)
        (λ b. nat_lt b.session.number number ≡ false) berths.now result }
{
    berths.partition_point(|b| b.session.number < number)
}

/// The place of the session of a number.
pub fn place_of<W: World, S: Sitting<W>>(
    berths: &[Berth<Open<Pooled<W, S>, Spot>>],
    number: u64,
) -> Option<usize>
    requires order { Rises berths.now }
    ensures some { IfSome result (IsPlace number berths.now) }
    ensures none { IsNone result → All (λ b. b.session.number ≢ number) berths.now }
{
    let place = count_below(berths, number);
    if place >= berths.len() {
        return None;
    }
    if berths[place].session.number != number {
        return None;
    }
    Some(place)
}

/// The place of the session of the seat, where it is out.
pub fn seat_place<W: World, S: Sitting<W>>(
    berths: &[Berth<Open<Pooled<W, S>, Spot>>],
    seat: &Seat,
) -> Option<usize>
    requires order { Rises berths.now }
    ensures { result ≡ position (λ b. is_seat seat.now b.session) berths.now }
{
    let Some(place) = place_of(berths, seat.number) else {
        return None;
    };
    if is_seat(&berths[place].session, seat) {
        Some(place)
    } else {
        None
    }
}

/// The place of the first idle session of the class.
pub fn idle_place<W: World, S: Sitting<W>>(
    berths: &[Berth<Open<Pooled<W, S>, Spot>>],
    class: u32,
    at: &[Address],
) -> Option<usize>
    ensures { result ≡ position (λ b. is_some (idle_in class at.now b.session)) berths.now }
{
    berths
        .iter()
        .position(|b| is_idle_in(&b.session, class, at))
}

/// The place of the first of them that is one of the login.
pub fn own_place<W: World, S: Sitting<W>>(
    berths: &[Berth<Open<Pooled<W, S>, Spot>>],
    class: u32,
    at: &[Address],
    login: Option<&Text>,
) -> Option<usize>
    ensures { result ≡ position
        (λ b. is_some (idle_for class at.now (option_copied login.entry) b.session)) berths.now }
{
    berths
        .iter()
        .position(|b| is_idle_for(&b.session, class, at, login))
}

/// The place of the first of those that holds a set of the key, as it was left.
pub fn holder_place<W: World, S: Sitting<W>>(
    berths: &[Berth<Open<Pooled<W, S>, Spot>>],
    class: u32,
    at: &[Address],
    login: Option<&Text>,
    key: &SetKey,
) -> Option<usize>
    ensures { result ≡ position
        (λ b. is_some (idle_with class at.now (option_copied login.entry) key.now b.session))
        berths.now }
{
    berths
        .iter()
        .position(|b| holds_in(&b.session, class, at, login, key))
}

/// How many sessions of the class are open.
pub fn open_in<W: World, S: Sitting<W>>(
    berths: &[Berth<Open<Pooled<W, S>, Spot>>],
    class: u32,
    at: &[Address],
) -> usize
    ensures count { result ≡ count_by (λ b. in_class class at.now b.session) berths.now }
{
    berths
        .iter()
        .filter(|b| is_in_class(&b.session, class, at))
        .count()
}

/// How many sessions count for a member of the class.
fn load<W: World, S: Sitting<W>>(
    berths: &[Berth<Open<Pooled<W, S>, Spot>>],
    class: u32,
    at: &[Address],
    member: u32,
    but: Option<&Seat>,
) -> u32
    requires few { length berths.now < 2 ^ 32 }
    ensures { result ≡ count_by
        (λ b. is_counted_for (option_copied but.entry) class at.now member b.session) berths.now }
{
    berths
        .iter()
        .filter(|b| is_of_member(&b.session, class, at, member, but))
        .count() as u32
}

/// The member of the class with the fewest sessions, the first in a tie.
pub fn member_for<W: World, S: Sitting<W>>(
    berths: &[Berth<Open<Pooled<W, S>, Spot>>],
    class: u32,
    at: &[Address],
    but: Option<&Seat>,
) -> u32
    requires few { length berths.now < 2 ^ 32 }
    requires some { 0 < length at.now }
    requires members { length at.now ≤ 16 }
    ensures member { result ≡ member_for class at.now
        (filter (is_counted (option_copied but.entry)) (map (λ b. b.session) berths.now)) }
    ensures within { result < length at.now }
{
    let mut loads = [0; 16];
    for member in 0..at.len() {
        loads[member] = load(berths, class, at, member as u32, but);
    }
    least(&loads[..at.len()])
}
