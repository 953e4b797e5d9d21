//! Idle sessions, found by their class and login, or by their class. A pair that stands for no idle
//! session any more is taken out where it is met, so it is met once.

ghost use Rattle.std.specs.Prelude.{◌≡◌, ◌<◌, ◌++◌, ◌∷◌, [], true, length, is_some, option_copied, All, IfSome, IsNone, OnOk};
ghost use Rattle.std.specs.List.{HoldsAt};
ghost use Rattle.pool_sets.specs.Sessions.{idle_in, idle_for};
ghost use Rattle.pool_core.specs.PoolView.{idle_place, own_place};
ghost use Rattle.pool_keys.specs.Pairs.{Grows, pair};
ghost use Rattle.pool_roster.specs.Told.{Gains, sharers_of};
ghost use Rattle.pool_roster.specs.RosterView.{RiseIn, IsOneOf, IsNoneOf};
ghost use Rattle.pool_index.specs.RegisterView.{IsFound, IsGathered, IsGone, KeepsOthers};

use pool_keys::{Digest, KeyIndex, Pair};
use pool_roster::Roster;
use z_types::{Address, Memory, Sitting, Text, World};

/// The pair by which a session is found among those of its class and login.
fn own_pair<W: World, S: Sitting<W>, D: Digest>(roster: &Roster<W, S, D>, place: usize) -> Pair
    requires within { place < length roster.now.sessions }
    ensures { HoldsAt (λ o. result ≡ pair (D.own (sharers_of o)) o.number)
        roster.now.sessions place }
{
    Pair {
        digest: roster.digest(place),
        number: roster.number(place),
    }
}

/// The pair by which it is found among those of its class.
fn class_pair<W: World, S: Sitting<W>, D: Digest>(roster: &Roster<W, S, D>, place: usize) -> Pair
    requires within { place < length roster.now.sessions }
    ensures { HoldsAt (λ o. result ≡ pair o.class o.number) roster.now.sessions place }
{
    Pair {
        digest: u64::from(roster.class(place)),
        number: roster.number(place),
    }
}

/// Puts the session at a place into the index.
pub fn list<W: World, S: Sitting<W>, D: Digest>(
    index: &mut KeyIndex,
    roster: &Roster<W, S, D>,
    place: usize,
)
    requires within { place < length roster.now.sessions }
    ensures grows { Grows index.old index.new }
    ensures listed { HoldsAt (IsFound D.own index.new) roster.now.sessions place }
{
    index.admit(own_pair(roster, place));
    index.admit(class_pair(roster, place));
}

/// Takes a pair out where it stands.
fn drop_pair(index: &mut KeyIndex, pair: Pair)
    ensures others { KeepsOthers pair.number index.old index.new }
    ensures whole { index.new.whole ≡ index.old.whole }
{
    index.take_out(pair);
}

/// Takes the session at a place out of the index.
pub fn take_out<W: World, S: Sitting<W>, D: Digest>(
    index: &mut KeyIndex,
    roster: &Roster<W, S, D>,
    place: usize,
)
    requires within { place < length roster.now.sessions }
    ensures { HoldsAt (λ o. KeepsOthers o.number index.old index.new) roster.now.sessions place }
{
    drop_pair(index, own_pair(roster, place));
    drop_pair(index, class_pair(roster, place));
}

/// Puts a pair at the end.
fn push(pairs: &mut Vec<Pair>, pair: Pair) -> Result<(), Memory>
    ensures { OnOk result (pairs.new.items ≡ pairs.old.items ++ pair ∷ []) }
{
    pairs.push(pair)?;
    Ok(())
}

/// Puts the pairs of the session at a place at the end.
fn gather_one<W: World, S: Sitting<W>, D: Digest>(
    pairs: &mut Vec<Pair>,
    roster: &Roster<W, S, D>,
    place: usize,
) -> Result<(), Memory>
    requires within { place < length roster.now.sessions }
    ensures gains { OnOk result (Gains pairs.old.items pairs.new.items) }
    ensures gathered { OnOk result
        (HoldsAt (IsGathered D.own pairs.new.items) roster.now.sessions place) }
{
    let Ok(()) = push(pairs, own_pair(roster, place)) else {
        return Err(Memory);
    };
    let Ok(()) = push(pairs, class_pair(roster, place)) else {
        return Err(Memory);
    };
    Ok(())
}

/// Puts the pairs of all sessions at the end.
pub fn gather<W: World, S: Sitting<W>, D: Digest>(
    pairs: &mut Vec<Pair>,
    roster: &Roster<W, S, D>,
) -> Result<(), Memory>
    ensures gathered { OnOk result (All (IsGathered D.own pairs.new.items) roster.now.sessions) }
{
    for place in 0..roster.len() {
        let Ok(()) = gather_one(pairs, roster, place) else {
            return Err(Memory);
        };
    }
    Ok(())
}

/// Whether no session of a number is idle.
fn is_gone<W: World, S: Sitting<W>, D: Digest>(roster: &Roster<W, S, D>, number: u64) -> bool
    requires order { RiseIn roster.now.sessions }
    ensures { result ≡ true → IsGone number roster.now.sessions }
{
    match roster.place(number) {
        Some(place) => roster.is_out(place),
        None => true,
    }
}

/// Takes a pair out where no session of its number is idle.
fn take_out_gone<W: World, S: Sitting<W>, D: Digest>(
    index: &mut KeyIndex,
    roster: &Roster<W, S, D>,
    pair: Pair,
)
    requires order { RiseIn roster.now.sessions }
    requires found { All (IsFound D.own index.old) roster.now.sessions }
    ensures found { All (IsFound D.own index.new) roster.now.sessions }
    ensures whole { index.new.whole ≡ index.old.whole }
{
    if is_gone(roster, pair.number) {
        drop_pair(index, pair);
    }
}

/// The place of the session of a number, where it is idle and one of the class and login.
fn own_at<W: World, S: Sitting<W>, D: Digest>(
    roster: &Roster<W, S, D>,
    number: u64,
    class: u32,
    at: &[Address],
    login: Option<&Text>,
) -> Option<usize>
    requires order { RiseIn roster.now.sessions }
    ensures some { IfSome result
        (IsOneOf (λ o. is_some (idle_for class at.now (option_copied login.entry) o)) number
        roster.now.sessions) }
    ensures none { IsNone result
        → IsNoneOf (λ o. is_some (idle_for class at.now (option_copied login.entry) o)) number
        roster.now.sessions }
{
    let Some(place) = roster.place(number) else {
        return None;
    };
    if roster.is_own(place, class, at, login) {
        Some(place)
    } else {
        None
    }
}

/// The same whatever its login.
fn idle_at<W: World, S: Sitting<W>, D: Digest>(
    roster: &Roster<W, S, D>,
    number: u64,
    class: u32,
    at: &[Address],
) -> Option<usize>
    requires order { RiseIn roster.now.sessions }
    ensures some { IfSome result
        (IsOneOf (λ o. is_some (idle_in class at.now o)) number roster.now.sessions) }
    ensures none { IsNone result
        → IsNoneOf (λ o. is_some (idle_in class at.now o)) number roster.now.sessions }
{
    let Some(place) = roster.place(number) else {
        return None;
    };
    if roster.is_idle(place, class, at) {
        Some(place)
    } else {
        None
    }
}

/// The place of the first idle session of the class and login.
pub fn first_own<W: World, S: Sitting<W>, D: Digest>(
    roster: &Roster<W, S, D>,
    index: &mut KeyIndex,
    class: u32,
    at: &[Address],
    login: Option<&Text>,
) -> Option<usize>
    requires order { RiseIn roster.now.sessions }
    requires whole { index.old.whole ≡ true }
    requires found { All (IsFound D.own index.old) roster.now.sessions }
    ensures place { result
        ≡ own_place class at.now (option_copied login.entry) roster.now.sessions }
    ensures found { All (IsFound D.own index.new) roster.now.sessions }
{
    let digest = D::own(class, login);
    let mut from = 0;
    loop {
        let Some(number) = index.next(digest, from) else {
            return None;
        };
        if let Some(place) = own_at(roster, number, class, at, login) {
            return Some(place);
        }
        take_out_gone(index, roster, Pair { digest, number });
        let Some(after) = number.checked_add(1) else {
            return None;
        };
        from = after;
    }
}

/// The place of the first idle session of the class, whatever its login.
pub fn first_idle<W: World, S: Sitting<W>, D: Digest>(
    roster: &Roster<W, S, D>,
    index: &mut KeyIndex,
    class: u32,
    at: &[Address],
) -> Option<usize>
    requires order { RiseIn roster.now.sessions }
    requires whole { index.old.whole ≡ true }
    requires found { All (IsFound D.own index.old) roster.now.sessions }
    ensures place { result ≡ idle_place class at.now roster.now.sessions }
    ensures found { All (IsFound D.own index.new) roster.now.sessions }
{
    let digest = u64::from(class);
    let mut from = 0;
    loop {
        let Some(number) = index.next(digest, from) else {
            return None;
        };
        if let Some(place) = idle_at(roster, number, class, at) {
            return Some(place);
        }
        take_out_gone(index, roster, Pair { digest, number });
        let Some(after) = number.checked_add(1) else {
            return None;
        };
        from = after;
    }
}
