//! How many open sessions of a class count for each of its members.

ghost use Rattle.std.specs.Prelude.{◌≡◌, ◌==◌, ◌<◌, ◌^◌, true, false, not, map, filter, [], ◌∷◌, ◌++◌, length, option_copied, IfOk, IfSome, OnOk, OnErr};
ghost use Rattle.std.specs.List.{HoldsAt};
ghost use Rattle.pool_roster.specs.RosterView.{RiseIn};
ghost use Rattle.pool_index.specs.Tallies.{stepped, loads_stepped, tallied, changed, IsTally, IsTallyFor, IsTallyPlace, IsAdded, Loads};

use pool_keys::Digest;
use pool_roster::Roster;
use pool_sets::Seat;
use std::alloc::Global;
use z_types::{Address, List, Memory, Sitting, World, copy};

/// The members that a class has at most.
const MEMBERS: usize = 16;

/// How many open sessions of a class, at one of some addresses, there are, and how many count for each
/// member.
#[derive(Drop)]
pub struct Tally {
    class: u32,
    at: List<Address>,
    all: u32,
    loads: [u32; MEMBERS],
}

/// A count once a session has come or gone.
fn stepped(count: u32, comes: bool) -> u32
    ensures { result ≡ stepped comes count }
{
    if comes {
        count.saturating_add(1)
    } else {
        count.saturating_sub(1)
    }
}

/// The counts of the members, once one has come or gone.
fn stepped_loads(mut loads: [u32; MEMBERS], member: u32, comes: bool) -> [u32; MEMBERS]
    ensures { result ≡ loads_stepped comes member loads }
{
    let place = member as usize;
    if place < MEMBERS {
        loads[place] = stepped(loads[place], comes);
    }
    loads
}

/// A session that counts for a member comes or goes.
fn step(tally: &mut Tally, member: u32, comes: bool)
    ensures { tally.new ≡ tallied comes member tally.old }
{
    tally.all = stepped(tally.all, comes);
    tally.loads = stepped_loads(tally.loads, member, comes);
}

/// The session at a place comes or goes, where the tally counts it.
pub fn change<W: World, S: Sitting<W>, D: Digest>(
    tally: &mut Tally,
    roster: &Roster<W, S, D>,
    place: usize,
    comes: bool,
)
    requires within { place < length roster.now.sessions }
    ensures { HoldsAt (λ o. tally.new ≡ changed comes o tally.old) roster.now.sessions place }
{
    if roster.is_in(place, tally.class, tally.at.as_slice()) {
        step(tally, roster.member(place), comes);
    }
}

/// Addresses of one's own.
fn own_addresses(alloc: Global, at: &[Address]) -> Result<List<Address>, Memory>
    ensures { IfOk result (λ own. own ≡ at.now) }
{
    let mut own = List::new(alloc);
    for address in at {
        own.push(copy(address)?)?;
    }
    Ok(own)
}

/// The tally of a class, by a look at each session.
pub fn tally_of<W: World, S: Sitting<W>, D: Digest>(
    alloc: Global,
    roster: &Roster<W, S, D>,
    class: u32,
    at: &[Address],
) -> Result<Tally, Memory>
    requires few { length roster.now.sessions < 2 ^ 32 }
    ensures { IfOk result (λ tally. IsTally roster.now.sessions tally) }
{
    let mut tally = Tally {
        class,
        at: own_addresses(alloc, at)?,
        all: 0,
        loads: [0; MEMBERS],
    };
    for place in 0..roster.len() {
        change(&mut tally, roster, place, true);
    }
    Ok(tally)
}

/// Whether these are the same addresses.
fn are_same(own: &[Address], at: &[Address]) -> bool
    ensures { result ≡ true → own.now ≡ at.now }
{
    *own == *at
}

/// Whether that is the tally of the class at these addresses.
fn is_of(tally: &Tally, class: u32, at: &[Address]) -> bool
    ensures { result ≡ true → IsTallyFor class at.now tally.now }
{
    tally.class == class && are_same(tally.at.as_slice(), at)
}

/// The place of the tally of the class at these addresses, where there is one.
pub fn place_for(tallies: &[Tally], class: u32, at: &[Address]) -> Option<usize>
    ensures { IfSome result (IsTallyPlace class at.now tallies.now) }
{
    for place in 0..tallies.len() {
        if is_of(&tallies[place], class, at) {
            return Some(place);
        }
    }
    None
}

/// The session at a place comes or goes, in each tally that counts it.
pub fn change_all<W: World, S: Sitting<W>, D: Digest>(
    tallies: &mut Vec<Tally>,
    roster: &Roster<W, S, D>,
    place: usize,
    comes: bool,
)
    requires within { place < length roster.now.sessions }
    ensures { HoldsAt (λ o. tallies.new.items ≡ map (changed comes o) tallies.old.items)
        roster.now.sessions place }
{
    for row in 0..tallies.len() {
        change(&mut tallies[row], roster, place, comes);
    }
}

/// Drops the tally of a class.
pub fn drop_class(tallies: &mut Vec<Tally>, class: u32)
    ensures { tallies.new.items ≡ filter (λ t. not (t.class == class)) tallies.old.items }
{
    tallies.retain(|t| t.class != class);
}

/// Puts a tally at the end.
fn push(tallies: &mut Vec<Tally>, tally: Tally) -> Result<(), Memory>
    ensures ok { OnOk result (tallies.new.items ≡ tallies.old.items ++ tally ∷ []) }
    ensures err { OnErr result (tallies.new.items ≡ tallies.old.items) }
{
    tallies.push(tally)?;
    Ok(())
}

/// Puts a tally at the end, where memory can be had.
pub fn add(tallies: &mut Vec<Tally>, tally: Tally)
    ensures { IsAdded tally tallies.old.items tallies.new.items }
{
    match push(tallies, tally) {
        Ok(()) => {}
        Err(Memory) => {}
    }
}

impl Tally {
    /// How many sessions there are.
    pub fn count(&self) -> u32
        ensures { result ≡ self.now.all }
    {
        self.all
    }

    /// How many sessions count for each member, but for the one at a place.
    fn loads_without<W: World, S: Sitting<W>, D: Digest>(
        &self,
        roster: &Roster<W, S, D>,
        place: usize,
    ) -> [u32; MEMBERS]
        requires within { place < length roster.now.sessions }
        ensures { HoldsAt (λ o. result ≡ (changed false o self.now).loads)
            roster.now.sessions place }
    {
        if roster.is_in(place, self.class, self.at.as_slice()) {
            stepped_loads(self.loads, roster.member(place), false)
        } else {
            self.loads
        }
    }

    /// How many sessions count for each member, but for that of a seat.
    pub fn loads_but<W: World, S: Sitting<W>, D: Digest>(
        &self,
        roster: &Roster<W, S, D>,
        but: Option<&Seat>,
    ) -> [u32; MEMBERS]
        requires order { RiseIn roster.now.sessions }
        requires right { IsTally roster.now.sessions self.now }
        ensures { Loads (option_copied but.entry) self.now roster.now.sessions result }
    {
        let Some(seat) = but else {
            return self.loads;
        };
        let Some(place) = roster.seat(seat) else {
            return self.loads;
        };
        self.loads_without(roster, place)
    }
}
