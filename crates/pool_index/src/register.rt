//! The sessions of a pool, where idle ones are found, and how many of a class are open.

ghost use Rattle.std.specs.Prelude.{◌≡◌, ◌≤◌, ◌<◌, ◌^◌, ◌-◌, ◌++◌, ◌∷◌, [], true, length, position, filter, IfSome, OnOk, OnErr, option_copied};
ghost use Rattle.std.specs.List.{HoldsAt};
ghost use Rattle.z_types.specs.Logins.{inner};
ghost use Rattle.z_types.specs.Members.{IsMember};
ghost use Rattle.pool_sets.specs.declared.sessions.Stand.TheVariants.{Idle, Out};
ghost use Rattle.pool_sets.specs.Sessions.{idle_parts, is_out, stand_target, with_stand, without_number, open_of, member_for};
ghost use Rattle.pool_sets.specs.Plain.{Ascends, fresh_sessions, is_seat, without_seat};
ghost use Rattle.pool_core.specs.Loads.{is_counted};
ghost use Rattle.pool_core.specs.PoolView.{idle_number, own_place, holder_place, out_session, at_member};
ghost use Rattle.pool_roster.specs.RosterView.{with_told, Changes, roster_of};

use crate::idlers::{first_idle, first_own, gather, list, take_out};
use crate::tally::{Tally, add, change_all, drop_class, place_for, tally_of};
use load_balance::least;
use pool_core::Spot;
use pool_keys::{Digest, KeyIndex};
use pool_roster::Roster;
use pool_sets::{Pooled, Seat};
use std::alloc::Global;
use std::marker::Model;
use z_types::{Address, Memory, SetKey, Sitting, Text, World};

/// A roster, the pairs of its idle sessions, and tallies of classes, one of each class at most. Where no
/// tally is of the addresses that are asked for, and where the index lacks pairs, each session is looked
/// at.
#[derive(Drop)]
pub struct Register<W: World, S: Sitting<W>, D: Digest> {
    roster: Roster<W, S, D>,
    index: KeyIndex,
    tallies: Vec<Tally>,
}

impl<W: World, S: Sitting<W>, D: Digest> Model for Register<W, S, D> {
    ghost use Rattle.std.specs.Coded.{codes};
    ghost use Rattle.z_types.specs.Tree.{tree_code};
    ghost use Rattle.pool_roster.specs.RosterView.{RosterView};
    ghost use Rattle.pool_index.specs.RegisterView.{IsRegister};

    ghost Value = { RosterView S };

    ghost coded = { Prim.hlevel (codes, tree_code) };

    ghost view = { λ r. r.roster };

    ghost invariant = { λ r. IsRegister D.own r.index r.tallies.items r.roster.sessions };
}

impl<W: World, S: Sitting<W>, D: Digest> Register<W, S, D> {
    /// No sessions. It takes no memory yet.
    pub fn new(alloc: Global, session_ttl: u64, set_ttl: u64) -> Register<W, S, D>
        ensures { result ≡ roster_of session_ttl set_ttl }
    {
        Register {
            roster: Roster::new(alloc, session_ttl, set_ttl),
            index: KeyIndex::new(alloc),
            tallies: Vec::new(alloc),
        }
    }

    /// Drops the sessions, and forgets the sets, that were unused for too long.
    pub fn expire(&mut self, now: u64)
        ensures { self.new ≡ with_told
            (fresh_sessions now self.old.session_ttl self.old.set_ttl self.old.sessions) self.old }
    {
        let open_before = self.roster.len();
        self.roster.expire(now);
        if self.roster.len() != open_before {
            self.index.forget();
            self.tallies.clear();
        }
    }

    /// How many sessions there are.
    pub fn len(&self) -> usize
        ensures { result ≡ length self.now.sessions }
    {
        self.roster.len()
    }

    /// The number of the session at a place.
    pub fn number(&self, place: usize) -> u64
        requires within { place < length self.now.sessions }
        ensures { HoldsAt (λ o. result ≡ o.number) self.now.sessions place }
    {
        self.roster.number(place)
    }

    /// A spot with the address of the session at a place, without its login, where it is idle.
    pub fn spot(&self, alloc: Global, place: usize) -> Option<Spot>
        requires within { place < length self.now.sessions }
        ensures { IfSome result (λ spot. HoldsAt
            (λ o. IfSome (idle_parts o.stand) (λ p. spot ≡ inner p.address))
            self.now.sessions place) }
    {
        self.roster.spot(alloc, place)
    }

    /// Puts all idle sessions into the index anew, where some are lacking, as far as memory can be had.
    fn complete(&mut self, alloc: Global)
        ensures { self.new ≡ self.old }
    {
        if self.index.is_whole() {
            return;
        }
        let mut pairs = self.index.emptied(alloc);
        let Ok(()) = gather(&mut pairs, &self.roster) else {
            return;
        };
        self.index.refill(pairs);
    }

    /// The number of the first idle session of the class, whatever its login.
    pub fn idle(&mut self, alloc: Global, class: u32, at: &[Address]) -> Option<u64>
        ensures number { result ≡ idle_number class at.now self.old.sessions }
        ensures same { self.new ≡ self.old }
    {
        self.complete(alloc);
        self.idle_found(class, at)
    }

    /// The same by the index, where it is whole.
    fn idle_found(&mut self, class: u32, at: &[Address]) -> Option<u64>
        ensures number { result ≡ idle_number class at.now self.old.sessions }
        ensures same { self.new ≡ self.old }
    {
        if !self.index.is_whole() {
            return self.roster.idle(class, at);
        }
        self.roster.rises();
        let Some(place) = first_idle(&self.roster, &mut self.index, class, at) else {
            return None;
        };
        Some(self.roster.number(place))
    }

    /// The place of the first idle session of the class and login.
    pub fn own(
        &mut self,
        alloc: Global,
        class: u32,
        at: &[Address],
        login: Option<&Text>,
    ) -> Option<usize>
        ensures place { result
            ≡ own_place class at.now (option_copied login.entry) self.old.sessions }
        ensures same { self.new ≡ self.old }
    {
        self.complete(alloc);
        self.own_found(class, at, login)
    }

    /// The same by the index, where it is whole.
    fn own_found(&mut self, class: u32, at: &[Address], login: Option<&Text>) -> Option<usize>
        ensures place { result
            ≡ own_place class at.now (option_copied login.entry) self.old.sessions }
        ensures same { self.new ≡ self.old }
    {
        if !self.index.is_whole() {
            return self.roster.own(class, at, login);
        }
        self.roster.rises();
        first_own(&self.roster, &mut self.index, class, at, login)
    }

    /// The place of the first of those that holds a set of the key.
    pub fn holder(
        &mut self,
        alloc: Global,
        class: u32,
        at: &[Address],
        login: Option<&Text>,
        key: &SetKey,
    ) -> Option<usize>
        ensures place { result ≡ holder_place class at.now (option_copied login.entry) key.now
            self.old.sessions }
        ensures same { self.new ≡ self.old }
    {
        self.roster.holder(alloc, class, at, login, key)
    }

    /// Makes a tally of the class in place of any other of its, as far as memory can be had.
    pub fn tally(&mut self, alloc: Global, class: u32, at: &[Address])
        ensures { self.new ≡ self.old }
    {
        if place_for(self.tallies.as_slice(), class, at).is_some() {
            return;
        }
        drop_class(&mut self.tallies, class);
        let Ok(tally) = tally_of(alloc, &self.roster, class, at) else {
            return;
        };
        add(&mut self.tallies, tally);
    }

    /// How many sessions of the class are open.
    pub fn open_in(&self, class: u32, at: &[Address]) -> usize
        ensures count { result ≡ open_of class at.now self.now.sessions }
    {
        match place_for(self.tallies.as_slice(), class, at) {
            Some(place) => self.tallies[place].count() as usize,
            None => self.roster.open_in(class, at),
        }
    }

    /// The member of the class with the fewest sessions, the first in a tie.
    pub fn member_for(&self, class: u32, at: &[Address], but: Option<&Seat>) -> u32
        requires few { length self.now.sessions < 2 ^ 32 }
        requires some { 0 < length at.now }
        requires members { length at.now ≤ 16 }
        ensures member { result ≡ member_for class at.now
            (filter (is_counted (option_copied but.entry)) self.now.sessions) }
        ensures within { result < length at.now }
    {
        let Some(place) = place_for(self.tallies.as_slice(), class, at) else {
            return self.roster.member_for(class, at, but);
        };
        self.roster.rises();
        let loads = self.tallies[place].loads_but(&self.roster, but);
        least(&loads[..at.len()])
    }

    /// The place of the session of the seat, where it is out.
    pub fn seat(&self, seat: &Seat) -> Option<usize>
        ensures { result ≡ position (λ o. is_seat seat.now o) self.now.sessions }
    {
        self.roster.seat(seat)
    }

    /// Puts the session at a place out at the target where it was, and gives what was idle.
    pub fn lend(&mut self, place: usize, address: Spot) -> Option<Pooled<W, S>>
        requires within { place < length self.old.sessions }
        requires there { HoldsAt (λ o. inner address ≡ stand_target o.stand)
            self.old.sessions place }
        ensures pooled { HoldsAt (λ o. result ≡ idle_parts o.stand) self.old.sessions place }
        ensures out { Changes (with_stand (Out address)) place self.old self.new }
    {
        self.roster.lend(place, address)
    }

    /// Puts the session at a place to rest.
    pub fn rest(&mut self, place: usize, pooled: Pooled<W, S>, since: u64)
        requires within { place < length self.old.sessions }
        ensures idle { Changes (with_stand (Idle pooled since)) place self.old self.new }
    {
        change_all(&mut self.tallies, &self.roster, place, false);
        self.roster.rest(place, pooled, since);
        change_all(&mut self.tallies, &self.roster, place, true);
        list(&mut self.index, &self.roster, place);
    }

    /// The session at a place, which is out, is out for another member.
    pub fn move_to(&mut self, place: usize, member: u32, to: &Address)
        requires within { place < length self.old.sessions }
        requires out { HoldsAt (λ o. is_out o.stand ≡ true) self.old.sessions place }
        requires short { IsMember to.now }
        ensures moved { Changes (at_member member to.now) place self.old self.new }
    {
        change_all(&mut self.tallies, &self.roster, place, false);
        self.roster.move_to(place, member, to);
        change_all(&mut self.tallies, &self.roster, place, true);
    }

    /// Adds a session that is out for the first member, with room for that many pairs for each session.
    pub fn add_out(
        &mut self,
        number: u64,
        class: u32,
        login: Option<Text>,
        address: Spot,
        pairs: usize,
    ) -> Result<(), Memory>
        requires few { length self.old.sessions < 2 ^ 32 - 1 }
        requires next { Ascends 0 (2 ^ 64 - 1)
            (self.old.sessions ++ out_session number class login 0 address ∷ []) }
        ensures ok { OnOk result (self.new ≡ with_told
            (self.old.sessions ++ out_session number class login 0 address ∷ []) self.old) }
        ensures err { OnErr result (self.new ≡ self.old) }
    {
        let place = self.roster.len();
        self.index
            .reserve(place.saturating_add(1).saturating_mul(2))?;
        let Ok(()) = self.roster.add_out(number, class, login, address, pairs) else {
            return Err(Memory);
        };
        change_all(&mut self.tallies, &self.roster, place, true);
        Ok(())
    }

    /// Drops the session of a number.
    pub fn drop_number(&mut self, number: u64)
        ensures { self.new ≡ with_told (without_number number self.old.sessions) self.old }
    {
        self.roster.rises();
        if let Some(place) = self.roster.place(number) {
            change_all(&mut self.tallies, &self.roster, place, false);
            take_out(&mut self.index, &self.roster, place);
            self.roster.drop_number(number);
        }
    }

    /// Drops the session of the seat.
    pub fn drop_seat(&mut self, seat: &Seat)
        ensures { self.new ≡ with_told (without_seat seat.now self.old.sessions) self.old }
    {
        self.roster.rises();
        if let Some(place) = self.roster.seat(seat) {
            change_all(&mut self.tallies, &self.roster, place, false);
            take_out(&mut self.index, &self.roster, place);
            self.roster.drop_seat(seat);
        }
    }
}
