//! The pool.

ghost use Rattle.std.specs.Prelude.{◌≡◌, ◌<◌, ◌≤◌, ◌^◌, ◌-◌, Some, None, length, nat_lt, option_copied, IfOk, IfSome, OnOk, OnErr, All};
ghost use Rattle.z_types.specs.Members.{IsMember};
ghost use Rattle.z_types.specs.Pending.{resting};
ghost use Rattle.pool_sets.specs.Sessions.{open_of};
ghost use Rattle.pool_sets.specs.Plain.{expire, take_with, take_any, open_one, made_room, with_sessions, lost, put, redial_member, redial};
ghost use Rattle.pool_sets.specs.Counts.{after_take};
ghost use Rattle.pool_sets.specs.Doors.{TakenFits};
ghost use Rattle.pool_sets.specs.Kept.{TableKept};
ghost use Rattle.pool_core.specs.PoolView.{Gives, own_place, holder_place, idle_number, without_named, with_out, new_pool, pool_after, with_pool, counts_of, after_book, after_redial};

use crate::register::Register;
use pool_core::{Spot, berth_for};
use pool_keys::{Digest, KeyDigest};
use pool_sets::{Parts, Pooled, Seat, Taken};
use route_config::{PoolNumbers, Route};
use std::alloc::Global;
use std::marker::Model;
use z_types::{Address, Memory, SetKey, Sitting, Text, World};

/// A pool of sessions with the targets of a world, for one thread, which looks at those sessions alone
/// that it chooses.
#[derive(Drop)]
pub struct IndexedPool<W: World, S: Sitting<W>, D: Digest = KeyDigest> {
    register: Register<W, S, D>,
    given: u64,
    max_sessions: u32,
    sets_max: u32,
    fulls: u64,
    opens: u64,
    booked: u64,
}

impl<W: World, S: Sitting<W>, D: Digest> Model for IndexedPool<W, S, D> {
    ghost use Rattle.std.specs.Coded.{codes};
    ghost use Rattle.z_types.specs.Tree.{tree_code};
    ghost use Rattle.pool_core.specs.PoolView.{PoolView, IsPool};

    ghost Value = { PoolView S };

    ghost coded = { Prim.hlevel (codes, tree_code) };

    ghost view = { λ p. record {
      pool = record {
        sessions = p.register.sessions;
        given = p.given;
        max_sessions = p.max_sessions;
        sets_max = p.sets_max;
        session_ttl = p.register.session_ttl;
        set_ttl = p.register.set_ttl;
      };
      fulls = p.fulls;
      opens = p.opens;
      booked = p.booked;
    } };

    ghost invariant = { λ p. IsPool S.Sitting p.register.sessions p.given p.opens };
}

impl<W: World, S: Sitting<W>, D: Digest> IndexedPool<W, S, D> {
    /// A pool without sessions, whose numbers are the route's. It takes no memory yet.
    pub fn new(alloc: Global, route: &Route) -> Result<IndexedPool<W, S, D>, Memory>
        ensures new { IfOk result (λ pool. pool ≡ new_pool route.now.pool) }
    {
        Ok(IndexedPool::after(alloc, route.parts().pool, 0))
    }

    /// A pool without sessions that goes on behind a number, so that no seat of a pool that gave
    /// numbers up to that one fits a session of this one.
    pub fn after(alloc: Global, numbers: PoolNumbers, last: u64) -> IndexedPool<W, S, D>
        ensures { result ≡ pool_after numbers last }
    {
        IndexedPool {
            register: Register::new(alloc, numbers.session_ttl, numbers.set_ttl),
            given: last,
            max_sessions: numbers.max_sessions,
            sets_max: numbers.sets_max,
            fulls: 0,
            opens: 0,
            booked: 0,
        }
    }

    /// Gives the session at a place, which is the first idle one that holds the key.
    fn reuse(
        &mut self,
        alloc: Global,
        class: u32,
        at: &[Address],
        login: Option<&Text>,
        key: &SetKey,
        now: u64,
        place: usize,
    ) -> Taken<S>
        requires first { holder_place class at.now (option_copied login) key.now
            self.old.pool.sessions ≡ Some place }
        ensures plain { Gives
            (take_with class at.now (option_copied login.entry) key.now now self.old.pool)
            self.old.pool result self.new.pool }
        ensures fits { TakenFits W.World S.Sitting class at.now
            (option_copied login.entry) (Some key.now) self.old.pool.max_sessions result }
        ensures counts { counts_of self.new
            ≡ after_take (Some key.now) result (counts_of self.old) }
        ensures bound { length self.new.pool.sessions ≤ self.new.opens }
    {
        let Some(spot) = self.register.spot(alloc, place) else {
            return Taken::Memory;
        };
        let number = self.register.number(place);
        let Some(mut pooled) = self.register.lend(place, spot) else {
            unreachable!()
        };
        let Some((slot, hits)) = pooled.find(key, now) else {
            unreachable!()
        };
        Taken::Reuse {
            seat: Seat { class, number },
            parts: pooled.apart(),
            slot,
            hits,
        }
    }

    /// Gives the session at a place, which is the first idle one of the class and login.
    fn fresh(
        &mut self,
        alloc: Global,
        class: u32,
        at: &[Address],
        login: Option<&Text>,
        place: usize,
    ) -> Taken<S>
        requires first { own_place class at.now (option_copied login)
            self.old.pool.sessions ≡ Some place }
        ensures plain { Gives (take_any class at.now (option_copied login.entry) self.old.pool)
            self.old.pool result self.new.pool }
        ensures fits { TakenFits W.World S.Sitting class at.now
            (option_copied login.entry) None self.old.pool.max_sessions result }
        ensures counts { counts_of self.new ≡ after_take None result (counts_of self.old) }
        ensures bound { length self.new.pool.sessions ≤ self.new.opens }
    {
        let Some(spot) = self.register.spot(alloc, place) else {
            return Taken::Memory;
        };
        let number = self.register.number(place);
        let Some(pooled) = self.register.lend(place, spot) else {
            unreachable!()
        };
        Taken::Fresh {
            seat: Seat { class, number },
            parts: pooled.apart(),
        }
    }

    /// Dials where there may be one more session of the class, or an idle one makes room.
    fn dial(&mut self, alloc: Global, class: u32, at: &[Address], login: Option<&Text>) -> Taken<S>
        requires some { 0 < length at.now }
        requires few { length at.now ≤ 16 }
        requires short { All IsMember at.now }
        ensures plain { Gives (open_one class at.now (option_copied login.entry) self.old.pool)
            self.old.pool result self.new.pool }
        ensures fits { TakenFits W.World S.Sitting class at.now
            (option_copied login.entry) None self.old.pool.max_sessions result }
        ensures counts { counts_of self.new ≡ after_take None result (counts_of self.old) }
        ensures bound { length self.new.pool.sessions ≤ self.new.opens }
    {
        self.tally(alloc, class, at);
        if self.may_open(class, at) {
            return self.dial_without(alloc, class, at, login, None);
        }
        if let Some(number) = self.first_idle(alloc, class, at) {
            return self.dial_without(alloc, class, at, login, Some(number));
        }
        self.fulls = self.fulls.saturating_add(1);
        Taken::Full {
            open: self.max_sessions,
        }
    }

    /// Dials, without the idle session of a number where one is named. For want of memory that one
    /// stays.
    fn dial_without(
        &mut self,
        alloc: Global,
        class: u32,
        at: &[Address],
        login: Option<&Text>,
        number: Option<u64>,
    ) -> Taken<S>
        requires some { 0 < length at.now }
        requires few { length at.now ≤ 16 }
        requires short { All IsMember at.now }
        requires given { IfSome number (λ n. n ≤ self.old.pool.given) }
        requires room { made_room class at.now self.old.pool
            ≡ Some (with_sessions (without_named number self.old.pool.sessions) self.old.pool) }
        ensures plain { Gives (open_one class at.now (option_copied login.entry) self.old.pool)
            self.old.pool result self.new.pool }
        ensures fits { TakenFits W.World S.Sitting class at.now
            (option_copied login.entry) None self.old.pool.max_sessions result }
        ensures counts { counts_of self.new ≡ after_take None result (counts_of self.old) }
        ensures bound { length self.new.pool.sessions ≤ self.new.opens }
    {
        if self.register.len() >= u32::MAX as usize || self.given == u64::MAX {
            return Taken::Memory;
        }
        let Some((address, login)) = berth_for(alloc, at, login) else {
            return Taken::Memory;
        };
        let Ok(()) = self.add_out(class, login, address) else {
            return Taken::Memory;
        };
        self.drop_number(number);
        let seat = Seat {
            class,
            number: self.given,
        };
        let member = self.move_seat(&seat, at);
        Taken::Dial { seat, member }
    }

    /// Adds a session under the next number, which is out for the first member until one is chosen.
    fn add_out(&mut self, class: u32, login: Option<Text>, address: Spot) -> Result<(), Memory>
        requires number { self.old.pool.given < 2 ^ 64 - 1 }
        requires few { length self.old.pool.sessions < 2 ^ 32 - 1 }
        ensures ok { OnOk result (self.new ≡ with_out class login address self.old) }
        ensures err { OnErr result (self.new ≡ self.old) }
    {
        let number = self.given + 1;
        let sets = self.sets_max as usize * 2;
        let Ok(()) = self.register.add_out(number, class, login, address, sets) else {
            return Err(Memory);
        };
        self.given = number;
        self.opens = self.opens.saturating_add(1);
        Ok(())
    }

    /// Drops the session of a number, where one is named.
    fn drop_number(&mut self, number: Option<u64>)
        ensures { self.new ≡ with_pool
            (with_sessions (without_named number self.old.pool.sessions) self.old.pool) self.old }
    {
        if let Some(number) = number {
            self.register.drop_number(number);
        }
    }

    /// Whether there may be one more session of the class.
    fn may_open(&self, class: u32, at: &[Address]) -> bool
        ensures { result ≡ nat_lt (open_of class at.now self.now.pool.sessions)
            self.now.pool.max_sessions }
    {
        self.register.open_in(class, at) < self.max_sessions as usize
    }

    /// The number of the first idle session of the class, whatever its login.
    fn first_idle(&mut self, alloc: Global, class: u32, at: &[Address]) -> Option<u64>
        ensures number { result ≡ idle_number class at.now self.old.pool.sessions }
        ensures given { IfSome result (λ n. n ≤ self.old.pool.given) }
        ensures same { self.new ≡ self.old }
    {
        self.register.idle(alloc, class, at)
    }

    /// Has a tally of the class, as far as memory can be had.
    fn tally(&mut self, alloc: Global, class: u32, at: &[Address])
        ensures { self.new ≡ self.old }
    {
        self.register.tally(alloc, class, at);
    }

    /// Drops the sessions, and forgets the sets, that were unused for too long.
    pub(crate) fn forget_old(&mut self, now: u64)
        ensures { self.new ≡ with_pool (expire now self.old.pool) self.old }
    {
        self.register.expire(now);
    }

    /// The place of the first idle session of the class and login that holds the key.
    fn holder(
        &mut self,
        alloc: Global,
        class: u32,
        at: &[Address],
        login: Option<&Text>,
        key: &SetKey,
    ) -> Option<usize>
        ensures place { result ≡ holder_place class at.now (option_copied login.entry) key.now
            self.old.pool.sessions }
        ensures same { self.new ≡ self.old }
    {
        self.register.holder(alloc, class, at, login, key)
    }

    /// The place of the first idle session of the class and login.
    fn own(
        &mut self,
        alloc: Global,
        class: u32,
        at: &[Address],
        login: Option<&Text>,
    ) -> Option<usize>
        ensures place { result
            ≡ own_place class at.now (option_copied login.entry) self.old.pool.sessions }
        ensures same { self.new ≡ self.old }
    {
        self.register.own(alloc, class, at, login)
    }

    /// Counts an answer to who wanted a set.
    fn book(&mut self, taken: &Taken<S>)
        ensures booked { self.new ≡ after_book taken.now self.old }
    {
        if matches!(taken, Taken::Fresh { .. } | Taken::Dial { .. }) {
            self.booked = self.booked.saturating_add(1);
        }
    }

    /// Takes any session of the class and login.
    pub(crate) fn take_any(
        &mut self,
        alloc: Global,
        class: u32,
        at: &[Address],
        login: Option<&Text>,
    ) -> Taken<S>
        requires some { 0 < length at.now }
        requires few { length at.now ≤ 16 }
        requires short { All IsMember at.now }
        ensures plain { Gives (take_any class at.now (option_copied login.entry) self.old.pool)
            self.old.pool result self.new.pool }
        ensures fits { TakenFits W.World S.Sitting class at.now
            (option_copied login.entry) None self.old.pool.max_sessions result }
        ensures counts { counts_of self.new ≡ after_take None result (counts_of self.old) }
        ensures bound { length self.new.pool.sessions ≤ self.new.opens }
    {
        if let Some(place) = self.own(alloc, class, at, login) {
            return self.fresh(alloc, class, at, login, place);
        }
        self.dial(alloc, class, at, login)
    }

    /// Takes a session of the class and login, one that holds a set of the key where there is one.
    pub(crate) fn take_for(
        &mut self,
        alloc: Global,
        class: u32,
        at: &[Address],
        login: Option<&Text>,
        key: &SetKey,
        now: u64,
    ) -> Taken<S>
        requires some { 0 < length at.now }
        requires few { length at.now ≤ 16 }
        requires short { All IsMember at.now }
        ensures plain { Gives
            (take_with class at.now (option_copied login.entry) key.now now self.old.pool)
            self.old.pool result self.new.pool }
        ensures fits { TakenFits W.World S.Sitting class at.now
            (option_copied login.entry) (Some key.now) self.old.pool.max_sessions result }
        ensures counts { counts_of self.new
            ≡ after_take (Some key.now) result (counts_of self.old) }
        ensures bound { length self.new.pool.sessions ≤ self.new.opens }
    {
        if let Some(place) = self.holder(alloc, class, at, login, key) {
            return self.reuse(alloc, class, at, login, key, now, place);
        }
        let taken = self.take_any(alloc, class, at, login);
        self.book(&taken);
        taken
    }

    /// Gives the session of the seat up, where it is out.
    pub(crate) fn drop_seat(&mut self, seat: &Seat)
        ensures { self.new ≡ with_pool (lost seat.now self.old.pool) self.old }
    {
        self.register.drop_seat(seat);
    }

    /// Puts the session of the seat back, where it is out.
    pub(crate) fn put_back(&mut self, seat: Seat, parts: Parts<S>, now: u64)
        requires rests { S.pending parts.session ≡ resting }
        requires kept { TableKept W.World S.Sitting parts }
        ensures { self.new ≡ with_pool (put seat parts now self.old.pool) self.old }
    {
        if parts.table.max() > self.sets_max {
            self.drop_seat(&seat);
            return;
        }
        if let Some(place) = self.register.seat(&seat) {
            self.register.rest(place, Pooled::join(parts), now);
        }
    }

    /// Dials for the seat again: the member, or 0 where its session is not out.
    pub(crate) fn dial_again(&mut self, seat: &Seat, at: &[Address]) -> u32
        requires some { 0 < length at.now }
        requires few { length at.now ≤ 16 }
        requires short { All IsMember at.now }
        ensures member { result ≡ redial_member seat.now at.now self.old.pool }
        ensures within { result < length at.now }
        ensures plain { self.new ≡ after_redial seat.now at.now self.old }
    {
        self.opens = self.opens.saturating_add(1);
        self.move_seat(seat, at)
    }

    /// Chooses a member for the seat's session, where it is out: that member, else 0.
    fn move_seat(&mut self, seat: &Seat, at: &[Address]) -> u32
        requires some { 0 < length at.now }
        requires few { length at.now ≤ 16 }
        requires short { All IsMember at.now }
        ensures member { result ≡ redial_member seat.now at.now self.old.pool }
        ensures within { result < length at.now }
        ensures plain { self.new ≡ with_pool (redial seat.now at.now self.old.pool) self.old }
    {
        let Some(place) = self.register.seat(seat) else {
            return 0;
        };
        let member = self.register.member_for(seat.class, at, Some(seat));
        self.register.move_to(place, member, &at[member as usize]);
        member
    }
}
