//! The pool's interface.

ghost use Rattle.std.specs.Prelude.{◌≡◌, ◌<◌, Option, option_copied, option_map, length};
ghost use Rattle.z_types.specs.declared.key.SetKey.{SetKey};
ghost use Rattle.z_types.specs.declared.address.Address.{Address};
ghost use Rattle.z_types.specs.Members.{AreMembers};
ghost use Rattle.z_types.specs.Pending.{resting};
ghost use Rattle.pool_sets.specs.Plain.{Pool, put, lost, expire};
ghost use Rattle.pool_sets.specs.Counts.{DoorCounts, after_take, after_redial};
ghost use Rattle.pool_sets.specs.Doors.{TakenFits, Takes, Redials, IsBounded};
ghost use Rattle.pool_sets.specs.Kept.{TableKept};

use crate::Parts;
use std::alloc::Global;
use z_types::{Address, SetKey, Sitting, Text, World};

/// What stands for one session that is out: made by a take, and spent by `put` or `lost`.
#[derive(Debug, Drop)]
pub struct Seat {
    /// The class that the session was dialled for, its place in the route.
    pub class: u32,
    /// The session's number, from 1 in the order in which sessions were dialled.
    pub number: u64,
}

/// What a pool gives.
#[derive(Drop)]
pub enum Taken<S> {
    /// A session that holds the set wanted, under that slot.
    Reuse {
        /// What stands for the session.
        seat: Seat,
        /// The session with its table of sets, and its address.
        parts: Parts<S>,
        /// The slot under whose decimal text the target knows the set.
        slot: u32,
        /// How many records the set has, at most 2147483647.
        hits: u32,
    },
    /// A session that was idle.
    Fresh {
        /// What stands for the session.
        seat: Seat,
        /// The session with its table of sets, and its address.
        parts: Parts<S>,
    },
    /// The place of the address to dial.
    Dial {
        /// What stands for the session that is to be opened.
        seat: Seat,
        /// The place of the address among those that were named, counted from 0.
        member: u32,
    },
    /// As many sessions of the class as there may be are out, whatever their logins.
    Full {
        /// How many sessions of a class may be open.
        open: u32,
    },
    /// No memory could be had.
    Memory,
}

/// A pool of sessions. One of one thread tells its sessions; one behind a lock tells none.
///
/// A seat is got by `take`. Where that named an address to dial, a session is opened there first. What
/// was taken is put back once it rests, or given up; where its link proves to be broken, `redial` keeps
/// the seat and names an address anew. Each seat is spent so once, by `put` or `lost`; a call with
/// another changes no session.
pub trait Door<W: World, S: Sitting<W>> {
    /// Its sessions, where it tells them.
    ghost pool: { Self → Option (Pool S) };

    /// How many sessions of a class it opens at most, and how often it was full, named an address to
    /// dial, and gave a session that holds no set wanted, where one was wanted.
    ghost counts: { Self → DoorCounts };

    /// Takes a session of a class and a login, one that holds the set wanted where there is one; no
    /// login is one of its own. `at` has the addresses of the class's 1 to 16 members. Where no more
    /// of the class may be open and none of the login is idle, an idle one of another makes room: that
    /// of the least number is dropped.
    fn take(
        &mut self,
        alloc: Global,
        class: u32,
        at: &[Address],
        login: Option<&Text>,
        want: Option<&SetKey>,
        now: u64,
    ) -> Taken<S>
        requires members { AreMembers at.now }
        ensures plain { Takes (pool self.old) (pool self.new)
            class at.now (option_copied login.entry) (option_copied want.entry) now result }
        ensures fits { TakenFits W.World S.Sitting
            class at.now (option_copied login.entry) (option_copied want.entry)
            (counts self.old).most result }
        ensures bound { IsBounded (pool self.new) (counts self.new).opens }
        ensures counts { counts self.new
            ≡ after_take (option_copied want.entry) result (counts self.old) };

    /// Puts a session back that rests.
    fn put(&mut self, seat: Seat, parts: Parts<S>, now: u64)
        requires rests { S.pending parts.session ≡ resting }
        requires kept { TableKept W.World S.Sitting parts }
        ensures plain { pool self.new ≡ option_map (put seat parts now) (pool self.old) }
        ensures counts { counts self.new ≡ counts self.old };

    /// Gives a session up.
    fn lost(&mut self, seat: Seat)
        ensures plain { pool self.new ≡ option_map (lost seat) (pool self.old) }
        ensures counts { counts self.new ≡ counts self.old };

    /// Gives a session up and names the place of the address to dial in its place, for the login it
    /// was dialled for. It takes no memory, so the hosts must fit the room that each session has for
    /// one.
    fn redial(&mut self, seat: &mut Seat, at: &[Address]) -> u32
        requires members { AreMembers at.now }
        ensures plain { Redials (pool self.old) (pool self.new) seat.old at.now result }
        ensures place { result < length at.now }
        ensures seat { seat.new ≡ seat.old }
        ensures counts { counts self.new ≡ after_redial (counts self.old) };

    /// Forgets what was unused for too long.
    fn expire(&mut self, now: u64)
        ensures plain { pool self.new ≡ option_map (expire now) (pool self.old) }
        ensures counts { counts self.new ≡ counts self.old };
}
