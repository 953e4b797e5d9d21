//! The pool of a front: where it was full, it had named as many addresses to dial as there may be sessions.

ghost use Rattle.std.specs.Prelude.{◌≡◌, ◌-◌, ◌^◌, ◌<◌, ◌≤◌, true, is_some, option_copied, option_map};
ghost use Rattle.z_types.specs.Members.{AreMembers};
ghost use Rattle.z_types.specs.Pending.{resting};
ghost use Rattle.pool_sets.specs.Plain.{put, lost, expire};
ghost use Rattle.pool_sets.specs.Counts.{after_take};
ghost use Rattle.pool_sets.specs.Doors.{IsBounded, TakenFits, Takes};
ghost use Rattle.pool_sets.specs.Kept.{TableKept};
ghost use Rattle.pool_locked.specs.Books.{FullOpens};

use pool_sets::{Door, Parts, Seat, Taken};
use std::alloc::Global;
use std::marker::PhantomData;
use z_types::{Address, SetKey, Sitting, Text, World};

/// A door whose pool is told. Where it was full, it had named as many addresses to dial as there may be
/// sessions of a class.
#[derive(Drop)]
pub(crate) struct FullDoor<W: World, S: Sitting<W>, P: Door<W, S> + Drop> {
    door: P,
    world: PhantomData<W>,
    session: PhantomData<S>,
    ghost told: { is_some (P.pool door) ≡ true },
    ghost few: { (P.counts door).opens ≤ 2 ^ 64 - 1 },
    ghost full_opens: { FullOpens
        (P.counts door).most (P.counts door).fulls (P.counts door).opens },
}

impl<W: World, S: Sitting<W>, P: Door<W, S> + Drop> FullDoor<W, S, P> {
    /// Over a door that was not full yet, or had named so many.
    pub(crate) fn new(door: P) -> FullDoor<W, S, P>
        requires told { is_some (P.pool door) ≡ true }
        requires few { (P.counts door).opens ≤ 2 ^ 64 - 1 }
        requires full_opens { FullOpens
            (P.counts door).most (P.counts door).fulls (P.counts door).opens }
        ensures same { result.door ≡ door }
    {
        FullDoor {
            door,
            world: PhantomData,
            session: PhantomData,
        }
    }

    /// Changes nothing, and tells that.
    pub(crate) fn tell(&self)
        ensures full_opens { FullOpens (P.counts self.now.door).most
            (P.counts self.now.door).fulls (P.counts self.now.door).opens }
    {}
}

impl<W: World, S: Sitting<W>, P: Door<W, S> + Drop> Door<W, S> for FullDoor<W, S, P> {
    ghost pool = { λ d. P.pool d.door };

    ghost counts = { λ d. P.counts d.door };

    fn take(
        &mut self,
        alloc: Global,
        class: u32,
        at: &[Address],
        login: Option<&Text>,
        want: Option<&SetKey>,
        now: u64,
    ) -> Taken<S> {
        take_told(&mut self.door, alloc, class, at, login, want, now)
    }

    fn put(&mut self, seat: Seat, parts: Parts<S>, now: u64)
        requires rests { S.pending parts.session ≡ resting }
        requires kept { TableKept W.World S.Sitting parts }
        ensures plain { P.pool self.new.door
            ≡ option_map (put seat parts now) (P.pool self.old.door) }
        ensures counts { P.counts self.new.door ≡ P.counts self.old.door }
    {
        self.door.put(seat, parts, now);
    }

    fn lost(&mut self, seat: Seat) {
        self.door.lost(seat);
    }

    fn redial(&mut self, seat: &mut Seat, at: &[Address]) -> u32 {
        self.door.redial(seat, at)
    }

    fn expire(&mut self, now: u64) {
        self.door.expire(now);
    }
}

/// Takes a session of a door whose pool is told, which it stays. Where it was full, it had named as many
/// addresses to dial as there may be sessions of a class.
fn take_told<W: World, S: Sitting<W>, P: Door<W, S>>(
    door: &mut P,
    alloc: Global,
    class: u32,
    at: &[Address],
    login: Option<&Text>,
    want: Option<&SetKey>,
    now: u64,
) -> Taken<S>
    requires members { AreMembers at.now }
    requires told { is_some (P.pool door.old) ≡ true }
    requires few { (P.counts door.old).opens ≤ 2 ^ 64 - 1 }
    requires full_opens { FullOpens
        (P.counts door.old).most (P.counts door.old).fulls (P.counts door.old).opens }
    ensures plain { Takes (P.pool door.old) (P.pool door.new)
        class at.now (option_copied login.entry) (option_copied want.entry) now result }
    ensures fits { TakenFits W.World S.Sitting
        class at.now (option_copied login.entry) (option_copied want.entry)
        (P.counts door.old).most result }
    ensures bound { IsBounded (P.pool door.new) (P.counts door.new).opens }
    ensures counts { P.counts door.new
        ≡ after_take (option_copied want.entry) result (P.counts door.old) }
    ensures told { is_some (P.pool door.new) ≡ true }
    ensures few { (P.counts door.new).opens ≤ 2 ^ 64 - 1 }
    ensures full_opens { FullOpens
        (P.counts door.new).most (P.counts door.new).fulls (P.counts door.new).opens }
{
    door.take(alloc, class, at, login, want, now)
}
