//! A pool beside the books of its counts.

ghost use Rattle.std.specs.Prelude.{◌≡◌, ◌-◌, ◌^◌, ◌<◌, ◌≤◌, true, is_some, length, option_copied, option_map};
ghost use Rattle.z_types.specs.Members.{AreMembers};
ghost use Rattle.z_types.specs.Pending.{resting};
ghost use Rattle.pool_sets.specs.Plain.{put, lost, expire};
ghost use Rattle.pool_sets.specs.Counts.{is_full, is_dial, is_booked, after_take, after_redial};
ghost use Rattle.pool_sets.specs.Doors.{TakenFits, Takes, Redials};
ghost use Rattle.pool_sets.specs.Kept.{TableKept};
ghost use Rattle.pool_locked.specs.Books.{counts_of, IsNoted, FullOpens};

use crate::answers::{is_booked, is_dial, is_full};
use crate::shares::{Shares, note};
use pool_sets::{Door, Parts, Seat, Taken};
use std::alloc::Global;
use std::marker::PhantomData;
use std::sync::ledger::{Book, Ledger, Share};
use z_types::{Address, SetKey, Sitting, Text, World};

/// A door whose pool is told, beside the books of four ledgers. The totals of the books are the
/// door's counts, and where the pool was full it had opened as many sessions as there may be.
#[derive(Drop)]
pub struct Counted<
    W: World,
    S: Sitting<W>,
    P: Door<W, S> + Drop,
    L: Ledger,
    M: Ledger,
    O: Ledger,
    Q: Ledger,
> {
    door: P,
    booked: Book<L>,
    fulls: Book<M>,
    opens: Book<O>,
    most: Book<Q>,
    world: PhantomData<W>,
    session: PhantomData<S>,
    ghost told: { is_some (P.pool door) ≡ true },
    ghost counts_are: { P.counts door
        ≡ counts_of most.total fulls.total opens.total booked.total },
    ghost full_opens: { FullOpens
        (P.counts door).most (P.counts door).fulls (P.counts door).opens },
}

/// Takes a session of a door whose pool is told, which it stays. Where it was full, it had
/// opened as many sessions as there may be.
fn take_told<W: World, S: Sitting<W>, P: Door<W, S>>(
    door: &mut P,
    alloc: Global,
    class: u32,
    at: &[Address],
    login: Option<&Text>,
    want: Option<&SetKey>,
    now: u64,
) -> Taken<S>
    requires members { AreMembers at.now }
    requires told { is_some (P.pool door.old) ≡ true }
    requires few { (P.counts door.old).opens ≤ 2 ^ 64 - 1 }
    requires full_opens { FullOpens
        (P.counts door.old).most (P.counts door.old).fulls (P.counts door.old).opens }
    ensures plain { Takes (P.pool door.old) (P.pool door.new)
        class at.now (option_copied login.entry) (option_copied want.entry) now result }
    ensures fits { TakenFits W.World S.Sitting
        class at.now (option_copied login.entry) (option_copied want.entry)
        (P.counts door.old).most result }
    ensures counts { P.counts door.new
        ≡ after_take (option_copied want.entry) result (P.counts door.old) }
    ensures told { is_some (P.pool door.new) ≡ true }
    ensures full_opens { FullOpens
        (P.counts door.new).most (P.counts door.new).fulls (P.counts door.new).opens }
{
    door.take(alloc, class, at, login, want, now)
}

impl<
    W: World,
    S: Sitting<W>,
    P: Door<W, S> + Drop,
    L: Ledger,
    M: Ledger,
    O: Ledger,
    Q: Ledger,
> Counted<W, S, P, L, M, O, Q> {
    /// A door with the books of its counts.
    pub fn new(
        door: P,
        booked: Book<L>,
        fulls: Book<M>,
        opens: Book<O>,
        most: Book<Q>,
    ) -> Counted<W, S, P, L, M, O, Q>
        requires told { is_some (P.pool door) ≡ true }
        requires counts { P.counts door
            ≡ counts_of most.total fulls.total opens.total booked.total }
        requires full_opens { FullOpens
            (P.counts door).most (P.counts door).fulls (P.counts door).opens }
        ensures same { result.door ≡ door }
    {
        Counted {
            door,
            booked,
            fulls,
            opens,
            most,
            world: PhantomData,
            session: PhantomData,
        }
    }

    /// Takes a session, as the door does, and counts the answer in the books and in the shares.
    pub(crate) fn take(
        &mut self,
        alloc: Global,
        class: u32,
        at: &[Address],
        login: Option<&Text>,
        want: Option<&SetKey>,
        now: u64,
        shares: &mut Shares<L, M, O>,
    ) -> Taken<S>
        requires members { AreMembers at.now }
        ensures plain { Takes (P.pool self.old.door) (P.pool self.new.door)
            class at.now (option_copied login.entry) (option_copied want.entry) now result }
        ensures fits { TakenFits W.World S.Sitting
            class at.now (option_copied login.entry) (option_copied want.entry)
            (P.counts self.old.door).most result }
        ensures counts { P.counts self.new.door
            ≡ after_take (option_copied want.entry) result (P.counts self.old.door) }
        ensures booked { IsNoted (is_booked (option_copied want.entry) result)
            shares.old.booked.amount shares.new.booked.amount }
        ensures fulls { IsNoted (is_full result) shares.old.fulls.amount shares.new.fulls.amount }
        ensures opens { IsNoted (is_dial result) shares.old.opens.amount shares.new.opens.amount }
        ensures booked_parts { shares.new.booked.parts ≡ shares.old.booked.parts }
        ensures fulls_parts { shares.new.fulls.parts ≡ shares.old.fulls.parts }
        ensures opens_parts { shares.new.opens.parts ≡ shares.old.opens.parts }
    {
        let taken = take_told(&mut self.door, alloc, class, at, login, want, now);
        let booked = is_booked(want, &taken);
        note(&mut self.booked, &mut shares.booked, booked);
        note(&mut self.fulls, &mut shares.fulls, is_full(&taken));
        note(&mut self.opens, &mut shares.opens, is_dial(&taken));
        taken
    }

    /// Puts a session back that rests.
    pub(crate) fn put(&mut self, seat: Seat, parts: Parts<S>, now: u64)
        requires rests { S.pending parts.session ≡ resting }
        requires kept { TableKept W.World S.Sitting parts }
        ensures plain { P.pool self.new.door
            ≡ option_map (put seat parts now) (P.pool self.old.door) }
        ensures counts { P.counts self.new.door ≡ P.counts self.old.door }
    {
        self.door.put(seat, parts, now);
    }

    /// Gives a session up.
    pub(crate) fn lost(&mut self, seat: Seat)
        ensures plain { P.pool self.new.door ≡ option_map (lost seat) (P.pool self.old.door) }
        ensures counts { P.counts self.new.door ≡ P.counts self.old.door }
    {
        self.door.lost(seat);
    }

    /// Gives a session up and names the place of the address to dial in its place, and counts
    /// it.
    pub(crate) fn redial(
        &mut self,
        seat: &mut Seat,
        at: &[Address],
        shares: &mut Shares<L, M, O>,
    ) -> u32
        requires members { AreMembers at.now }
        ensures plain { Redials (P.pool self.old.door) (P.pool self.new.door)
            seat.old at.now result }
        ensures place { result < length at.now }
        ensures seat { seat.new ≡ seat.old }
        ensures counts { P.counts self.new.door ≡ after_redial (P.counts self.old.door) }
        ensures opens { IsNoted true shares.old.opens.amount shares.new.opens.amount }
        ensures opens_parts { shares.new.opens.parts ≡ shares.old.opens.parts }
        ensures others { (shares.new.booked ≡ shares.old.booked)
            × (shares.new.fulls ≡ shares.old.fulls) }
    {
        let member = self.door.redial(seat, at);
        note(&mut self.opens, &mut shares.opens, true);
        member
    }

    /// Forgets what was unused for too long.
    pub(crate) fn expire(&mut self, now: u64)
        ensures plain { P.pool self.new.door ≡ option_map (expire now) (P.pool self.old.door) }
        ensures counts { P.counts self.new.door ≡ P.counts self.old.door }
    {
        self.door.expire(now);
    }

    /// Changes nothing, and tells that the amounts of four whole shares are the door's counts.
    pub fn audit(
        &mut self,
        booked: &mut Share<L>,
        fulls: &mut Share<M>,
        opens: &mut Share<O>,
        most: &mut Share<Q>,
    )
        requires booked { booked.old.parts ≡ L.parts }
        requires fulls { fulls.old.parts ≡ M.parts }
        requires opens { opens.old.parts ≡ O.parts }
        requires most { most.old.parts ≡ Q.parts }
        ensures same { self.new.door ≡ self.old.door }
        ensures counts { P.counts self.new.door
            ≡ counts_of most.new.amount fulls.new.amount opens.new.amount booked.new.amount }
        ensures full_opens { FullOpens most.new.amount fulls.new.amount opens.new.amount }
        ensures booked { (booked.new.parts ≡ booked.old.parts)
            × (booked.new.amount ≡ booked.old.amount) }
        ensures fulls { (fulls.new.parts ≡ fulls.old.parts)
            × (fulls.new.amount ≡ fulls.old.amount) }
        ensures opens { (opens.new.parts ≡ opens.old.parts)
            × (opens.new.amount ≡ opens.old.amount) }
        ensures most { (most.new.parts ≡ most.old.parts)
            × (most.new.amount ≡ most.old.amount) }
    {
        self.booked.audit(booked);
        self.fulls.audit(fulls);
        self.opens.audit(opens);
        self.most.audit(most);
    }

    /// The door by itself, once its books are of no use any more.
    pub fn into_door(self) -> P
        ensures same { result ≡ self.door }
    {
        let Counted {
            door,
            booked: _,
            fulls: _,
            opens: _,
            most: _,
            world: _,
            session: _,
        } = self;
        door
    }
}
