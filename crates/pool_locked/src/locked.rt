//! A door over a lock.

ghost use Rattle.std.specs.Prelude.{◌≡◌, ◌<◌, None, option_map};
ghost use Rattle.z_types.specs.Pending.{resting};
ghost use Rattle.pool_sets.specs.Plain.{put};
ghost use Rattle.pool_sets.specs.Kept.{TableKept};
ghost use Rattle.pool_locked.specs.Books.{counts_of};

use crate::Counted;
use crate::shares::Shares;
use pool_sets::{Door, Parts, Seat, Taken};
use std::alloc::Global;
use std::sync::ledger::{Ledger, Share};
use std::sync::{Mutex, Wait};
use z_types::{Address, SetKey, Sitting, Text, World};

/// A door over a pool behind a lock, which may wait for it. It counts in shares of its own, and
/// each call is one hold of the lock: no guard outlives its call.
#[derive(Drop)]
pub struct LockedDoor<
    'a,
    R: Wait + Sync,
    W: World,
    S: Sitting<W>,
    P: Door<W, S> + Drop,
    L: Ledger,
    M: Ledger,
    O: Ledger,
    Q: Ledger,
> {
    rt: &'a R,
    pool: &'a Mutex<Counted<W, S, P, L, M, O, Q>>,
    most: u32,
    own: Shares<L, M, O>,
}

impl<
    'a,
    R: Wait + Sync,
    W: World,
    S: Sitting<W>,
    P: Door<W, S> + Drop,
    L: Ledger,
    M: Ledger,
    O: Ledger,
    Q: Ledger,
> LockedDoor<'a, R, W, S, P, L, M, O, Q> {
    /// A door over the lock, which tells `most` as the most sessions of a class. It counts in
    /// shares with a part of each ledger at least.
    pub fn new(
        rt: &'a R,
        pool: &'a Mutex<Counted<W, S, P, L, M, O, Q>>,
        most: u32,
        booked: Share<L>,
        fulls: Share<M>,
        opens: Share<O>,
    ) -> LockedDoor<'a, R, W, S, P, L, M, O, Q>
        requires booked { 0 < booked.parts }
        requires fulls { 0 < fulls.parts }
        requires opens { 0 < opens.parts }
        ensures most { result.most ≡ most }
        ensures booked { result.own.booked ≡ booked }
        ensures fulls { result.own.fulls ≡ fulls }
        ensures opens { result.own.opens ≡ opens }
    {
        LockedDoor {
            rt,
            pool,
            most,
            own: Shares {
                booked,
                fulls,
                opens,
            },
        }
    }

    /// Hands its shares back, of what was booked, how often it was full, and how often it
    /// opened.
    pub fn shares(self) -> (Share<L>, Share<M>, Share<O>)
        ensures booked { result.0 ≡ self.entry.own.booked }
        ensures fulls { result.1 ≡ self.entry.own.fulls }
        ensures opens { result.2 ≡ self.entry.own.opens }
        ensures booked_part { 0 < result.0.parts }
        ensures fulls_part { 0 < result.1.parts }
        ensures opens_part { 0 < result.2.parts }
    {
        let LockedDoor {
            rt: _,
            pool: _,
            most: _,
            own,
        } = self;
        let Shares {
            booked,
            fulls,
            opens,
        } = own;
        (booked, fulls, opens)
    }
}

impl<
    R: Wait + Sync,
    W: World,
    S: Sitting<W>,
    P: Door<W, S> + Drop,
    L: Ledger,
    M: Ledger,
    O: Ledger,
    Q: Ledger,
> Door<W, S> for LockedDoor<'_, R, W, S, P, L, M, O, Q> {
    ghost pool = { λ d. None };

    ghost counts = { λ d. counts_of
        d.most d.own.fulls.amount d.own.opens.amount d.own.booked.amount };

    fn take(
        &mut self,
        alloc: Global,
        class: u32,
        at: &[Address],
        login: Option<&Text>,
        want: Option<&SetKey>,
        now: u64,
    ) -> Taken<S> {
        let mut pool = self.pool.lock(self.rt);
        let taken = pool.take(alloc, class, at, login, want, now, &mut self.own);
        match taken {
            Taken::Full { .. } => Taken::Full { open: self.most },
            taken => taken,
        }
    }

    fn put(&mut self, seat: Seat, parts: Parts<S>, now: u64)
        requires rests { S.pending parts.session ≡ resting }
        requires kept { TableKept W.World S.Sitting parts }
        ensures plain { None ≡ option_map (put seat parts now) None }
        ensures counts { counts_of self.new.most self.new.own.fulls.amount
            self.new.own.opens.amount self.new.own.booked.amount
            ≡ counts_of self.old.most self.old.own.fulls.amount
            self.old.own.opens.amount self.old.own.booked.amount }
    {
        let mut pool = self.pool.lock(self.rt);
        pool.put(seat, parts, now);
    }

    fn lost(&mut self, seat: Seat) {
        let mut pool = self.pool.lock(self.rt);
        pool.lost(seat);
    }

    fn redial(&mut self, seat: &mut Seat, at: &[Address]) -> u32 {
        let mut pool = self.pool.lock(self.rt);
        pool.redial(seat, at, &mut self.own)
    }

    fn expire(&mut self, now: u64) {
        let mut pool = self.pool.lock(self.rt);
        pool.expire(now);
    }
}
