//! The pool as a door.

ghost use Rattle.std.specs.Prelude.{◌≡◌, Some, option_map};
ghost use Rattle.z_types.specs.Pending.{resting};
ghost use Rattle.pool_sets.specs.Plain.{put};
ghost use Rattle.pool_sets.specs.Kept.{TableKept};
ghost use Rattle.pool_core.specs.PoolView.{counts_of};

use crate::Pool;
use pool_sets::{Door, Parts, Seat, Taken};
use std::alloc::Global;
use z_types::{Address, SetKey, Sitting, Text, World};

impl<W: World, S: Sitting<W>> Door<W, S> for Pool<W, S> {
    ghost pool = { λ p. Some p.pool };

    ghost counts = { λ p. counts_of p };

    fn take(
        &mut self,
        alloc: Global,
        class: u32,
        at: &[Address],
        login: Option<&Text>,
        want: Option<&SetKey>,
        now: u64,
    ) -> Taken<S> {
        self.forget_old(now);
        match want {
            Some(key) => self.take_for(alloc, class, at, login, key, now),
            None => self.take_any(alloc, class, at, login),
        }
    }

    fn put(&mut self, seat: Seat, parts: Parts<S>, now: u64)
        requires rests { S.pending parts.session ≡ resting }
        requires kept { TableKept W.World S.Sitting parts }
        ensures plain { Some self.new.pool ≡ option_map (put seat parts now) (Some self.old.pool) }
        ensures counts { counts_of self.new ≡ counts_of self.old }
    {
        self.put_back(seat, parts, now);
    }

    fn lost(&mut self, seat: Seat) {
        self.drop_seat(&seat);
    }

    fn redial(&mut self, seat: &mut Seat, at: &[Address]) -> u32 {
        self.dial_again(seat, at)
    }

    fn expire(&mut self, now: u64) {
        self.forget_old(now);
    }
}
