//! New ledgers, and the shares of doors over one lock.

ghost use Rattle.std.specs.Prelude.{◌≡◌, ◌+◌, ◌<◌, ◌≤◌};

use crate::holders::{Holder, Quiet};
use pool_locked::{Counted, LockedDoor};
use pool_sets::Door;
use std::sync::ledger::{Blank, Ledger, Share};
use std::sync::{Mutex, Wait};

/// Four new ledgers, which no type stands for yet.
#[derive(Drop)]
pub(crate) struct Blanks {
    pub booked: Blank,
    pub fulls: Blank,
    pub opens: Blank,
    pub most: Blank,
}

/// Three ledgers of so many parts, and one of one part.
pub(crate) fn blanks_of(parts: u64) -> Blanks
    ensures booked { result.booked.parts ≡ parts }
    ensures fulls { result.fulls.parts ≡ parts }
    ensures opens { result.opens.parts ≡ parts }
    ensures most { result.most.parts ≡ 1 }
{
    Blanks {
        booked: Blank::new(parts),
        fulls: Blank::new(parts),
        opens: Blank::new(parts),
        most: Blank::new(1),
    }
}

/// A share of each ledger that doors count in.
#[derive(Drop)]
pub(crate) struct Three<L: Ledger, M: Ledger, O: Ledger> {
    pub booked: Share<L>,
    pub fulls: Share<M>,
    pub opens: Share<O>,
}

/// A door over the lock that tells this number as the most sessions, with a part of each ledger.
pub(crate) fn door_of<
    'a,
    R: Wait + Sync,
    P: Door<Quiet, Holder> + Drop,
    L: Ledger,
    M: Ledger,
    O: Ledger,
    Q: Ledger,
>(
    rt: &'a R,
    pool: &'a Mutex<Counted<Quiet, Holder, P, L, M, O, Q>>,
    most: u32,
    three: &mut Three<L, M, O>,
) -> LockedDoor<'a, R, Quiet, Holder, P, L, M, O, Q>
    requires booked { (0 < three.old.booked.parts) × (three.old.booked.amount ≡ 0) }
    requires fulls { (0 < three.old.fulls.parts) × (three.old.fulls.amount ≡ 0) }
    requires opens { (0 < three.old.opens.parts) × (three.old.opens.amount ≡ 0) }
    ensures booked { three.new.booked.parts + 1 ≡ three.old.booked.parts }
    ensures fulls { three.new.fulls.parts + 1 ≡ three.old.fulls.parts }
    ensures opens { three.new.opens.parts + 1 ≡ three.old.opens.parts }
    ensures nothing { (three.new.booked.amount ≡ 0)
        × (three.new.fulls.amount ≡ 0) × (three.new.opens.amount ≡ 0) }
{
    LockedDoor::new(
        rt,
        pool,
        most,
        three.booked.split_off(1, 0),
        three.fulls.split_off(1, 0),
        three.opens.split_off(1, 0),
    )
}

/// Has the shares of a door handed back.
pub(crate) fn take_back<
    R: Wait + Sync,
    P: Door<Quiet, Holder> + Drop,
    L: Ledger,
    M: Ledger,
    O: Ledger,
    Q: Ledger,
>(door: LockedDoor<'_, R, Quiet, Holder, P, L, M, O, Q>, three: &mut Three<L, M, O>)
    ensures booked { three.old.booked.parts + 1 ≤ three.new.booked.parts }
    ensures fulls { three.old.fulls.parts + 1 ≤ three.new.fulls.parts }
    ensures opens { three.old.opens.parts + 1 ≤ three.new.opens.parts }
    ensures bound { (three.new.booked.parts ≤ L.parts)
        × (three.new.fulls.parts ≤ M.parts) × (three.new.opens.parts ≤ O.parts) }
{
    let (booked, fulls, opens) = door.shares();
    three.booked.merge(booked);
    three.fulls.merge(fulls);
    three.opens.merge(opens);
}
