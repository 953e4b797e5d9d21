//! A session as the pool left it, and how often the pool expired.

ghost use Rattle.std.specs.Prelude.{◌≡◌};
ghost use Rattle.pool_sets.specs.declared.sessions.Stand.TheVariants.{Out};
ghost use Rattle.pool_sets.specs.Sessions.{idle_parts, with_stand};
ghost use Rattle.pool_roster.specs.Told.{seen, settled};

use pool_core::{Spot, freshen, lend};
use pool_sets::{Open, Pooled};
use z_types::{Sitting, World};

/// A session as it was left, and how often the pool had expired by then.
#[derive(Drop)]
pub struct Berth<O> {
    /// The session.
    pub session: O,
    /// How often the pool had expired.
    pub stamp: u64,
}

/// How often a pool expired, and the moment of the last time.
#[derive(Clone, Copy, Drop)]
pub struct Expiries {
    /// How often it expired.
    pub count: u64,
    /// The moment of the last time.
    pub last: u64,
}

/// Leaves the session as it is told.
pub fn settle<W: World, S: Sitting<W>>(
    berth: &mut Berth<Open<Pooled<W, S>, Spot>>,
    expiries: Expiries,
    ttl: u64,
    stamp: u64,
)
    ensures { berth.new ≡ settled expiries ttl stamp berth.old }
{
    if berth.stamp < expiries.count {
        freshen(&mut berth.session, expiries.last, ttl);
    }
    berth.stamp = stamp;
}

/// Puts the session out, as it is told, and gives what was idle.
pub fn lend_out<W: World, S: Sitting<W>>(
    berth: &mut Berth<Open<Pooled<W, S>, Spot>>,
    expiries: Expiries,
    ttl: u64,
    address: Spot,
) -> Option<Pooled<W, S>>
    ensures pooled { result ≡ idle_parts (seen expiries ttl berth.old).stand }
    ensures out { berth.new ≡ (record {
      session = with_stand (Out address) (seen expiries ttl berth.old);
      stamp = expiries.count;
    }) }
{
    settle(berth, expiries, ttl, expiries.count);
    lend(&mut berth.session, address)
}
