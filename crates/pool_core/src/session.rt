//! One session of a pool: whether it is of a class or of a seat, and how it goes out, comes back and
//! grows old.

ghost use Rattle.std.specs.Prelude.{◌≡◌, is_some, option_copied, true, IfSome};
ghost use Rattle.z_types.specs.Members.{IsMember};
ghost use Rattle.pool_sets.specs.declared.sessions.Stand.TheVariants.{Idle, Out};
ghost use Rattle.z_types.specs.Logins.{same_login, inner};
ghost use Rattle.pool_sets.specs.Sessions.{is_among, in_class, is_for, idle_in, idle_for, idle_with, is_out, idle_parts, with_stand};
ghost use Rattle.pool_sets.specs.Plain.{is_seat, stays_open, with_fresh_sets};
ghost use Rattle.pool_core.specs.Loads.{is_counted, is_counted_for};
ghost use Rattle.pool_core.specs.PoolView.{at_member};

use crate::Spot;
use pool_sets::{Open, Pooled, Seat, Stand};
use std::alloc::Global;
use std::mem;
use z_types::{Address, SetKey, Sitting, Text, World};

/// Whether an address is one of these, by itself or inside a login.
fn is_among(at: &[Address], address: &Address) -> bool
    ensures { result ≡ is_among at.now (inner address.now) }
{
    at.iter().any(|a| address.is_at(a))
}

/// Whether a spot's address is one of these.
fn is_spot_among(at: &[Address], spot: &Spot) -> bool
    ensures { result ≡ is_among at.now (inner spot.now) }
{
    at.iter().any(|a| spot.is(a))
}

/// Whether the session is one of the class.
pub fn is_in_class<W: World, S: Sitting<W>>(
    session: &Open<Pooled<W, S>, Spot>,
    class: u32,
    at: &[Address],
) -> bool
    ensures { result ≡ in_class class at.now session.now }
{
    if session.class != class {
        return false;
    }
    match &session.stand {
        Stand::Idle { pooled, .. } => is_among(at, pooled.address()),
        Stand::Out { address } => is_spot_among(at, address),
    }
}

/// Whether that is the login, or there is none twice.
fn is_login(own: &Option<Text>, login: Option<&Text>) -> bool
    ensures { result ≡ same_login (option_copied login.entry) own.now }
{
    match (own, login) {
        (Some(own), Some(login)) => *login == *own,
        (None, None) => true,
        _ => false,
    }
}

/// Whether the session is one of the login: it was dialled for it, and its address is inside it.
pub fn is_for<W: World, S: Sitting<W>>(
    session: &Open<Pooled<W, S>, Spot>,
    login: Option<&Text>,
) -> bool
    ensures { result ≡ is_for (option_copied login.entry) session.now }
{
    if !is_login(&session.login, login) {
        return false;
    }
    match &session.stand {
        Stand::Idle { pooled, .. } => pooled.address().is_inside(login),
        Stand::Out { .. } => true,
    }
}

/// Whether the session is idle and one of the class.
pub fn is_idle_in<W: World, S: Sitting<W>>(
    session: &Open<Pooled<W, S>, Spot>,
    class: u32,
    at: &[Address],
) -> bool
    ensures { result ≡ is_some (idle_in class at.now session.now) }
{
    is_in_class(session, class, at) && matches!(&session.stand, Stand::Idle { .. })
}

/// Whether the session is idle and one of the class and login.
pub fn is_idle_for<W: World, S: Sitting<W>>(
    session: &Open<Pooled<W, S>, Spot>,
    class: u32,
    at: &[Address],
    login: Option<&Text>,
) -> bool
    ensures { result ≡ is_some (idle_for class at.now (option_copied login.entry) session.now) }
{
    is_for(session, login) && is_idle_in(session, class, at)
}

/// Whether the session is idle and one of the class and login, and holds a set of the key.
pub fn holds_in<W: World, S: Sitting<W>>(
    session: &Open<Pooled<W, S>, Spot>,
    class: u32,
    at: &[Address],
    login: Option<&Text>,
    key: &SetKey,
) -> bool
    ensures { result
        ≡ is_some (idle_with class at.now (option_copied login.entry) key.now session.now) }
{
    match &session.stand {
        Stand::Idle { pooled, .. } => {
            is_for(session, login)
                && is_in_class(session, class, at)
                && pooled.table().holds(key).is_some()
        }
        Stand::Out { .. } => false,
    }
}

/// Whether the session is that of the seat, and out.
pub fn is_seat<W: World, S: Sitting<W>>(session: &Open<Pooled<W, S>, Spot>, seat: &Seat) -> bool
    ensures { result ≡ is_seat seat.now session.now }
{
    session.number == seat.number
        && session.class == seat.class
        && matches!(&session.stand, Stand::Out { .. })
}

/// Whether the session counts, where that of a seat does not.
fn is_counted<W: World, S: Sitting<W>>(
    session: &Open<Pooled<W, S>, Spot>,
    but: Option<&Seat>,
) -> bool
    ensures { result ≡ is_counted (option_copied but.entry) session.now }
{
    match but {
        Some(seat) => !is_seat(session, seat),
        None => true,
    }
}

/// Whether the session counts for a member of the class.
pub fn is_of_member<W: World, S: Sitting<W>>(
    session: &Open<Pooled<W, S>, Spot>,
    class: u32,
    at: &[Address],
    member: u32,
    but: Option<&Seat>,
) -> bool
    ensures { result ≡ is_counted_for (option_copied but.entry) class at.now member session.now }
{
    is_counted(session, but) && is_in_class(session, class, at) && session.member == member
}

/// Puts the session out, and gives what was idle.
pub fn lend<W: World, S: Sitting<W>>(
    session: &mut Open<Pooled<W, S>, Spot>,
    address: Spot,
) -> Option<Pooled<W, S>>
    ensures pooled { result ≡ idle_parts session.old.stand }
    ensures out { session.new ≡ with_stand (Out address) session.old }
{
    match mem::replace(&mut session.stand, Stand::Out { address }) {
        Stand::Idle { pooled, .. } => Some(pooled),
        Stand::Out { .. } => None,
    }
}

/// Puts a session to rest.
pub fn rest<W: World, S: Sitting<W>>(
    session: &mut Open<Pooled<W, S>, Spot>,
    pooled: Pooled<W, S>,
    since: u64,
)
    ensures { session.new ≡ with_stand (Idle pooled since) session.old }
{
    session.stand = Stand::Idle { pooled, since };
}

/// A session that is out is out for another member.
pub fn move_to<W: World, S: Sitting<W>>(
    session: &mut Open<Pooled<W, S>, Spot>,
    member: u32,
    to: &Address,
)
    requires short { IsMember to.now }
    ensures { is_out session.old.stand ≡ true → session.new ≡ at_member member to.now session.old }
{
    if let Stand::Out { address } = &mut session.stand {
        session.member = member;
        address.replace(to);
    }
}

/// A spot with the address of an idle session, without its login.
pub fn spot_for<W: World, S: Sitting<W>>(
    alloc: Global,
    session: &Open<Pooled<W, S>, Spot>,
) -> Option<Spot>
    ensures { IfSome result (λ spot.
        IfSome (idle_parts session.now.stand) (λ p. spot ≡ inner p.address)) }
{
    match &session.stand {
        Stand::Idle { pooled, .. } => Spot::new(alloc, pooled.address()).ok(),
        Stand::Out { .. } => None,
    }
}

/// Whether the session stays open.
pub fn stays<W: World, S: Sitting<W>>(
    session: &Open<Pooled<W, S>, Spot>,
    now: u64,
    ttl: u64,
) -> bool
    ensures { result ≡ stays_open now ttl session.now }
{
    match &session.stand {
        Stand::Idle { since, .. } => now.saturating_sub(*since) < ttl,
        Stand::Out { .. } => true,
    }
}

/// Forgets the sets of a session that were unused for too long.
pub fn freshen<W: World, S: Sitting<W>>(session: &mut Open<Pooled<W, S>, Spot>, now: u64, ttl: u64)
    ensures { session.new ≡ with_fresh_sets now ttl session.old }
{
    if let Stand::Idle { pooled, .. } = &mut session.stand {
        pooled.expire(now, ttl);
    }
}
