//! The first session that holds a set of a key, by the digest of the key.

ghost use Rattle.std.specs.Prelude.{◌≡◌, true, false, option_copied, All, IfSome, IsNone};
ghost use Rattle.std.specs.List.{AllZip};
ghost use Rattle.pool_core.specs.PoolView.{holder_place};
ghost use Rattle.pool_roster.specs.Told.{told, digest_by, IsListed, IsSpent};
ghost use Rattle.pool_roster.specs.RosterView.{Rises, RiseIn, is_holder, IsOneOf, IsNoneOf, MaySettle};

use crate::Berth;
use crate::berth::{Expiries, settle};
use crate::berths::place_of;
use crate::listing::{lacks_digest, own_of};
use pool_core::{Spot, holds_in};
use pool_keys::{Digest, KeyIndex, Pair};
use pool_sets::{Open, Pooled, Stand};
use z_types::{Address, SetKey, Sitting, Text, World};

/// The place of the session of a number, where it is idle and of the class and holds a set of the key.
fn holder_of<W: World, S: Sitting<W>>(
    berths: &mut Vec<Berth<Open<Pooled<W, S>, Spot>>>,
    number: u64,
    expiries: Expiries,
    ttl: u64,
    class: u32,
    at: &[Address],
    login: Option<&Text>,
    key: &SetKey,
) -> Option<usize>
    requires order { RiseIn (told expiries ttl berths.old.items) }
    ensures some { IfSome result
        (IsOneOf (is_holder class at.now (option_copied login.entry) key.now) number
        (told expiries ttl berths.old.items)) }
    ensures none { IsNone result
        → IsNoneOf (is_holder class at.now (option_copied login.entry) key.now) number
        (told expiries ttl berths.old.items) }
    ensures berths { AllZip (MaySettle expiries ttl) berths.old.items berths.new.items }
{
    let Some(place) = place_of(berths.as_slice(), number) else {
        return None;
    };
    settle(&mut berths[place], expiries, ttl, expiries.count);
    if holds_in(&berths[place].session, class, at, login, key) {
        Some(place)
    } else {
        None
    }
}

/// Whether no idle session of a pair's number has a set of its digest.
fn is_spent<W: World, S: Sitting<W>, D: Digest>(
    berths: &[Berth<Open<Pooled<W, S>, Spot>>],
    pair: Pair,
) -> bool
    requires order { Rises berths.now }
    ensures spent { result ≡ true → IsSpent (digest_by D.own D.digest) pair berths.now }
    ensures stands { result ≡ false → IsSpent (digest_by D.own D.digest) pair berths.now → ⊥ }
{
    let Some(place) = place_of(berths, pair.number) else {
        return true;
    };
    let session = &berths[place].session;
    match &session.stand {
        Stand::Idle { pooled, .. } => {
            lacks_digest::<D>(pooled.table(), own_of::<W, S, D>(session), pair.digest)
        }
        Stand::Out { .. } => true,
    }
}

/// Takes a pair out where it stands for no set.
fn take_out_spent<W: World, S: Sitting<W>, D: Digest>(
    index: &mut KeyIndex,
    berths: &[Berth<Open<Pooled<W, S>, Spot>>],
    pair: Pair,
)
    requires order { Rises berths.now }
    requires listed { All (IsListed (digest_by D.own D.digest) index.old) berths.now }
    ensures listed { All (IsListed (digest_by D.own D.digest) index.new) berths.now }
    ensures whole { index.new.whole ≡ index.old.whole }
{
    if is_spent::<W, S, D>(berths, pair) {
        index.take_out(pair);
    }
}

/// The digest of a key of a class and a login, or none.
fn digest_for<D: Digest>(class: u32, login: Option<&Text>, key: &SetKey) -> u64
    ensures { result ≡ digest_by D.own D.digest (class, option_copied login.entry) key.now }
{
    D::digest(D::own(class, login), key)
}

/// The place of the first idle session of the class and login that holds a set of the key. A pair that stands for no
/// set any more is taken out where it is met, so it is met once.
pub fn first_holder<W: World, S: Sitting<W>, D: Digest>(
    berths: &mut Vec<Berth<Open<Pooled<W, S>, Spot>>>,
    index: &mut KeyIndex,
    expiries: Expiries,
    ttl: u64,
    class: u32,
    at: &[Address],
    login: Option<&Text>,
    key: &SetKey,
) -> Option<usize>
    requires order { RiseIn (told expiries ttl berths.old.items) }
    requires whole { index.old.whole ≡ true }
    requires listed { All (IsListed (digest_by D.own D.digest) index.old) berths.old.items }
    ensures place { result
        ≡ holder_place class at.now (option_copied login.entry) key.now
        (told expiries ttl berths.old.items) }
    ensures berths { AllZip (MaySettle expiries ttl) berths.old.items berths.new.items }
    ensures listed { All (IsListed (digest_by D.own D.digest) index.new) berths.new.items }
{
    let digest = digest_for::<D>(class, login, key);
    let mut from = 0;
    loop {
        let Some(number) = index.next(digest, from) else {
            return None;
        };
        if let Some(place) = holder_of(berths, number, expiries, ttl, class, at, login, key) {
            return Some(place);
        }
        take_out_spent::<W, S, D>(index, berths.as_slice(), Pair { digest, number });
        let Some(after) = number.checked_add(1) else {
            return None;
        };
        from = after;
    }
}
