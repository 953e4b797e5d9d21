//! The member of fewest sessions, and the address of a session that is out.

ghost use Rattle.std.specs.Prelude.{IfOk};
ghost use Rattle.z_types.specs.Members.{IsMember};
ghost use Rattle.gw_outside.specs.Asks.{MaySearch};
ghost use Rattle.pool_sets.specs.Kept.{slot_name};

use crate::sessions::{key_for, session_holding};
use crate::targets::Steady;
use gw_memory::{FakeBackend, FakeSession};
use load_balance::least;
use pool_core::Spot;
use pool_sets::Pooled;
use std::alloc::Global;
use std::test::Fail;
use z_types::{Address, List, Memory, SetKey, Text};

#[test]
fn the_least_number_stands_first_in_a_tie(rt: HostRuntime) {
    for (counts, place) in [
        ([7, 7, 7], 0),
        ([2, 1, 1], 1),
        ([u32::MAX, 1, 0], 2),
        ([0, 1, 0], 0),
    ] {
        assert_eq!(rt; least(&counts), place);
    }
}

/// An address: a test target, or a port of one host.
#[derive(Clone, Copy, Debug)]
enum At {
    Test(u32),
    Port(u16),
}

/// The address there.
fn address(alloc: Global, at: At) -> Result<Address, Memory>
    ensures { IfOk result IsMember }
{
    match at {
        At::Test(number) => Ok(Address::Test(number)),
        At::Port(port) => Ok(Address::Tcp(Text::copy_of(alloc, b"z3950.example")?, port)),
    }
}

/// Whether a spot that was given addresses, one behind another, has this one.
fn is_at(alloc: Global, first: At, next: Option<At>, asked: At) -> Result<bool, Memory> {
    let mut spot = Spot::new(alloc, &address(alloc, first)?)?;
    if let Some(at) = next {
        spot.replace(&address(alloc, at)?);
    }
    Ok(spot.is(&address(alloc, asked)?))
}

#[test]
fn a_spot_has_the_address_that_it_was_given_last(rt: HostRuntime) -> Result<(), Fail> {
    for (next, asked, wanted) in [
        (None, At::Test(3), true),
        (None, At::Port(210), false),
        (Some(At::Port(210)), At::Port(210), true),
        (Some(At::Port(210)), At::Test(3), false),
        (Some(At::Port(210)), At::Port(211), false),
    ] {
        assert_eq!(rt;
            is_at(rt.alloc(), At::Test(3), next, asked)?,
            wanted,
            "{next:?} {asked:?}"
        );
    }
    Ok(())
}

/// A session that holds the set of a search, used at a moment.
fn pooled_at(alloc: Global, key: &SetKey, now: u64) -> Result<Pooled<Steady, FakeSession>, Memory>
    requires { MaySearch (slot_name 0) key.now }
{
    let mut backend = FakeBackend::new(Steady, List::new(alloc));
    session_holding(alloc, &mut backend, &Address::Test(0), key, now)
}

/// Whether a session has its address, and its set, last used at moment 5, until 60 seconds after it is
/// found at moment 6.
fn keeps_its_set(pooled: &mut Pooled<Steady, FakeSession>, key: &SetKey) -> bool {
    if *pooled.address() != Address::Test(0) || pooled.find(key, 6) != Some((0, 3)) {
        return false;
    }
    pooled.expire(65, 60);
    let before = pooled.table().len();
    pooled.expire(66, 60);
    before == 1 && pooled.table().len() == 0
}

/// The same of one that is made for it.
fn is_kept(alloc: Global) -> Result<bool, Memory> {
    let key = key_for(alloc, 3)?;
    let mut pooled = pooled_at(alloc, &key, 5)?;
    Ok(keeps_its_set(&mut pooled, &key))
}

#[test]
fn a_pooled_session_has_its_address_and_its_sets(rt: HostRuntime) -> Result<(), Fail> {
    assert!(rt; is_kept(rt.alloc())?, "three records are found");
    Ok(())
}
