//! A connection whose requests have three legs in flight, over links with test targets whose replies arrive
//! at different looks. What it is written is what a replay writes it, which takes steps.

use crate::cases::{Case, WHOLE, are_so_over_a_new_pool};
use crate::octets::{
    INIT, INIT_REPLY, MERGED_PRESENT_REPLY, MERGED_SEARCH_REPLY, PRESENT_ALL, SEARCH,
};
use gw_outside::Events;
use route_config::Route;
use route_text::read_route;
use std::alloc::Global;
use std::sync::Wait;
use std::test::Fail;
use test_target::TestWorld;
use test_wire::TestWire;
use z_client::ZBackend;
use z_types::Memory;

/// A database of three legs, at the test targets 0, 2 and 1.
const THREE_LEGS: &[u8] = b"[[target]]\nname = \"a\"\naddress = \"test:0\"\n\
[[target]]\nname = \"b\"\naddress = \"test:2\"\n\
[[target]]\nname = \"c\"\naddress = \"test:1\"\n\
[[database]]\nname = \"Default\"\n\
[[database.leg]]\nvia = \"a\"\ndatabases = [\"Default\"]\n\
[[database.leg]]\nvia = \"b\"\ndatabases = [\"Empty\"]\n\
[[database.leg]]\nvia = \"c\"\ndatabases = [\"Small\"]\n";

/// The route of three legs.
fn route(alloc: Global) -> Result<Route, Memory> {
    match read_route(alloc, THREE_LEGS) {
        Ok(route) => Ok(route),
        Err(_) => Err(Memory),
    }
}

/// Sessions with the test targets 0, 2 and 1, whose replies arrive after so many looks.
fn sessions(alloc: Global, looks: [u32; 3]) -> Result<ZBackend<TestWire>, Memory> {
    let mut backend = ZBackend::new(alloc, TestWire::new(alloc));
    for (target, count) in [0, 2, 1].into_iter().zip(looks) {
        backend.slow(target, count)?;
    }
    Ok(backend)
}

/// A connection whose client asks for all records of all legs.
const MERGED: Case = Case {
    sent: &[INIT, SEARCH, PRESENT_ALL],
    written: &[INIT_REPLY, MERGED_SEARCH_REPLY, MERGED_PRESENT_REPLY],
    ..WHOLE
};

/// Whether all records of all legs are shown, by a route, where the replies of the targets arrive after so many
/// looks.
fn are_shown_by<R: Wait>(
    rt: &R,
    alloc: Global,
    route: &Route,
    looks: [u32; 3],
) -> Result<bool, Memory> {
    let mut backend = sessions(alloc, looks)?;
    are_so_over_a_new_pool::<R, TestWorld, _>(rt, alloc, route, &mut backend, &[MERGED])
}

/// Whether all records of all legs are shown, where the replies of the targets arrive after so many looks.
fn are_shown<R: Wait>(rt: &R, alloc: Global, looks: [u32; 3]) -> Result<bool, Memory> {
    let route = route(alloc)?;
    are_shown_by(rt, alloc, &route, looks)
}

#[test]
fn legs_in_flight_are_answered_in_their_order_whichever_is_first(
    rt: HostRuntime,
) -> Result<(), Fail> {
    for looks in [[0, 0, 0], [3, 0, 1], [0, 1, 3], [1, 3, 0]] {
        assert!(rt; are_shown(&rt, rt.alloc(), looks)?, "{looks:?}");
    }
    Ok(())
}
