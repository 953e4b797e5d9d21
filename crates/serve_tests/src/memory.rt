//! Connections that end for want of memory, which their targets have none of while a search is made.

use crate::cases::{Case, MOST_UNITS, WHOLE, are_so, route_within};
use crate::octets::{GET, INIT, INIT_REPLY};
use crate::workers::{WorkCase, works_so};
use gw_memory::{FakeBackend, FakeSession};
use gw_outside::{TargetAnswer, Targets};
use pool_core::Pool;
use pool_sets::Door;
use route_config::Route;
use serve::Worked;
use std::alloc::Global;
use std::sync::Wait;
use std::test::Fail;
use test_target::TestWorld;
use z_types::{Address, End, Item, List, Memory, Oid, RpnQuery, ScanAnswer, ScanAsk, Text, World};

/// The test targets, which lack memory for each search, or for none.
#[derive(Drop)]
struct Scarce {
    world: TestWorld,
    lacks: bool,
}

impl World for Scarce {
    ghost told = { ⟦<TestWorld as World>⟧.told };

    ghost inner_is_told = { ⟦<TestWorld as World>⟧.inner_is_told };

    ghost search = { ⟦<TestWorld as World>⟧.search };

    ghost record_ = { ⟦<TestWorld as World>⟧.record_ };

    ghost scan = { ⟦<TestWorld as World>⟧.scan };

    ghost hits_are_counts = { ⟦<TestWorld as World>⟧.hits_are_counts };

    ghost whole_is_not_gone = { ⟦<TestWorld as World>⟧.whole_is_not_gone };
}

impl Targets for Scarce {
    fn search(
        &self,
        alloc: Global,
        address: &Address,
        dbs: &List<Text>,
        query: &RpnQuery,
    ) -> TargetAnswer<u32> {
        if self.lacks {
            return TargetAnswer::Memory;
        }
        self.world.search(alloc, address, dbs, query)
    }

    fn record_(
        &self,
        alloc: Global,
        address: &Address,
        dbs: &List<Text>,
        query: &RpnQuery,
        position: u32,
        syntax: Option<&Oid>,
        element: Option<&Text>,
    ) -> TargetAnswer<Item> {
        self.world
            .record_(alloc, address, dbs, query, position, syntax, element)
    }

    fn scan(
        &self,
        alloc: Global,
        address: &Address,
        dbs: &List<Text>,
        ask: &ScanAsk,
    ) -> TargetAnswer<ScanAnswer> {
        self.world.scan(alloc, address, dbs, ask)
    }
}

/// Sessions with the test targets, which lack memory for each search, or for none.
fn sessions(alloc: Global, lacks: bool) -> FakeBackend<Scarce> {
    let world = TestWorld;
    FakeBackend::new(Scarce { world, lacks }, List::new(alloc))
}

/// Connections whose requests in work end for want of memory, and one that asks for nothing of targets.
const LACKING: [Case; 3] = [
    Case {
        written: &[INIT_REPLY],
        marks: 1,
        end: End::Memory,
        ..WHOLE
    },
    Case {
        sent: &[GET],
        written: &[],
        marks: 0,
        end: End::Memory,
        ..WHOLE
    },
    Case {
        sent: &[INIT],
        written: &[INIT_REPLY],
        marks: 1,
        ..WHOLE
    },
];

/// Whether connections are served as their cases have it, over targets that lack memory or not.
fn are_so_over<R: Wait, D: Door<Scarce, FakeSession>>(
    rt: &R,
    alloc: Global,
    route: &Route,
    door: &mut D,
    lacks: bool,
    cases: &[Case],
) -> Result<bool, Memory> {
    let mut backend = sessions(alloc, lacks);
    are_so(rt, alloc, route, door, &mut backend, cases)
}

/// Whether connections are served as their cases have it, those of targets that lack memory and, behind them over
/// the same door, one of targets that do not.
fn leave_their_seat<R: Wait, D: Door<Scarce, FakeSession>>(
    rt: &R,
    alloc: Global,
    route: &Route,
    door: &mut D,
) -> Result<bool, Memory> {
    Ok(
        are_so_over(rt, alloc, route, door, true, &LACKING)?
            && are_so_over(rt, alloc, route, door, false, &[WHOLE])?,
    )
}

/// The same over a pool of one session.
fn leave_the_seat_of_a_pool<R: Wait>(rt: &R, alloc: Global, route: &Route) -> Result<bool, Memory> {
    let mut pool: Pool<Scarce, FakeSession> = Pool::new(alloc, route)?;
    leave_their_seat(rt, alloc, route, &mut pool)
}

/// The same by a route of one session of a class.
fn leave_the_seat<R: Wait>(rt: &R, alloc: Global) -> Result<bool, Memory> {
    let route = route_within(alloc, MOST_UNITS, 1)?;
    leave_the_seat_of_a_pool(rt, alloc, &route)
}

#[test]
fn a_connection_that_lacks_memory_leaves_its_seat_to_the_next(rt: HostRuntime) -> Result<(), Fail> {
    assert!(rt; leave_the_seat(&rt, rt.alloc())?);
    Ok(())
}

/// A worker serves all its connections.
const LACKING_WORK: WorkCase = WorkCase {
    cases: &LACKING,
    failing_accept: 0,
    worked: Worked::Ended,
    count: 3,
};

#[test]
fn a_worker_goes_on_behind_a_connection_that_lacks_memory(rt: HostRuntime) -> Result<(), Fail> {
    let alloc = rt.alloc();
    assert!(rt; works_so(&rt, alloc, sessions(alloc, true), &LACKING_WORK)?);
    Ok(())
}
