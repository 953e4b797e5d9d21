//! Packages that are driven.

use crate::outside::{CountingClock, Session, slow_targets};
use crate::routes::{THREE_LEGS, route_of};
use crate::works::search_of_three;
use package::Package;
use pool_core::Pool;
use route_config::Route;
use std::alloc::Global;
use std::sync::Wait;
use std::test::Fail;
use test_target::TestWorld;
use z_types::{Fetched, Item, Memory, NamedRecord, Outcome};

/// What comes of the search over three legs, driven to its end, where the replies of the test targets arrive
/// after so many looks.
fn driven<R: Wait>(
    rt: &R,
    alloc: Global,
    route: &Route,
    delays: &[(u32, u32)],
) -> Result<Outcome, Memory> {
    let mut backend = slow_targets(alloc, delays)?;
    let mut pool: Pool<TestWorld, Session> = Pool::new(alloc, route)?;
    let mut clock = CountingClock { reads: 0 };
    let mut package = Package::start(alloc, route, search_of_three(alloc, route)?)?;
    let done = package.drive(rt, alloc, route, &mut backend, &mut pool, &mut clock);
    if done.is_err() {
        package.give_up(&mut pool);
        return Err(Memory);
    }
    package.finish(alloc, route)
}

/// Whether a record has these octets.
fn has_octets(record: &NamedRecord, octets: &[u8]) -> bool {
    match &record.item {
        Item::Record { bytes, .. } => bytes.as_slice() == octets,
        Item::Surrogate(_) => false,
    }
}

/// Whether so many records were found by each leg, and records with these octets are shown, in this order.
fn shows(outcome: &Outcome, found: &[u32], octets: &[&[u8]]) -> bool {
    let Outcome::Found { hits, fetched } = outcome else {
        return false;
    };
    let Fetched::Records(records) = fetched else {
        return false;
    };
    let records = records.as_slice();
    hits.as_slice() == found
        && records.len() == octets.len()
        && records
            .iter()
            .zip(octets)
            .all(|(record, octets)| has_octets(record, octets))
}

#[test]
fn records_are_shown_in_their_order_whichever_target_is_first(rt: HostRuntime) -> Result<(), Fail> {
    let route = route_of(rt.alloc(), THREE_LEGS)?;
    let octets: [&[u8]; 4] = [
        b"<r>0.Default.4</r>",
        b"<r>1.Small.3</r>",
        b"<r>0.Default.12</r>",
        b"<r>0.Default.20</r>",
    ];
    for (a, b, c) in [(3, 0, 1), (0, 1, 3), (1, 3, 0)] {
        let delays = [(0, a), (2, b), (1, c)];
        let outcome = driven(&rt, rt.alloc(), &route, &delays)?;
        assert!(rt; shows(&outcome, &[3, 0, 1], &octets));
    }
    Ok(())
}
