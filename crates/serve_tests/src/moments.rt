//! Connections behind one another over one pool, whose clocks move on and fall back: what grew old between
//! them is dialled or searched again. By the route a set that is unused for 60 seconds is forgotten, and a
//! session that is idle for 300 is dropped.

use crate::cases::{Case, MOST_UNITS, WHOLE, are_so_over_a_new_pool, route_of};
use crate::octets::{INIT, INIT_REPLY, SEARCH, SEARCH_REPLY};
use gw_memory::FakeBackend;
use route_config::Route;
use std::alloc::Global;
use std::sync::Wait;
use std::test::Fail;
use test_target::TestWorld;
use z_types::{List, Memory};

/// Connections, by the moments that the clock of each gives, the last again behind them, and how many calls
/// of the target answer them all.
type Story<'a> = (&'a [&'a [u64]], u64);

/// A dial, a search, and the look behind each are four calls; a search and its look are two. A clock is
/// read before each step, and before each turn of a request that is driven: a connection reads its octets in its
/// first step, takes its Init in the second and its Search in the third, and the first turn takes a session of
/// the pool.
const CASES: [Story; 16] = [
    // a set is used until it is 60 seconds old, and from its last use on
    (&[&[0], &[59]], 4),
    (&[&[0], &[60]], 6),
    (&[&[0], &[59], &[118]], 4),
    (&[&[0], &[59], &[119]], 6),
    // a session until it was idle for 300 seconds
    (&[&[0], &[299]], 6),
    (&[&[0], &[300]], 8),
    (&[&[0], &[299], &[598]], 8),
    (&[&[0], &[299], &[599]], 10),
    // within a connection a smaller moment counts as the greatest before it
    (&[&[0], &[60, 0]], 6),
    (&[&[0], &[0, 60, 0]], 6),
    (&[&[60, 0], &[119]], 4),
    // the moment is that of the turn
    (&[&[0], &[0, 0, 0, 60]], 6),
    (&[&[0], &[0, 0, 0, 0, 60]], 4),
    // between connections a set keeps its greatest moment, and a session is idle since it was put back
    (&[&[60], &[0], &[119]], 4),
    (&[&[60], &[0], &[120]], 6),
    (&[&[60], &[0], &[300]], 8),
];

/// The numbers of the calls behind so many, as many as a connection makes at most.
fn calls_behind(alloc: Global, count: u64) -> Result<List<u64>, Memory> {
    let mut list = List::new(alloc);
    for place in 1..9 {
        list.push(count.saturating_add(place))?;
    }
    Ok(list)
}

/// A connection with an Init and a Search.
const SEARCHED: Case = Case {
    sent: &[INIT, SEARCH],
    written: &[INIT_REPLY, SEARCH_REPLY],
    marks: 2,
    ..WHOLE
};

/// Connections with an Init and a Search, whose clocks give these moments.
fn cases_of<'a>(alloc: Global, connections: &[&'a [u64]]) -> Result<Vec<Case<'a>>, Memory> {
    let mut cases = Vec::new(alloc);
    for moments in connections {
        cases.push(Case {
            moments: *moments,
            ..SEARCHED
        })?;
    }
    Ok(cases)
}

/// Whether all connections are answered, where so many calls of the target are, and the next ones fail.
fn are_answered_by<R: Wait>(
    rt: &R,
    alloc: Global,
    route: &Route,
    cases: &[Case],
    calls: u64,
) -> Result<bool, Memory> {
    let mut backend = FakeBackend::new(TestWorld, calls_behind(alloc, calls)?);
    are_so_over_a_new_pool(rt, alloc, route, &mut backend, cases)
}

/// Whether so many calls of the target answer all connections, and no fewer do.
fn is_number_of_calls<R: Wait>(
    rt: &R,
    alloc: Global,
    route: &Route,
    cases: &[Case],
    calls: u64,
) -> Result<bool, Memory> {
    Ok(
        are_answered_by(rt, alloc, route, cases, calls)?
            && !are_answered_by(rt, alloc, route, cases, calls.saturating_sub(1))?,
    )
}

/// The same of connections whose clocks give these moments, by the smallest route.
fn is_number_of_calls_at<R: Wait>(
    rt: &R,
    alloc: Global,
    connections: &[&[u64]],
    calls: u64,
) -> Result<bool, Memory> {
    let cases = cases_of(alloc, connections)?;
    let route = route_of(alloc, MOST_UNITS)?;
    is_number_of_calls(rt, alloc, &route, cases.as_slice(), calls)
}

#[test]
fn what_grew_old_is_dialled_or_searched_again(rt: HostRuntime) -> Result<(), Fail> {
    for (connections, calls) in CASES {
        let is_so = is_number_of_calls_at(&rt, rt.alloc(), connections, calls)?;
        assert!(rt; is_so, "{connections:?}");
    }
    Ok(())
}
