//! Stories over links with test targets, and over both pools.

use crate::plays::{Step, first_other};
use pool_core::Pool;
use pool_index::IndexedPool;
use route_config::{Route, SMALLEST_TEXT};
use route_text::read_route;
use std::alloc::Global;
use test_target::TestWorld;
use test_wire::{TestLink, TestWire};
use z_client::{ZBackend, ZSession};
use z_types::{Memory, Text};

/// A session with a test target over a link.
type Session = ZSession<TestWorld, TestLink>;

/// Which pool.
#[derive(Clone, Copy, PartialEq, Eq, Debug)]
pub(crate) enum Kind {
    /// The list of sessions.
    Plain,
    /// The one by indexes.
    Indexed,
}

/// What a story is about, the parts of its configuration, and its steps.
pub(crate) type Story = (&'static str, &'static [&'static [u8]], &'static [Step]);

/// The smallest configuration: the leg `alpha` at the test target 0.
pub(crate) const SMALLEST: &[&[u8]] = &[SMALLEST_TEXT];

/// The same with one session of a class.
pub(crate) const ONE_SESSION: &[&[u8]] = &[SMALLEST_TEXT, b"[pool]\nmax_sessions = 1\n"];

/// A database of three legs, of which the second has no record and the third three.
pub(crate) const THREE_LEGS: &[&[u8]] = &[
    b"[[target]]\nname = \"a\"\naddress = \"test:0\"\n\
[[target]]\nname = \"b\"\naddress = \"test:2\"\n\
[[target]]\nname = \"c\"\naddress = \"test:1\"\n\
[[database]]\nname = \"Default\"\n\
[[database.leg]]\nvia = \"a\"\ndatabases = [\"Default\"]\n\
[[database.leg]]\nvia = \"b\"\ndatabases = [\"Empty\"]\n\
[[database.leg]]\nvia = \"c\"\ndatabases = [\"Small\"]\n",
];

/// The route of a configuration in parts.
fn route_of(alloc: Global, parts: &[&[u8]]) -> Result<Route, Memory> {
    let mut text = Text::new(alloc);
    for part in parts {
        text.append(part)?;
    }
    match read_route(alloc, text.as_slice()) {
        Ok(route) => Ok(route),
        Err(_) => Err(Memory),
    }
}

/// Where a story goes otherwise: over which pool, and at the step of which place, counted from 0.
pub(crate) fn other_way(
    alloc: Global,
    config: &[&[u8]],
    steps: &[Step],
) -> Result<Option<(Kind, usize)>, Memory> {
    for kind in [Kind::Plain, Kind::Indexed] {
        let route = route_of(alloc, config)?;
        if let Some(place) = first_other_over(alloc, kind, &route, steps)? {
            return Ok(Some((kind, place)));
        }
    }
    Ok(None)
}

/// The place of the first step that goes otherwise over a pool.
fn first_other_over(
    alloc: Global,
    kind: Kind,
    route: &Route,
    steps: &[Step],
) -> Result<Option<usize>, Memory> {
    let mut backend = ZBackend::new(alloc, TestWire::new(alloc));
    match kind {
        Kind::Plain => {
            let mut pool: Pool<TestWorld, Session> = Pool::new(alloc, route)?;
            first_other(alloc, route, &mut backend, &mut pool, steps)
        }
        Kind::Indexed => {
            let mut pool: IndexedPool<TestWorld, Session> = IndexedPool::new(alloc, route)?;
            first_other(alloc, route, &mut backend, &mut pool, steps)
        }
    }
}
