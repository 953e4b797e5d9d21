//! The routes whose first leg is played.

ghost use Rattle.std.specs.Prelude.{◌<◌, length, IfOk};
ghost use Rattle.z_types.specs.Members.{AreMembers};

use route_config::{Class, Members, Route, RouteParts};
use std::alloc::Global;
use z_types::{Address, List, Memory, Text};

/// The members of the class that the first leg goes to.
#[derive(Clone, Copy, Drop)]
pub(crate) enum At {
    /// The test target 0.
    One,
    /// The test targets 0 and 1.
    Two,
    /// A host far away.
    Far,
}

/// A route: its members, the most sessions of the class, and the most sets of a session.
#[derive(Clone, Copy, Drop)]
pub(crate) struct Way {
    /// The members.
    pub(crate) at: At,
    /// The most sessions.
    pub(crate) sessions: u32,
    /// The most sets.
    pub(crate) sets: u32,
}

/// The addresses of a class's members.
fn addresses(alloc: Global, at: At) -> Result<List<Address>, Memory>
    ensures { IfOk result AreMembers }
{
    let mut addresses = List::new(alloc);
    match at {
        At::One => addresses.push(Address::Test(0))?,
        At::Two => {
            addresses.push(Address::Test(0))?;
            addresses.push(Address::Test(1))?;
        }
        At::Far => addresses.push(Address::Tcp(Text::copy_of(alloc, b"far")?, 210))?,
    }
    Ok(addresses)
}

/// The classes of a route: one of these members.
fn classes(alloc: Global, at: At) -> Result<List<Class>, Memory> {
    let mut classes = List::new(alloc);
    classes.push(Class {
        name: Text::copy_of(alloc, b"alpha")?,
        addresses: Members::new(addresses(alloc, at)?),
    })?;
    Ok(classes)
}

/// A route whose first leg goes that way; else it is that of the smallest configuration.
pub(crate) fn route_of(alloc: Global, way: Way) -> Result<Route, Memory>
    ensures { IfOk result (λ route. 0 < length route.legs) }
{
    let mut parts = RouteParts::smallest(alloc)?;
    parts.classes = classes(alloc, way.at)?;
    parts.pool.max_sessions = way.sessions;
    parts.pool.sets_max = way.sets;
    if !parts.are_sound() {
        return Err(Memory);
    }
    Route::new(alloc, parts)
}
