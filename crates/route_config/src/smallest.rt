//! The smallest configuration: one target, and one database that is the target's own.

ghost use Rattle.std.specs.Prelude.{◌≡◌, IfOk, [], ◌∷◌};
ghost use Rattle.route_config.specs.Smallest.{smallest_route};

use crate::{
    Class, Database, Members, PoolNumbers, Route, RouteLeg, RouteParts, Target, default_indexes,
    default_schemas,
};
use std::alloc::Global;
use z_types::{Address, Limits, List, Memory, Text};

/// The text of the smallest configuration, each line ended by LF.
pub const SMALLEST_TEXT: &[u8] = b"[[target]]\n\
name = \"alpha\"\n\
address = \"test:0\"\n\n\
[[database]]\n\
name = \"Default\"\n\n\
[[database.leg]]\n\
via = \"alpha\"\n\
databases = [\"Default\"]\n";

impl Route {
    /// The route of the smallest configuration.
    pub fn smallest(alloc: Global) -> Result<Route, Memory>
        ensures { IfOk result (λ route. route ≡ smallest_route) }
    {
        Route::new(alloc, RouteParts::smallest(alloc)?)
    }
}

impl RouteParts {
    /// What the route of the smallest configuration is made of.
    pub fn smallest(alloc: Global) -> Result<RouteParts, Memory>
        ensures { IfOk result (λ parts. parts ≡ smallest_route) }
    {
        Ok(RouteParts {
            targets: one(alloc, smallest_target(alloc)?)?,
            groups: List::new(alloc),
            databases: one(alloc, smallest_database(alloc)?)?,
            legs: one(alloc, smallest_leg(alloc)?)?,
            classes: one(alloc, smallest_class(alloc)?)?,
            pool: default_pool(),
            limits: default_limits(),
            indexes: default_indexes(alloc)?,
            schemas: default_schemas(alloc)?,
            users: List::new(alloc),
            rules: List::new(alloc),
            cache_records: 0,
            cache_record_bytes: 4096,
        })
    }
}

/// The list of one item.
fn one<T: Drop>(alloc: Global, item: T) -> Result<List<T>, Memory>
    ensures { IfOk result (λ list. list ≡ item ∷ []) }
{
    let mut list = List::new(alloc);
    list.push(item)?;
    Ok(list)
}

fn smallest_target(alloc: Global) -> Result<Target, Memory>
    ensures { IfOk result (λ target. target ∷ [] ≡ smallest_route.targets) }
{
    Ok(Target {
        name: Text::copy_of(alloc, b"alpha")?,
        address: Address::Test(0),
    })
}

fn smallest_database(alloc: Global) -> Result<Database, Memory>
    ensures { IfOk result (λ database. database ∷ [] ≡ smallest_route.databases) }
{
    Ok(Database {
        name: Text::copy_of(alloc, b"Default")?,
        hide_errors: false,
        legs: one(alloc, 0)?,
    })
}

fn smallest_leg(alloc: Global) -> Result<RouteLeg, Memory>
    ensures { IfOk result (λ leg. leg ∷ [] ≡ smallest_route.legs) }
{
    Ok(RouteLeg {
        database: 0,
        class: 0,
        databases: one(alloc, Text::copy_of(alloc, b"Default")?)?,
    })
}

fn smallest_class(alloc: Global) -> Result<Class, Memory>
    ensures { IfOk result (λ class. class ∷ [] ≡ smallest_route.classes) }
{
    Ok(Class {
        name: Text::copy_of(alloc, b"alpha")?,
        addresses: Members::new(one(alloc, Address::Test(0))?),
    })
}

fn default_pool() -> PoolNumbers
    ensures { result ≡ smallest_route.pool }
{
    PoolNumbers {
        max_sessions: 64,
        sets_max: 10,
        session_ttl: 300,
        set_ttl: 60,
        repeats: 2,
        patience: 1000,
    }
}

fn default_limits() -> Limits
    ensures { result ≡ smallest_route.limits }
{
    Limits {
        units: 100000,
        searches: 10000,
        records: 100000,
        sets: 32,
    }
}
