//! What the route of the values is made of.

ghost use Rattle.std.specs.Prelude.{◌≡◌, IfOk};
ghost use Rattle.route_text.specs.RouteOf.{route_of};
ghost use Rattle.route_text.specs.Sizes.{HasSizes};

use crate::Values;
use crate::class::classes_of;
use crate::leg::{databases_of, legs_of};
use crate::names::names_of;
use crate::route::{firsts, groups_of};
use crate::whole::vias;
use route_config::RouteParts;
use std::alloc::Global;
use z_types::Memory;

/// What the route is made of, of the values of a configuration that is refused for nothing.
#[tactic(auto, unfolding(crate::specs::RouteOf::route_of), using(crate::proofs::SizeLemmas::counts))]
pub fn route_of(alloc: Global, values: Values) -> Result<RouteParts, Memory>
    requires { HasSizes values }
    ensures { IfOk result (λ parts. parts ≡ route_of values) }
{
    let targets = names_of(alloc, values.targets.as_slice())?;
    let vias = vias(alloc, &values)?;
    let names = firsts(alloc, vias.as_slice())?;
    let groups = groups_of(alloc, targets.as_slice(), values.groups.as_slice())?;
    let databases = databases_of(alloc, values.databases.as_slice())?;
    let legs = legs_of(alloc, names.as_slice(), values.databases.as_slice())?;
    let classes = classes_of(alloc, &values, names.as_slice())?;
    Ok(RouteParts {
        targets: values.targets,
        groups,
        databases,
        legs,
        classes,
        pool: values.pool,
        limits: values.limits,
        indexes: values.indexes,
        schemas: values.schemas,
        users: values.users,
        rules: values.rules,
        cache_records: values.cache.records,
        cache_record_bytes: values.cache.record_bytes,
    })
}
