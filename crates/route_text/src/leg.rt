//! The legs of a route, database by database.

ghost use Rattle.std.specs.Prelude.{◌≡◌, ◌+◌, ◌<◌, ◌^◌, ◌++◌, ◌≤◌, map, length, IfOk, OnOk};
ghost use Rattle.std.specs.List.{range_with_len, AllByRecursion};
ghost use Rattle.route_text.specs.RouteOf.{leg_of, legs_from, databases_from};

use crate::route::place_of;
use crate::{DatabaseValues, LegValues};
use route_config::{Database, RouteLeg};
use std::alloc::Global;
use z_types::{List, Memory, Text, copy};

/// Puts the legs of the database of a place at the end of others.
fn push_legs(
    alloc: Global,
    legs: &mut List<RouteLeg>,
    classes: &[Text],
    database: u32,
    values: &[LegValues],
) -> Result<(), Memory>
    requires { length classes.now < 2 ^ 32 }
    ensures { OnOk result (legs.new ≡ legs.old ++ map (leg_of classes.now database) values.now) }
{
    for leg in values {
        legs.push(RouteLeg {
            database,
            class: place_of(classes, leg.via.as_slice()),
            databases: copy(&leg.databases)?,
        })?;
    }
    Ok(())
}

/// The legs of all databases.
pub fn legs_of(
    alloc: Global,
    classes: &[Text],
    databases: &[DatabaseValues],
) -> Result<List<RouteLeg>, Memory>
    requires classes { length classes.now < 2 ^ 32 }
    requires databases { length databases.now < 2 ^ 32 }
    ensures { IfOk result (λ legs. legs ≡ legs_from classes.now 0 databases.now) }
{
    let mut legs = List::new(alloc);
    for (place, database) in databases.iter().enumerate() {
        push_legs(
            alloc,
            &mut legs,
            classes,
            place as u32,
            database.legs.as_slice(),
        )?;
    }
    Ok(legs)
}

/// Places in a row, `count` of them, from `first` on.
fn places_from(alloc: Global, first: u32, count: usize) -> Result<List<u32>, Memory>
    requires { first + count < 2 ^ 32 }
    ensures { IfOk result (λ places. places ≡ range_with_len first count) }
{
    let mut places = List::new(alloc);
    for place in 0..count {
        places.push(first + place as u32)?;
    }
    Ok(places)
}

/// The virtual databases, whose legs have their places in order.
pub fn databases_of(alloc: Global, values: &[DatabaseValues]) -> Result<List<Database>, Memory>
    requires few { length values.now ≤ 64 }
    requires few_legs { AllByRecursion (λ database. length database.legs ≤ 16) values.now }
    ensures { IfOk result (λ databases. databases ≡ databases_from 0 values.now) }
{
    let mut databases = List::new(alloc);
    let mut first = 0u32;
    for database in values {
        let count = database.legs.len();
        databases.push(Database {
            name: copy(&database.name)?,
            hide_errors: database.hide_errors,
            legs: places_from(alloc, first, count)?,
        })?;
        first += count as u32;
    }
    Ok(databases)
}
