//! Names of databases of a small route, one letter each.

use case_files::{Answer, NoAnswer, number_of};
use route_config::{Database, Route, RouteLeg, RouteParts};
use std::alloc::Global;
use virt_db::{DbFault, LentLeg, databases_of, leg_at, legs_of};
use z_types::{Address, List, Memory, Text};

/// Whether a call is one of these. Its answer is put at the end.
pub(crate) fn is_answered(
    alloc: Global,
    call: &str,
    words: &str,
    out: &mut Answer,
) -> Result<bool, NoAnswer> {
    match call {
        "legs_of" => put_legs(alloc, out, words)?,
        "leg_at" => put_leg_at(alloc, out, words)?,
        "db_fault" => out.print(&fault_of(words)?.number()),
        _ => return Ok(false),
    }
    Ok(true)
}

/// The places of the legs that names stand for, or why there are none.
fn put_legs(alloc: Global, out: &mut Answer, letters: &str) -> Result<(), NoAnswer> {
    let names = named(alloc, letters.as_bytes())?;
    match legs_named(alloc, &route(alloc)?, &names) {
        Ok(legs) => out.put_numbers(" ", legs.as_slice()),
        Err(DbFault::Memory) => return Err(NoAnswer::Memory),
        Err(fault) => put_fault(out, &fault),
    }
    Ok(())
}

/// The places of the legs of the databases of these names, or why there are none.
fn legs_named(alloc: Global, route: &Route, names: &List<Text>) -> Result<List<u32>, DbFault> {
    let databases = databases_of(alloc, route, names)?;
    legs_of(alloc, route, &databases)
}

/// Why there are no legs.
fn put_fault(out: &mut Answer, fault: &DbFault) {
    match fault {
        DbFault::Unknown(name) => {
            out.put("unknown ");
            out.put_quoted(name.as_slice());
        }
        DbFault::TooMany(count) => {
            out.put("too many ");
            out.print(count);
        }
        DbFault::Memory => out.put("memory"),
    }
}

/// A fault of this name.
fn fault_of(name: &str) -> Result<DbFault, NoAnswer> {
    match name {
        "memory" => Ok(DbFault::Memory),
        "too many" => Ok(DbFault::TooMany(17)),
        _ => Err(NoAnswer::Misspelt),
    }
}

/// The leg at a place, if there is one.
fn put_leg_at(alloc: Global, out: &mut Answer, words: &str) -> Result<(), NoAnswer> {
    match leg_at(&route(alloc)?, number_of(words)?) {
        Some(leg) => put_leg(out, &leg),
        None => out.put("none"),
    }
    Ok(())
}

/// The database of a leg, its class, where that is, and how many databases it asks there.
fn put_leg(out: &mut Answer, leg: &LentLeg<'_>) {
    out.put("database ");
    out.put_text(leg.database.name.as_slice());
    out.put(" class ");
    out.put_text(leg.class.name.as_slice());
    out.put(" ");
    put_address(out, leg.address);
    out.put(" databases ");
    out.print(&leg.dbs.len());
}

/// An address.
pub(crate) fn put_address(out: &mut Answer, address: &Address) {
    match address {
        Address::Test(number) => {
            out.put("test:");
            out.print(number);
        }
        Address::Tcp(..) => out.put("tcp"),
        Address::Login(..) => out.put("login"),
    }
}

/// The smallest route with three databases more: d has its one leg, t has two of its own, and m has
/// the first leg 16 times.
fn route(alloc: Global) -> Result<Route, NoAnswer> {
    let mut parts = RouteParts::smallest(alloc)?;
    for database in [0, 2, 2] {
        parts.legs.push(leg(alloc, database)?)?;
    }
    parts.databases.push(database(alloc, b"d", &[0])?)?;
    parts.databases.push(database(alloc, b"t", &[1, 2])?)?;
    parts.databases.push(database(alloc, b"m", &[0; 16])?)?;
    if parts.are_sound() {
        Ok(Route::new(alloc, parts)?)
    } else {
        Err(NoAnswer::Misspelt)
    }
}

fn leg(alloc: Global, database: u32) -> Result<RouteLeg, Memory> {
    Ok(RouteLeg {
        database,
        class: 0,
        databases: named(alloc, b"xy")?,
    })
}

fn database(alloc: Global, name: &[u8], places: &[u32]) -> Result<Database, Memory> {
    Ok(Database {
        name: Text::copy_of(alloc, name)?,
        hide_errors: false,
        legs: List::from_vec(places.to_vec(alloc)?),
    })
}

/// The names of these letters.
fn named(alloc: Global, letters: &[u8]) -> Result<List<Text>, Memory> {
    let mut names = List::new(alloc);
    for letter in letters {
        names.push(Text::copy_of(alloc, &[*letter])?)?;
    }
    Ok(names)
}
