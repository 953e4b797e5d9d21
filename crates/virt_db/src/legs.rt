//! The databases that names stand for, and their legs.

ghost use Rattle.std.specs.Prelude.{◌≡◌, ℕ, List, ◌∷◌, [], ◌++◌, not, find, option_map, IfOk, OnOk, is_none};
ghost use Rattle.std.specs.Option.{option_copied};
ghost use Rattle.route_config.specs.Lookup.{database_named};
ghost use Rattle.virt_db.specs.declared.fault.DbFault.TheVariants.{Unknown};
ghost use Rattle.virt_db.specs.Fault.{IsOrMemory};
ghost use Rattle.virt_db.specs.Legs.{distinct, fault_among, few_legs, first_unknown, legs_among};
ghost use Rattle.virt_db.specs.Names.{AreDatabasesOf, is_named_among, HasNames};

use crate::DbFault;
use route_config::{Route, database_named};
use std::alloc::Global;
use std::collections::BTreeSet;
use z_types::{List, MOST_DATABASES, MOST_LEGS, Memory, Text, copy};

/// The virtual databases of names in the order named: of names that differ in the case of ASCII
/// letters alone the first stands for all. It fails with `Unknown` of the empty text where nothing
/// is named, then with `TooMany` where more than 16 databases are, then with `Unknown` of the first
/// name that is no virtual database. For n names of m octets it takes m log n steps.
pub fn databases_of(alloc: Global, route: &Route, names: &List<Text>) -> Result<List<Text>, DbFault>
    ensures { AreDatabasesOf route.now names.now result }
{
    let named = distinct_names(alloc, names.as_slice())?;
    match fault_among(alloc, route, named.as_slice())? {
        Some(fault) => {
            drop(named);
            Err(fault)
        }
        None => Ok(named),
    }
}

/// The places in the route of the legs of virtual databases, in the order of these; each is named
/// once. It fails with `TooMany` where there are more than 16 legs.
pub fn legs_of(alloc: Global, route: &Route, databases: &List<Text>) -> Result<List<u32>, DbFault>
    ensures { IsOrMemory (few_legs (legs_among route.now databases.now)) result }
{
    test_legs(legs_among(alloc, route, databases.as_slice())?)
}

/// The names in order, one that was named before left out.
fn distinct_names(alloc: Global, names: &[Text]) -> Result<List<Text>, Memory>
    ensures { IfOk result (λ list. list ≡ distinct names.now) }
{
    let mut seen = BTreeSet::new(alloc);
    let mut list = List::new(alloc);
    for name in names {
        if see(alloc, &mut seen, name)? {
            list.push(copy(name)?)?;
        }
    }
    Ok(list)
}

/// Puts a name into the set of those that were seen, and says whether it is new there.
fn see(alloc: Global, seen: &mut BTreeSet<Vec<u8>>, name: &Text) -> Result<bool, Memory>
    ensures new { (names : List (List ℕ)) → HasNames seen.old names
        → IfOk result (λ new. new ≡ not (is_named_among name.now names)) }
    ensures seen { (names : List (List ℕ)) → HasNames seen.old names
        → OnOk result (HasNames seen.new (names ++ name.now ∷ [])) }
{
    let lower = name.as_slice().to_ascii_lowercase(alloc)?;
    Ok(seen.insert(lower)?)
}

/// Why names of which each differs from the others are no databases.
fn fault_among(alloc: Global, route: &Route, names: &[Text]) -> Result<Option<DbFault>, Memory>
    ensures { IfOk result (λ fault. fault ≡ fault_among route.now names.now) }
{
    let count = names.len() as u64;
    if count == 0 {
        Ok(Some(DbFault::Unknown(Text::new(alloc))))
    } else if count > MOST_DATABASES as u64 {
        Ok(Some(DbFault::TooMany(count)))
    } else {
        unknown_among(route, names)
    }
}

/// A fault where one of the names is no virtual database.
fn unknown_among(route: &Route, names: &[Text]) -> Result<Option<DbFault>, Memory>
    ensures { IfOk result (λ fault. fault
        ≡ option_map Unknown (first_unknown route.now names.now)) }
{
    match unknown_name(route, names) {
        Some(name) => Ok(Some(DbFault::Unknown(copy(name)?))),
        None => Ok(None),
    }
}

/// The first name that is no virtual database.
fn unknown_name<'a>(route: &Route, names: &'a [Text]) -> Option<&'a Text>
    ensures { option_copied result ≡ first_unknown route.now names.now }
{
    names
        .iter()
        .find(|name| database_named(route, name.as_slice()).is_none())
}

/// The legs of the virtual databases of these names, in the order named.
fn legs_among(alloc: Global, route: &Route, names: &[Text]) -> Result<List<u32>, Memory>
    ensures { IfOk result (λ legs. legs ≡ legs_among route.now names.now) }
{
    let mut legs = List::new(alloc);
    for name in names {
        if let Some(database) = database_named(route, name.as_slice()) {
            append(&mut legs, database.legs.as_slice())?;
        }
    }
    Ok(legs)
}

/// Puts legs behind others.
fn append(legs: &mut List<u32>, more: &[u32]) -> Result<(), Memory>
    ensures { OnOk result (legs.new ≡ legs.old ++ more.now) }
{
    for leg in more {
        legs.push(*leg)?;
    }
    Ok(())
}

/// Tests that legs are not too many.
fn test_legs(legs: List<u32>) -> Result<List<u32>, DbFault>
    ensures { result ≡ few_legs legs }
{
    let count = legs.len() as u64;
    if count > MOST_LEGS as u64 {
        Err(DbFault::TooMany(count))
    } else {
        Ok(legs)
    }
}
