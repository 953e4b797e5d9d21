//! Where the record of a position of a result set stands.

ghost use Rattle.std.specs.Prelude.{◌≡◌, ◌-◌, ◌<◌, ◌≤◌, ◌++◌, [], ◌∷◌, IfOk, IfSome, OnOk, length, slice_get};
ghost use Rattle.std.specs.List.{flat_map};
ghost use Rattle.test_target.specs.Places.{places, places_of, of_database, marked};

use crate::databases::{MOST_IN_DATABASE, size_of};
use crate::hits::found;
use std::alloc::Global;
use z_types::{List, Memory, RpnQuery, Text, copy};

/// A record of a database of a test target.
#[derive(Drop)]
pub(crate) struct Location {
    /// The database's name.
    pub(crate) name: Text,
    /// The record's number in it, from 1.
    pub(crate) number: u32,
}

/// The record at a position, counted from 1, of what a query finds.
pub(crate) fn place_at(
    alloc: Global,
    target: u32,
    names: &List<Text>,
    query: &RpnQuery,
    position: u32,
) -> Result<Option<Location>, Memory>
    ensures place { IfOk result (λ place. place
        ≡ slice_get (places target (record { dbs = names.now; query = query.now })) (position - 1)) }
    ensures short { IfOk result (λ place. IfSome place (λ p. length p.name ≤ 7)) }
{
    let found = found(alloc, target, &query.root)?;
    find_place(
        alloc,
        target,
        found.as_slice(),
        names,
        position.saturating_sub(1),
    )
}

/// The record that has `before` others found before it, where the records that are found in any
/// database are marked.
fn find_place(
    alloc: Global,
    target: u32,
    found: &[bool],
    names: &List<Text>,
    before: u32,
) -> Result<Option<Location>, Memory>
    requires { length found.now ≡ MOST_IN_DATABASE }
    ensures place { IfOk result (λ place. place
        ≡ slice_get (flat_map (places_of target found.now) names.now) before) }
    ensures short { IfOk result (λ place. IfSome place (λ p. length p.name ≤ 7)) }
{
    let mut left = before as usize;
    for name in names.as_slice() {
        let numbers = numbers_in(alloc, target, found, name)?;
        if left < numbers.len() {
            let number = numbers[left];
            return Ok(Some(Location {
                name: copy(name)?,
                number,
            }));
        }
        left -= numbers.len();
    }
    Ok(None)
}

/// The numbers of the records of a database that are marked.
fn numbers_in(alloc: Global, target: u32, found: &[bool], name: &Text) -> Result<Vec<u32>, Memory>
    requires { length found.now ≡ MOST_IN_DATABASE }
    ensures numbers { IfOk result (λ numbers. of_database name.now numbers.items
        ≡ places_of target found.now name.now) }
    ensures short { IfOk result
        (λ numbers. 0 < length numbers.items → length name.now ≤ 7) }
{
    match size_of(target, name) {
        Some(size) => numbers(alloc, &found[..size as usize]),
        None => Ok(Vec::new(alloc)),
    }
}

/// The numbers of the records that are marked, from 1.
fn numbers(alloc: Global, found: &[bool]) -> Result<Vec<u32>, Memory>
    requires { length found.now ≤ MOST_IN_DATABASE }
    ensures { IfOk result (λ numbers. numbers.items ≡ marked 1 found.now) }
{
    let mut numbers = Vec::new(alloc);
    let mut number = 1;
    for is_found in found {
        put_marked(&mut numbers, number, *is_found)?;
        number += 1;
    }
    Ok(numbers)
}

/// Puts a number behind others where it is marked.
fn put_marked(numbers: &mut Vec<u32>, number: u32, is_found: bool) -> Result<(), Memory>
    ensures { OnOk result
        (numbers.new.items ≡ numbers.old.items ++ marked number (is_found ∷ [])) }
{
    if is_found {
        numbers.push(number)?;
    }
    Ok(())
}
