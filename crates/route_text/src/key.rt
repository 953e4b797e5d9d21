//! The keys of a table: one reader for each kind of value.

ghost use Rattle.std.specs.Prelude.{◌≡◌};
ghost use Rattle.toml.specs.Data.{table as table_of, no_members};
ghost use Rattle.toml.specs.View.{view};
ghost use Rattle.route_text.specs.Kinds.{required, Text as TextKind, Address as AddressKind, Number as NumberKind, Flag as FlagKind, Array as ArrayKind};
ghost use Rattle.route_text.specs.Keys.{number as number_of, flag as flag_of, empty};
ghost use Rattle.route_text.specs.Refusal.{refusal};
ghost use Rattle.route_text.specs.Values.{text, address_in, number, flag, list};
ghost use Rattle.route_text.specs.Reads.{ReadsKey, ReadsKeyOr};
ghost use Rattle.route_text.specs.Path.{key_path};

use crate::address::address_in;
use crate::entry::{Entry, entries_in, texts_in};
use crate::kind::{flag_in, items_in, number_in, text_in};
use crate::path::key_path;
use crate::{RouteFault, TextRule};
use std::alloc::Global;
use toml::{Table, Value};
use z_types::{Address, List, Text};

/// A text that has to be there and to keep a rule.
pub fn required_text(
    alloc: Global,
    path: &[u8],
    table: &Value,
    key: &str,
    rule: TextRule,
) -> Result<Text, RouteFault>
    ensures { ReadsKey required (TextKind rule) text path.now key.now (view table.now) result }
{
    let place = key_path(alloc, path, key.as_bytes())?;
    match table.get(key) {
        Some(value) => text_in(alloc, place.as_slice(), value, rule),
        None => Err(RouteFault::Missing(place)),
    }
}

/// An address that has to be there.
pub fn required_address(
    alloc: Global,
    path: &[u8],
    table: &Value,
    key: &str,
) -> Result<Address, RouteFault>
    ensures { ReadsKey required AddressKind address_in path.now key.now (view table.now) result }
{
    let place = key_path(alloc, path, key.as_bytes())?;
    match table.get(key) {
        Some(value) => address_in(alloc, place.as_slice(), value),
        None => Err(RouteFault::Missing(place)),
    }
}

/// A number from one to another that has to be there.
pub fn required_number(
    alloc: Global,
    path: &[u8],
    table: &Value,
    key: &str,
    low: u32,
    high: u32,
) -> Result<u32, RouteFault>
    ensures { ReadsKey required (NumberKind low high) number
        path.now key.now (view table.now) result }
{
    let place = key_path(alloc, path, key.as_bytes())?;
    match table.get(key) {
        Some(value) => number_in(alloc, place.as_slice(), value, low, high),
        None => Err(RouteFault::Missing(place)),
    }
}

/// A number from one to another, or its default.
pub fn number_or(
    alloc: Global,
    path: &[u8],
    table: &Value,
    key: &str,
    low: u32,
    high: u32,
    default: u32,
) -> Result<u32, RouteFault>
    ensures { ReadsKey (number_of default) (NumberKind low high) number
        path.now key.now (view table.now) result }
{
    let place = key_path(alloc, path, key.as_bytes())?;
    match table.get(key) {
        Some(value) => number_in(alloc, place.as_slice(), value, low, high),
        None => Ok(default),
    }
}

/// Whether a key is true, or its default.
pub fn flag_or(
    alloc: Global,
    path: &[u8],
    table: &Value,
    key: &str,
    default: bool,
) -> Result<bool, RouteFault>
    ensures { ReadsKey (flag_of default) FlagKind flag path.now key.now (view table.now) result }
{
    let place = key_path(alloc, path, key.as_bytes())?;
    match table.get(key) {
        Some(value) => flag_in(alloc, place.as_slice(), value),
        None => Ok(default),
    }
}

/// An array of 1 to `high` texts that has to be there; each keeps a rule.
pub fn required_texts(
    alloc: Global,
    path: &[u8],
    table: &Value,
    key: &str,
    high: usize,
    rule: TextRule,
) -> Result<List<Text>, RouteFault>
    ensures { ReadsKey required (ArrayKind 1 high (TextKind rule)) (list text)
        path.now key.now (view table.now) result }
{
    let place = key_path(alloc, path, key.as_bytes())?;
    match table.get(key) {
        Some(value) => {
            let items = items_in(alloc, place.as_slice(), value, 1, high)?;
            texts_in(alloc, place.as_slice(), items, rule)
        }
        None => Err(RouteFault::Missing(place)),
    }
}

/// An array of `low` to `high` tables that has to be there.
pub fn required_entries<E: Entry>(
    alloc: Global,
    path: &[u8],
    table: &Value,
    key: &str,
    low: usize,
    high: usize,
) -> Result<List<E>, RouteFault>
    ensures { ReadsKey required (ArrayKind low high E.kind) (list E.found)
        path.now key.now (view table.now) result }
{
    let place = key_path(alloc, path, key.as_bytes())?;
    match table.get(key) {
        Some(value) => {
            let items = items_in(alloc, place.as_slice(), value, low, high)?;
            entries_in(alloc, place.as_slice(), items)
        }
        None => Err(RouteFault::Missing(place)),
    }
}

/// An array of `low` to `high` tables, or its default.
pub fn entries_or<E: Entry>(
    alloc: Global,
    path: &[u8],
    table: &Value,
    key: &str,
    low: usize,
    high: usize,
    default: List<E>,
) -> Result<List<E>, RouteFault>
    ensures { ReadsKeyOr (ArrayKind low high E.kind) (list E.found) default
        path.now key.now (view table.now) result }
{
    let place = key_path(alloc, path, key.as_bytes())?;
    match table.get(key) {
        Some(value) => {
            let items = items_in(alloc, place.as_slice(), value, low, high)?;
            entries_in(alloc, place.as_slice(), items)
        }
        None => Ok(default),
    }
}

/// A table of keys that each have a default; where it is not there, all have.
pub fn entry_or_empty<E: Entry>(
    alloc: Global,
    path: &[u8],
    table: &Value,
    key: &str,
) -> Result<E, RouteFault>
    requires { refusal E.kind (key_path path.now key.now) (table_of no_members) ≡ None }
    ensures { ReadsKey empty E.kind E.found path.now key.now (view table.now) result }
{
    let place = key_path(alloc, path, key.as_bytes())?;
    match table.get(key) {
        Some(value) => E::read(alloc, place.as_slice(), value),
        None => E::read(alloc, place.as_slice(), &Value::Table(Table::new(alloc))),
    }
}
