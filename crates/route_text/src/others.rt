//! Keys that a table has no rule for.

ghost use Rattle.std.specs.Prelude.{◌≡◌, map, string_bytes};
ghost use Rattle.std.specs.Option.{option_map};
ghost use Rattle.toml.specs.View.{table_view};
ghost use Rattle.route_text.specs.Refusal.{is_key, least, others, of_others};
ghost use Rattle.route_text.specs.Reads.{Refuses};

use crate::RouteFault;
use crate::path::key_path;
use std::alloc::Global;
use toml::Table;

/// Goes on where a table has no other keys than these.
pub fn no_others(
    alloc: Global,
    path: &[u8],
    table: &Table,
    known: &[&str],
) -> Result<(), RouteFault>
    ensures { Refuses (of_others (map (λ key. key.now) known.now) path.now (table_view table.now))
        result }
{
    match least_other(table, known) {
        Some(name) => Err(RouteFault::Unknown(key_path(alloc, path, name.as_bytes())?)),
        None => Ok(()),
    }
}

/// The least name in a table that is none of the keys: its names come in the order of their octets.
fn least_other<'a>(table: &'a Table, known: &[&str]) -> Option<&'a String>
    ensures { option_map (λ name. string_bytes name.now) result
        ≡ least (others (map (λ key. key.now) known.now) (table_view table.now)) }
{
    table.keys().find(|name| !is_key(known, name.as_bytes()))
}

fn is_key(known: &[&str], name: &[u8]) -> bool
    ensures { result ≡ is_key (map (λ key. key.now) known.now) name.now }
{
    known.iter().any(|key| name == key.as_bytes())
}
