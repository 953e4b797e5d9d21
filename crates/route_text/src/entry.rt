//! The items of an array.

ghost use Rattle.toml.specs.Data.{Data};
ghost use Rattle.toml.specs.View.{view, items_view};
ghost use Rattle.route_text.specs.Kinds.{Kind, Text as TextKind};
ghost use Rattle.route_text.specs.Values.{text};
ghost use Rattle.route_text.specs.Reads.{ReadsKind, ReadsItems};

use crate::kind::text_in;
use crate::path::item_path;
use crate::{RouteFault, TextRule};
use std::alloc::Global;
use toml::Value;
use z_types::{List, Text};

/// What a table is read as, by its keys.
pub trait Entry: Drop {
    ghost kind: { Kind };

    ghost found: { Data → Self };

    /// Reads the table at a path.
    fn read(alloc: Global, path: &[u8], table: &Value) -> Result<Self, RouteFault>
        ensures { ReadsKind kind found path.now (view table.now) result };
}

/// Reads each of the items of the array at a path.
pub fn entries_in<E: Entry>(
    alloc: Global,
    path: &[u8],
    items: &[Value],
) -> Result<List<E>, RouteFault>
    ensures { ReadsItems E.kind E.found path.now (items_view items.now) result }
{
    let mut entries = List::new(alloc);
    for (place, item) in items.iter().enumerate() {
        let path = item_path(alloc, path, place)?;
        let entry = E::read(alloc, path.as_slice(), item)?;
        entries.push(entry)?;
    }
    Ok(entries)
}

/// Reads each of the items of the array at a path as a text that keeps a rule.
pub fn texts_in(
    alloc: Global,
    path: &[u8],
    items: &[Value],
    rule: TextRule,
) -> Result<List<Text>, RouteFault>
    ensures { ReadsItems (TextKind rule) text path.now (items_view items.now) result }
{
    let mut texts = List::new(alloc);
    for (place, item) in items.iter().enumerate() {
        let path = item_path(alloc, path, place)?;
        let text = text_in(alloc, path.as_slice(), item, rule)?;
        texts.push(text)?;
    }
    Ok(texts)
}
