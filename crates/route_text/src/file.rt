//! The whole file: the values of its keys.

ghost use Rattle.std.specs.Prelude.{[]};
ghost use Rattle.toml.specs.View.{view};
ghost use Rattle.route_text.specs.Kinds.{Table as TableKind};
ghost use Rattle.route_text.specs.Keys.{top_keys};
ghost use Rattle.route_text.specs.Values.{values_in};
ghost use Rattle.route_text.specs.Reads.{ReadsKind};

use crate::key::{entries_or, entry_or_empty, required_entries};
use crate::kind::table_in;
use crate::others::no_others;
use crate::{RouteFault, Values};
use route_config::{default_indexes, default_schemas};
use std::alloc::Global;
use toml::Value;
use z_types::List;

/// The path of the top table.
const TOP: &[u8] = b"";

/// The values of a configuration's keys.
#[tactic(auto, unfolding(crate::specs::Keys::top_keys, crate::specs::Values::values_in))]
pub fn values_in(alloc: Global, file: &Value) -> Result<Values, RouteFault>
    ensures { ReadsKind (TableKind top_keys) values_in [] (view file.now) result }
{
    let members = table_in(alloc, TOP, file)?;
    let targets = required_entries(alloc, TOP, file, "target", 1, 64)?;
    let groups = entries_or(alloc, TOP, file, "group", 0, 64, List::new(alloc))?;
    let databases = required_entries(alloc, TOP, file, "database", 1, 64)?;
    let pool = entry_or_empty(alloc, TOP, file, "pool")?;
    let limits = entry_or_empty(alloc, TOP, file, "limit")?;
    let indexes = entries_or(alloc, TOP, file, "index", 0, 64, default_indexes(alloc)?)?;
    let schemas = entries_or(alloc, TOP, file, "schema", 1, 16, default_schemas(alloc)?)?;
    let users = entries_or(alloc, TOP, file, "user", 0, 1000, List::new(alloc))?;
    let rules = entries_or(alloc, TOP, file, "rule", 0, 1000, List::new(alloc))?;
    let cache = entry_or_empty(alloc, TOP, file, "cache")?;
    no_others(
        alloc,
        TOP,
        members,
        &[
            "target", "group", "database", "pool", "limit", "index", "schema", "user", "rule",
            "cache",
        ],
    )?;
    Ok(Values {
        targets,
        groups,
        databases,
        pool,
        limits,
        indexes,
        schemas,
        users,
        rules,
        cache,
    })
}
