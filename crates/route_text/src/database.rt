//! `database`: the virtual databases and their legs.

ghost use Rattle.route_text.specs.Kinds.{Table as TableKind};
ghost use Rattle.route_text.specs.Keys.{leg_keys, database_keys};
ghost use Rattle.route_text.specs.Values.{leg_in, database_in};

use crate::entry::Entry;
use crate::key::{flag_or, required_entries, required_text, required_texts};
use crate::kind::table_in;
use crate::others::no_others;
use crate::{DatabaseValues, LegValues, RouteFault, TextRule};
use std::alloc::Global;
use toml::Value;

impl Entry for LegValues {
    ghost kind = { TableKind leg_keys };

    ghost found = { leg_in };

    #[tactic(auto, unfolding(crate::specs::Keys::leg_keys, crate::specs::Values::leg_in))]
    fn read(alloc: Global, path: &[u8], table: &Value) -> Result<LegValues, RouteFault> {
        let members = table_in(alloc, path, table)?;
        let via = required_text(alloc, path, table, "via", TextRule::Any)?;
        let databases = required_texts(alloc, path, table, "databases", 16, TextRule::UpTo(64))?;
        no_others(alloc, path, members, &["via", "databases"])?;
        Ok(LegValues { via, databases })
    }
}

impl Entry for DatabaseValues {
    ghost kind = { TableKind database_keys };

    ghost found = { database_in };

    #[tactic(auto, unfolding(crate::specs::Keys::database_keys, crate::specs::Values::database_in))]
    fn read(alloc: Global, path: &[u8], table: &Value) -> Result<DatabaseValues, RouteFault> {
        let members = table_in(alloc, path, table)?;
        let name = required_text(alloc, path, table, "name", TextRule::DatabaseName)?;
        let hide_errors = flag_or(alloc, path, table, "hide_errors", false)?;
        let legs = required_entries(alloc, path, table, "leg", 1, 16)?;
        no_others(alloc, path, members, &["name", "hide_errors", "leg"])?;
        Ok(DatabaseValues {
            name,
            hide_errors,
            legs,
        })
    }
}
