//! `index` and `schema`: what CQL and SRU clients can name.

ghost use Rattle.route_text.specs.Kinds.{Table as TableKind};
ghost use Rattle.route_text.specs.Keys.{index_keys, schema_keys};
ghost use Rattle.route_text.specs.Values.{index_in, schema_in};

use crate::entry::Entry;
use crate::key::{required_number, required_text};
use crate::kind::table_in;
use crate::others::no_others;
use crate::{RouteFault, TextRule};
use route_config::Index;
use std::alloc::Global;
use toml::Value;
use z_types::{MOST_NUMBER, Schema};

impl Entry for Index {
    ghost kind = { TableKind index_keys };

    ghost found = { index_in };

    #[tactic(auto, unfolding(crate::specs::Keys::index_keys, crate::specs::Values::index_in))]
    fn read(alloc: Global, path: &[u8], table: &Value) -> Result<Index, RouteFault> {
        let members = table_in(alloc, path, table)?;
        let name = required_text(alloc, path, table, "name", TextRule::IndexName)?;
        let value = required_number(alloc, path, table, "use", 0, MOST_NUMBER)?;
        no_others(alloc, path, members, &["name", "use"])?;
        Ok(Index { name, value })
    }
}

impl Entry for Schema {
    ghost kind = { TableKind schema_keys };

    ghost found = { schema_in };

    #[tactic(auto, unfolding(crate::specs::Keys::schema_keys, crate::specs::Values::schema_in))]
    fn read(alloc: Global, path: &[u8], table: &Value) -> Result<Schema, RouteFault> {
        let members = table_in(alloc, path, table)?;
        let name = required_text(alloc, path, table, "name", TextRule::UpTo(128))?;
        let uri = required_text(alloc, path, table, "uri", TextRule::UpTo(128))?;
        let element = required_text(alloc, path, table, "element", TextRule::UpTo(128))?;
        no_others(alloc, path, members, &["name", "uri", "element"])?;
        Ok(Schema { name, uri, element })
    }
}
