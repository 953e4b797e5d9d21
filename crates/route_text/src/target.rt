//! `target`: where searches can go.

ghost use Rattle.route_text.specs.Kinds.{Table as TableKind};
ghost use Rattle.route_text.specs.Keys.{target_keys};
ghost use Rattle.route_text.specs.Values.{target_in};

use crate::entry::Entry;
use crate::key::{required_address, required_text};
use crate::kind::table_in;
use crate::others::no_others;
use crate::{RouteFault, TextRule};
use route_config::Target;
use std::alloc::Global;
use toml::Value;

impl Entry for Target {
    ghost kind = { TableKind target_keys };

    ghost found = { target_in };

    #[tactic(auto, unfolding(crate::specs::Keys::target_keys, crate::specs::Values::target_in))]
    fn read(alloc: Global, path: &[u8], table: &Value) -> Result<Target, RouteFault> {
        let members = table_in(alloc, path, table)?;
        let name = required_text(alloc, path, table, "name", TextRule::Name)?;
        let address = required_address(alloc, path, table, "address")?;
        no_others(alloc, path, members, &["name", "address"])?;
        Ok(Target { name, address })
    }
}
