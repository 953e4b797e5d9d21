//! `group`: targets that stand for one another.

ghost use Rattle.route_text.specs.Kinds.{Table as TableKind};
ghost use Rattle.route_text.specs.Keys.{group_keys};
ghost use Rattle.route_text.specs.Values.{group_in};

use crate::entry::Entry;
use crate::key::{required_text, required_texts};
use crate::kind::table_in;
use crate::others::no_others;
use crate::{GroupValues, RouteFault, TextRule};
use std::alloc::Global;
use toml::Value;

impl Entry for GroupValues {
    ghost kind = { TableKind group_keys };

    ghost found = { group_in };

    #[tactic(auto, unfolding(crate::specs::Keys::group_keys, crate::specs::Values::group_in))]
    fn read(alloc: Global, path: &[u8], table: &Value) -> Result<GroupValues, RouteFault> {
        let members = table_in(alloc, path, table)?;
        let name = required_text(alloc, path, table, "name", TextRule::Name)?;
        let targets = required_texts(alloc, path, table, "targets", 16, TextRule::Any)?;
        no_others(alloc, path, members, &["name", "targets"])?;
        Ok(GroupValues { name, targets })
    }
}
