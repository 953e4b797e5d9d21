//! `user` and `rule`: who may search what.

ghost use Rattle.route_text.specs.Kinds.{Table as TableKind};
ghost use Rattle.route_text.specs.Keys.{user_keys, rule_keys};
ghost use Rattle.route_text.specs.Values.{user_in, rule_in};

use crate::entry::Entry;
use crate::key::{required_text, required_texts};
use crate::kind::table_in;
use crate::others::no_others;
use crate::rule::is_allow;
use crate::{RouteFault, TextRule};
use route_config::{Rule, User};
use std::alloc::Global;
use toml::Value;

impl Entry for User {
    ghost kind = { TableKind user_keys };

    ghost found = { user_in };

    #[tactic(auto, unfolding(crate::specs::Keys::user_keys, crate::specs::Values::user_in))]
    fn read(alloc: Global, path: &[u8], table: &Value) -> Result<User, RouteFault> {
        let members = table_in(alloc, path, table)?;
        let name = required_text(alloc, path, table, "name", TextRule::UserName)?;
        let password = required_text(alloc, path, table, "password", TextRule::UpTo(64))?;
        no_others(alloc, path, members, &["name", "password"])?;
        Ok(User { name, password })
    }
}

impl Entry for Rule {
    ghost kind = { TableKind rule_keys };

    ghost found = { rule_in };

    #[tactic(auto, unfolding(crate::specs::Keys::rule_keys, crate::specs::Values::rule_in))]
    fn read(alloc: Global, path: &[u8], table: &Value) -> Result<Rule, RouteFault> {
        let members = table_in(alloc, path, table)?;
        let name = required_text(alloc, path, table, "name", TextRule::Name)?;
        let effect = required_text(alloc, path, table, "effect", TextRule::Effect)?;
        let user = required_text(alloc, path, table, "user", TextRule::UpTo(64))?;
        let databases = required_texts(alloc, path, table, "databases", 64, TextRule::UpTo(64))?;
        no_others(
            alloc,
            path,
            members,
            &["name", "effect", "user", "databases"],
        )?;
        Ok(Rule {
            name,
            allow: is_allow(effect.as_slice()),
            user,
            databases,
        })
    }
}
