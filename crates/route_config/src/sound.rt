//! Whether the numbers, sizes and places of a route are sound.

ghost use Rattle.std.specs.Prelude.{◌↔◌, ◌<◌, IsTrue, All};
ghost use Rattle.route_config.specs.Sound.{
  AllBelow,
  AreCacheNumbers,
  AreLimits,
  ArePoolNumbers,
  IsSound,
  KeepsPlaces,
  KeepsRules,
  KeepsSizes,
};
ghost use Rattle.route_config.specs.Rules.{AreDatabases, NameDatabases, NameUsers};

use crate::names::is_from;
use crate::rules::{names_database, names_user};
use crate::{Database, Group, PoolNumbers, RouteLeg, RouteParts, Rule, User};
use z_types::{Limits, Text};

impl RouteParts {
    /// Whether a route may be of these parts.
    pub fn are_sound(&self) -> bool
        ensures { IsTrue result ↔ IsSound self.now }
    {
        self.keeps_places()
            && self.keeps_sizes()
            && self.keeps_items()
            && are_pool_numbers(&self.pool)
            && are_limits(&self.limits)
            && self.keeps_rules()
            && self.are_cache_numbers()
    }

    fn keeps_places(&self) -> bool
        ensures { IsTrue result ↔ KeepsPlaces self.now }
    {
        have_members(self.targets.len(), self.groups.as_slice())
            && have_legs(self.legs.len(), self.databases.as_slice())
            && are_of(self.databases.len(), self.legs.as_slice())
            && go_to(self.classes.len(), self.legs.as_slice())
    }

    fn keeps_sizes(&self) -> bool
        ensures { IsTrue result ↔ KeepsSizes self.now }
    {
        is_from(1, 64, self.targets.len())
            && is_from(0, 64, self.groups.len())
            && is_from(1, 64, self.databases.len())
            && is_from(0, 64, self.indexes.len())
            && is_from(1, 16, self.schemas.len())
            && is_from(0, 1000, self.users.len())
            && is_from(0, 1000, self.rules.len())
    }

    fn keeps_rules(&self) -> bool
        ensures { IsTrue result ↔ KeepsRules self.now }
    {
        are_for_users(self.users.as_slice(), self.rules.as_slice())
            && are_for_databases(self.databases.as_slice(), self.rules.as_slice())
    }

    fn are_cache_numbers(&self) -> bool
        ensures { IsTrue result ↔ AreCacheNumbers self.now }
    {
        is_from(0, 10000, self.cache_records as usize)
            && is_from(1, 65536, self.cache_record_bytes as usize)
    }
}

fn are_below(count: usize, places: &[u32]) -> bool
    ensures { IsTrue result ↔ AllBelow count places.now }
{
    places.iter().all(|place| (*place as usize) < count)
}

fn have_members(targets: usize, groups: &[Group]) -> bool
    ensures { IsTrue result ↔ All (λ group. AllBelow targets group.targets) groups.now }
{
    groups
        .iter()
        .all(|group| are_below(targets, group.targets.as_slice()))
}

fn have_legs(legs: usize, databases: &[Database]) -> bool
    ensures { IsTrue result ↔ All (λ database. AllBelow legs database.legs) databases.now }
{
    databases
        .iter()
        .all(|database| are_below(legs, database.legs.as_slice()))
}

fn are_of(databases: usize, legs: &[RouteLeg]) -> bool
    ensures { IsTrue result ↔ All (λ leg. leg.database < databases) legs.now }
{
    legs.iter().all(|leg| (leg.database as usize) < databases)
}

fn go_to(classes: usize, legs: &[RouteLeg]) -> bool
    ensures { IsTrue result ↔ All (λ leg. leg.class < classes) legs.now }
{
    legs.iter().all(|leg| (leg.class as usize) < classes)
}

fn are_pool_numbers(pool: &PoolNumbers) -> bool
    ensures { IsTrue result ↔ ArePoolNumbers pool.now }
{
    is_from(1, 1000, pool.max_sessions as usize)
        && is_from(1, 100, pool.sets_max as usize)
        && is_from(1, 86400, pool.session_ttl as usize)
        && is_from(1, 86400, pool.set_ttl as usize)
        && is_from(0, 10, pool.repeats as usize)
        && is_from(1, 1000000, pool.patience as usize)
        && pool.set_ttl <= pool.session_ttl
}

fn are_limits(limits: &Limits) -> bool
    ensures { IsTrue result ↔ AreLimits limits.now }
{
    is_from(1, 1000000, limits.units as usize)
        && is_from(1, 1000000, limits.searches as usize)
        && is_from(1, 1000000, limits.records as usize)
        && is_from(1, 1000, limits.sets as usize)
}

fn are_for_users(users: &[User], rules: &[Rule]) -> bool
    ensures { IsTrue result ↔ NameUsers users.now rules.now }
{
    rules
        .iter()
        .all(|rule| names_user(users, rule.user.as_slice()))
}

fn are_databases(databases: &[Database], named: &[Text]) -> bool
    ensures { IsTrue result ↔ AreDatabases databases.now named.now }
{
    named
        .iter()
        .all(|one| names_database(databases, one.as_slice()))
}

fn are_for_databases(databases: &[Database], rules: &[Rule]) -> bool
    ensures { IsTrue result ↔ NameDatabases databases.now rules.now }
{
    rules
        .iter()
        .all(|rule| are_databases(databases, rule.databases.as_slice()))
}
