//! Whether each target, group, database, leg, class, index, schema, user and rule of a route is in its
//! ranges.

ghost use Rattle.std.specs.Prelude.{◌↔◌, IsTrue, All};
ghost use Rattle.route_config.specs.Sound.{
  HasFrom,
  IsAddress,
  IsDatabase,
  IsGroup,
  IsIndex,
  IsLeg,
  IsRule,
  IsSchema,
  IsTarget,
  IsUser,
  KeepsItems,
};

use crate::names::{is_database_name, is_from, is_index_name, is_name, is_user_name};
use crate::{Class, Database, Group, Index, RouteLeg, RouteParts, Rule, Target, User};
use z_types::{Address, MOST_NUMBER, Schema, Text};

impl RouteParts {
    /// Whether each item is in its ranges.
    pub(crate) fn keeps_items(&self) -> bool
        ensures { IsTrue result ↔ KeepsItems self.now }
    {
        are_targets(self.targets.as_slice())
            && are_groups(self.groups.as_slice())
            && are_databases(self.databases.as_slice())
            && are_legs(self.legs.as_slice())
            && are_classes(self.classes.as_slice())
            && are_indexes(self.indexes.as_slice())
            && are_schemas(self.schemas.as_slice())
            && are_users(self.users.as_slice())
            && are_rules(self.rules.as_slice())
    }
}

fn is_address(address: &Address) -> bool
    ensures { IsTrue result ↔ IsAddress address.now }
{
    match address {
        Address::Test(number) => *number <= 999_999,
        Address::Tcp(host, port) => is_from(1, 64, host.len()) && is_from(1, 65535, *port as usize),
        Address::Login(_, _) => false,
    }
}

fn are_addresses(addresses: &[Address]) -> bool
    ensures { IsTrue result ↔ All IsAddress addresses.now }
{
    addresses.iter().all(|address| is_address(address))
}

fn is_target(target: &Target) -> bool
    ensures { IsTrue result ↔ IsTarget target.now }
{
    is_name(target.name.as_slice()) && is_address(&target.address)
}

fn are_targets(targets: &[Target]) -> bool
    ensures { IsTrue result ↔ All IsTarget targets.now }
{
    targets.iter().all(|target| is_target(target))
}

fn is_group(group: &Group) -> bool
    ensures { IsTrue result ↔ IsGroup group.now }
{
    is_name(group.name.as_slice()) && is_from(1, 16, group.targets.len())
}

fn are_groups(groups: &[Group]) -> bool
    ensures { IsTrue result ↔ All IsGroup groups.now }
{
    groups.iter().all(|group| is_group(group))
}

fn is_database(database: &Database) -> bool
    ensures { IsTrue result ↔ IsDatabase database.now }
{
    is_database_name(database.name.as_slice()) && is_from(1, 16, database.legs.len())
}

fn are_databases(databases: &[Database]) -> bool
    ensures { IsTrue result ↔ All IsDatabase databases.now }
{
    databases.iter().all(|database| is_database(database))
}

fn are_texts(texts: &[Text]) -> bool
    ensures { IsTrue result ↔ All (HasFrom 1 64) texts.now }
{
    texts.iter().all(|text| is_from(1, 64, text.len()))
}

fn is_leg(leg: &RouteLeg) -> bool
    ensures { IsTrue result ↔ IsLeg leg.now }
{
    is_from(1, 16, leg.databases.len()) && are_texts(leg.databases.as_slice())
}

fn are_legs(legs: &[RouteLeg]) -> bool
    ensures { IsTrue result ↔ All IsLeg legs.now }
{
    legs.iter().all(|leg| is_leg(leg))
}

fn are_classes(classes: &[Class]) -> bool
    ensures { IsTrue result ↔ All (λ class. All IsAddress class.addresses) classes.now }
{
    classes
        .iter()
        .all(|class| are_addresses(class.addresses.as_slice()))
}

fn is_index(index: &Index) -> bool
    ensures { IsTrue result ↔ IsIndex index.now }
{
    is_index_name(index.name.as_slice()) && index.value <= MOST_NUMBER
}

fn are_indexes(indexes: &[Index]) -> bool
    ensures { IsTrue result ↔ All IsIndex indexes.now }
{
    indexes.iter().all(|index| is_index(index))
}

fn is_schema(schema: &Schema) -> bool
    ensures { IsTrue result ↔ IsSchema schema.now }
{
    is_from(1, 128, schema.name.len())
        && is_from(1, 128, schema.uri.len())
        && is_from(1, 128, schema.element.len())
}

fn are_schemas(schemas: &[Schema]) -> bool
    ensures { IsTrue result ↔ All IsSchema schemas.now }
{
    schemas.iter().all(|schema| is_schema(schema))
}

fn is_user(user: &User) -> bool
    ensures { IsTrue result ↔ IsUser user.now }
{
    is_user_name(user.name.as_slice()) && is_from(1, 64, user.password.len())
}

fn are_users(users: &[User]) -> bool
    ensures { IsTrue result ↔ All IsUser users.now }
{
    users.iter().all(|user| is_user(user))
}

fn is_rule(rule: &Rule) -> bool
    ensures { IsTrue result ↔ IsRule rule.now }
{
    is_name(rule.name.as_slice()) && is_from(1, 64, rule.databases.len())
}

fn are_rules(rules: &[Rule]) -> bool
    ensures { IsTrue result ↔ All IsRule rules.now }
{
    rules.iter().all(|rule| is_rule(rule))
}
