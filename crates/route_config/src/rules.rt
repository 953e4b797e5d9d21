//! Whom and what an access rule names.

ghost use Rattle.std.specs.Prelude.{◌≡◌, IfOk, map};
ghost use Rattle.std.specs.List.{list_any};
ghost use Rattle.std.specs.Str.{str_eq_ignore_ascii_case};
ghost use Rattle.z_types.specs.Same.{is_same};
ghost use Rattle.route_config.specs.Rules.{
  coverings,
  covers,
  has_database,
  is_for_database,
  is_for_user,
  names_database,
  names_user,
};

use crate::{Database, Rule, User};
use std::alloc::Global;
use z_types::{List, Memory};

/// What a rule calls a client that has not logged in.
pub const ANONYMOUS: &[u8] = b"anonymous";

/// What a rule calls all users, or all databases.
pub const EVERY: &[u8] = b"*";

/// Whether what a rule names as its user stands for this one: it is the same name, or `*`.
pub fn is_for_user(named: &[u8], user: &[u8]) -> bool
    ensures { result ≡ is_for_user named.now user.now }
{
    named == EVERY || named == user
}

/// Whether what a rule names as a database stands for this one: it is the same name in any case of
/// ASCII letters, or `*`.
pub fn is_for_database(named: &[u8], database: &[u8]) -> bool
    ensures { result ≡ is_for_database named.now database.now }
{
    named == EVERY || named.eq_ignore_ascii_case(database)
}

/// Whether a rule may name this as its user: a user, `anonymous` or `*`.
pub(crate) fn names_user(users: &[User], named: &[u8]) -> bool
    ensures { result ≡ names_user users.now named.now }
{
    named == EVERY || named == ANONYMOUS || has_user(users, named)
}

fn has_user(users: &[User], named: &[u8]) -> bool
    ensures { result ≡ list_any (λ user. is_same named.now user.name) users.now }
{
    users.iter().any(|user| named == user.name.as_slice())
}

/// Whether a rule may name this as a database: a virtual database or `*`.
pub(crate) fn names_database(databases: &[Database], named: &[u8]) -> bool
    ensures { result ≡ names_database databases.now named.now }
{
    named == EVERY || has_database(databases, named)
}

fn has_database(databases: &[Database], named: &[u8]) -> bool
    ensures { result ≡ has_database databases.now named.now }
{
    databases.iter().any(|database| named.eq_ignore_ascii_case(database.name.as_slice()))
}

/// Whether a rule is for a database.
fn covers(rule: &Rule, database: &[u8]) -> bool
    ensures { result ≡ covers database.now rule.now }
{
    rule.databases
        .as_slice()
        .iter()
        .any(|one| is_for_database(one.as_slice(), database))
}

/// Which rules are for a database, rule by rule.
fn covering(alloc: Global, rules: &[Rule], database: &[u8]) -> Result<List<bool>, Memory>
    ensures { IfOk result (λ list. list ≡ map (covers database.now) rules.now) }
{
    let mut list = List::new(alloc);
    for rule in rules {
        list.push(covers(rule, database))?;
    }
    Ok(list)
}

/// The same for each database.
pub(crate) fn coverings(
    alloc: Global,
    databases: &[Database],
    rules: &[Rule],
) -> Result<List<List<bool>>, Memory>
    ensures { IfOk result (λ lists. lists ≡ coverings databases.now rules.now) }
{
    let mut lists = List::new(alloc);
    for database in databases {
        lists.push(covering(alloc, rules, database.name.as_slice())?)?;
    }
    Ok(lists)
}
