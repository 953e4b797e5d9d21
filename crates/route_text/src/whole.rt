//! What a configuration is refused for as a whole.

ghost use Rattle.std.specs.Prelude.{◌≡◌, map, IfOk};
ghost use Rattle.route_text.specs.Whole.{
  member_names,
  no_such_database,
  no_such_target,
  no_such_user,
  of_whole,
  ruled_databases,
  ruled_users,
  twice,
  vias,
};
ghost use Rattle.route_text.specs.Reads.{Refuses};

use crate::names::{Named, again, names_of, no_database, no_user, push_names, stranger};
use crate::{RouteFault, Values};
use std::alloc::Global;
use z_types::{List, Memory, Text, copy};

/// Goes on where the names are all different, all legs, groups and rules name what there is, and
/// result sets are not kept longer than their sessions.
#[tactic(auto, unfolding(crate::specs::Whole::of_whole))]
pub fn check_whole(alloc: Global, values: &Values) -> Result<(), RouteFault>
    ensures { Refuses (of_whole values.now) result }
{
    let targets = names_of(alloc, values.targets.as_slice())?;
    let mut both = names_of(alloc, values.targets.as_slice())?;
    push_names(alloc, &mut both, values.groups.as_slice())?;
    all_differ(false, both.as_slice())?;
    differ_by_name(alloc, true, values.databases.as_slice())?;
    differ_by_name(alloc, true, values.indexes.as_slice())?;
    differ_by_name(alloc, false, values.schemas.as_slice())?;
    differ_by_name(alloc, false, values.users.as_slice())?;
    differ_by_name(alloc, false, values.rules.as_slice())?;
    are_targets(targets.as_slice(), member_names(alloc, values)?.as_slice())?;
    are_targets(both.as_slice(), vias(alloc, values)?.as_slice())?;
    let users = names_of(alloc, values.users.as_slice())?;
    have_users(users.as_slice(), ruled_users(alloc, values)?.as_slice())?;
    let databases = names_of(alloc, values.databases.as_slice())?;
    have_databases(
        databases.as_slice(),
        ruled_databases(alloc, values)?.as_slice(),
    )?;
    if values.pool.set_ttl <= values.pool.session_ttl {
        Ok(())
    } else {
        Err(RouteFault::TtlOrder)
    }
}

/// Goes on where no name is the same as one before it.
fn all_differ(ignore_case: bool, names: &[Text]) -> Result<(), RouteFault>
    ensures { Refuses (twice ignore_case names.now) result }
{
    match again(ignore_case, names) {
        Some(name) => Err(RouteFault::Twice(copy(name)?)),
        None => Ok(()),
    }
}

/// Goes on where no thing has the name of one before it.
fn differ_by_name<T: Named>(
    alloc: Global,
    ignore_case: bool,
    things: &[T],
) -> Result<(), RouteFault>
    ensures { Refuses (twice ignore_case (map T.named things.now)) result }
{
    all_differ(ignore_case, names_of(alloc, things)?.as_slice())
}

/// Goes on where each name is one of the known.
fn are_targets(known: &[Text], names: &[Text]) -> Result<(), RouteFault>
    ensures { Refuses (no_such_target known.now names.now) result }
{
    match stranger(known, names) {
        Some(name) => Err(RouteFault::NoSuchTarget(copy(name)?)),
        None => Ok(()),
    }
}

/// Goes on where each rule is for a user, `anonymous` or `*`.
fn have_users(users: &[Text], names: &[Text]) -> Result<(), RouteFault>
    ensures { Refuses (no_such_user users.now names.now) result }
{
    match no_user(users, names) {
        Some(name) => Err(RouteFault::NoSuchUser(copy(name)?)),
        None => Ok(()),
    }
}

/// Goes on where each rule is for virtual databases, in any case of letters, or `*`.
fn have_databases(databases: &[Text], names: &[Text]) -> Result<(), RouteFault>
    ensures { Refuses (no_such_database databases.now names.now) result }
{
    match no_database(databases, names) {
        Some(name) => Err(RouteFault::NoSuchDatabase(copy(name)?)),
        None => Ok(()),
    }
}

/// Whom rules are for.
fn ruled_users(alloc: Global, values: &Values) -> Result<List<Text>, Memory>
    ensures { IfOk result (λ names. names ≡ ruled_users values.now) }
{
    let mut names = List::new(alloc);
    for rule in values.rules.as_slice() {
        names.push(copy(&rule.user)?)?;
    }
    Ok(names)
}

/// The databases that rules are for.
fn ruled_databases(alloc: Global, values: &Values) -> Result<List<Text>, Memory>
    ensures { IfOk result (λ names. names ≡ ruled_databases values.now) }
{
    let mut names = List::new(alloc);
    for rule in values.rules.as_slice() {
        push_names(alloc, &mut names, rule.databases.as_slice())?;
    }
    Ok(names)
}

/// The members of all groups.
fn member_names(alloc: Global, values: &Values) -> Result<List<Text>, Memory>
    ensures { IfOk result (λ names. names ≡ member_names values.now) }
{
    let mut names = List::new(alloc);
    for group in values.groups.as_slice() {
        push_names(alloc, &mut names, group.targets.as_slice())?;
    }
    Ok(names)
}

/// What legs go to.
pub fn vias(alloc: Global, values: &Values) -> Result<List<Text>, Memory>
    ensures { IfOk result (λ names. names ≡ vias values.now) }
{
    let mut names = List::new(alloc);
    for database in values.databases.as_slice() {
        push_names(alloc, &mut names, database.legs.as_slice())?;
    }
    Ok(names)
}
