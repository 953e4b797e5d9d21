//! Names in a row, and whether one is among others.

ghost use Rattle.std.specs.Prelude.{◌≡◌, ◌++◌, ℕ, List as ListOf, [], map, not, OnOk, IfOk};
ghost use Rattle.std.specs.List.{find, list_any};
ghost use Rattle.std.specs.Option.{option_copied};
ghost use Rattle.route_text.specs.Whole.{again, sameness, is_among, is_ruled_database, is_ruled_user};

use crate::{DatabaseValues, GroupValues, LegValues};
use route_config::{ANONYMOUS, EVERY, Index, Rule, Target, User};
use std::alloc::Global;
use z_types::{List, Memory, Schema, Text};

/// What has a name.
pub trait Named: Drop {
    ghost named: { Self → ListOf ℕ };

    /// Its name.
    fn name(&self) -> &[u8]
        ensures { result.now ≡ named self.now };
}

impl Named for Text {
    ghost named = { λ text. text };

    fn name(&self) -> &[u8] {
        self.as_slice()
    }
}

impl Named for Target {
    ghost named = { λ target. target.name };

    fn name(&self) -> &[u8] {
        self.name.as_slice()
    }
}

impl Named for GroupValues {
    ghost named = { λ group. group.name };

    fn name(&self) -> &[u8] {
        self.name.as_slice()
    }
}

impl Named for DatabaseValues {
    ghost named = { λ database. database.name };

    fn name(&self) -> &[u8] {
        self.name.as_slice()
    }
}

impl Named for LegValues {
    ghost named = { λ leg. leg.via };

    fn name(&self) -> &[u8] {
        self.via.as_slice()
    }
}

impl Named for Index {
    ghost named = { λ index. index.name };

    fn name(&self) -> &[u8] {
        self.name.as_slice()
    }
}

impl Named for Schema {
    ghost named = { λ schema. schema.name };

    fn name(&self) -> &[u8] {
        self.name.as_slice()
    }
}

impl Named for User {
    ghost named = { λ user. user.name };

    fn name(&self) -> &[u8] {
        self.name.as_slice()
    }
}

impl Named for Rule {
    ghost named = { λ rule. rule.name };

    fn name(&self) -> &[u8] {
        self.name.as_slice()
    }
}

/// Puts the names of things at the end of others.
pub fn push_names<T: Named>(
    alloc: Global,
    names: &mut List<Text>,
    things: &[T],
) -> Result<(), Memory>
    ensures { OnOk result (names.new ≡ names.old ++ map T.named things.now) }
{
    for thing in things {
        names.push(Text::copy_of(alloc, thing.name())?)?;
    }
    Ok(())
}

/// The names of things.
pub fn names_of<T: Named>(alloc: Global, things: &[T]) -> Result<List<Text>, Memory>
    ensures { IfOk result (λ names. names ≡ map T.named things.now) }
{
    let mut names = List::new(alloc);
    push_names(alloc, &mut names, things)?;
    Ok(names)
}

/// Whether two names are the same.
fn is_same(ignore_case: bool, one: &[u8], other: &[u8]) -> bool
    ensures { result ≡ sameness ignore_case one.now other.now }
{
    if ignore_case {
        one.eq_ignore_ascii_case(other)
    } else {
        one == other
    }
}

/// Whether a name is the same as one of the known.
pub fn is_known(ignore_case: bool, known: &[Text], name: &[u8]) -> bool
    ensures { result ≡ list_any (sameness ignore_case name.now) known.now }
{
    known
        .iter()
        .any(|other| is_same(ignore_case, name, other.as_slice()))
}

/// The first name that is the same as one before it.
pub fn again(ignore_case: bool, names: &[Text]) -> Option<&Text>
    ensures { option_copied result ≡ again (sameness ignore_case) [] names.now }
{
    for (place, name) in names.iter().enumerate() {
        if is_known(ignore_case, &names[..place], name.as_slice()) {
            return Some(name);
        }
    }
    None
}

/// The first name that is none of the known.
pub fn stranger<'a>(known: &[Text], names: &'a [Text]) -> Option<&'a Text>
    ensures { option_copied result ≡ find (λ name. not (is_among known.now name)) names.now }
{
    names
        .iter()
        .find(|name| !is_known(false, known, name.as_slice()))
}

/// The first name that no rule may have for its user.
pub fn no_user<'a>(users: &[Text], names: &'a [Text]) -> Option<&'a Text>
    ensures { option_copied result ≡ find (λ name. not (is_ruled_user users.now name)) names.now }
{
    names
        .iter()
        .find(|name| !is_ruled_user(users, name.as_slice()))
}

fn is_ruled_user(users: &[Text], name: &[u8]) -> bool
    ensures { result ≡ is_ruled_user users.now name.now }
{
    name == EVERY || name == ANONYMOUS || is_known(false, users, name)
}

/// The first name that no rule may have for a database.
pub fn no_database<'a>(databases: &[Text], names: &'a [Text]) -> Option<&'a Text>
    ensures { option_copied result
        ≡ find (λ name. not (is_ruled_database databases.now name)) names.now }
{
    names
        .iter()
        .find(|name| !is_ruled_database(databases, name.as_slice()))
}

fn is_ruled_database(databases: &[Text], name: &[u8]) -> bool
    ensures { result ≡ is_ruled_database databases.now name.now }
{
    name == EVERY || is_known(true, databases, name)
}
