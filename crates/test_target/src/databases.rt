//! The databases of a test target.

ghost use Rattle.std.specs.Prelude.{◌≡◌, ◌≤◌, IfOk, IfSome, length};
ghost use Rattle.std.specs.Option.{option_copied};
ghost use Rattle.test_target.specs.Databases.{size_of, missing_name};
ghost use Rattle.test_target.specs.Searches.{database_fault};

use std::alloc::Global;
use z_types::{Condition, Diag, List, Memory, Text, copy};

/// The most records that a database of a test target has.
pub(crate) const MOST_IN_DATABASE: u32 = 99;

/// How many records the database of a name has, or `None` where there is no such database.
pub(crate) fn size_of(target: u32, name: &Text) -> Option<u32>
    ensures value { result ≡ size_of target name.now }
    ensures bound { IfSome result (λ size. size ≤ MOST_IN_DATABASE) }
    ensures short { IfSome result (λ size. length name.now ≤ 7) }
{
    let name = name.as_slice();
    if name == b"Default".as_slice() {
        Some(20 + target % 80)
    } else if name == b"Small".as_slice() {
        Some(3)
    } else if name == b"Empty".as_slice() {
        Some(0)
    } else {
        None
    }
}

/// The first name of no database.
fn find_missing(target: u32, names: &List<Text>) -> Option<&Text>
    ensures { option_copied result ≡ missing_name target names.now }
{
    let mut names = names.as_slice().iter();
    names.find(|name| size_of(target, name).is_none())
}

/// The diagnostic of the first name of no database, if there is one.
pub(crate) fn database_fault(
    alloc: Global,
    target: u32,
    names: &List<Text>,
) -> Result<Option<Diag>, Memory>
    ensures { IfOk result (λ fault. fault ≡ database_fault target names.now) }
{
    match find_missing(target, names) {
        Some(name) => Ok(Some(Diag::bib1(alloc, Condition::DatabaseDoesNotExist, copy(name)?)?)),
        None => Ok(None),
    }
}
