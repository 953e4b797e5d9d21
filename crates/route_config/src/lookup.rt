//! What stands at the places of a route.

ghost use Rattle.std.specs.Prelude.{◌≡◌, IfOk};
ghost use Rattle.std.specs.Option.{option_copied};
ghost use Rattle.route_config.specs.Lookup.{database_named, first_address, target_names};

use crate::{Database, Route};
use std::alloc::Global;
use z_types::{Address, List, Memory, Text, copy};

/// The virtual database of a name, in any case of ASCII letters.
pub fn database_named<'a>(route: &'a Route, name: &[u8]) -> Option<&'a Database>
    ensures { option_copied result ≡ database_named route.now name.now }
{
    route.parts().databases.as_slice().iter().find(|database| database
        .name
        .as_slice()
        .eq_ignore_ascii_case(name))
}

/// The address of the first member of the class at a place.
pub fn first_address(route: &Route, class: u32) -> Option<&Address>
    ensures { option_copied result ≡ first_address route.now class }
{
    route.parts().classes.get(class as usize)?.addresses.get(0)
}

/// The names of the targets, in order.
pub fn target_names(alloc: Global, route: &Route) -> Result<List<Text>, Memory>
    ensures { IfOk result (λ names. names ≡ target_names route.now) }
{
    let mut names = List::new(alloc);
    for target in route.parts().targets.as_slice() {
        names.push(copy(&target.name)?)?;
    }
    Ok(names)
}
