//! Places for names: the groups and the classes of a route.

ghost use Rattle.std.specs.Prelude.{◌≡◌, ◌<◌, ◌^◌, [], map, length, IfOk, IfSome, OnOk};
ghost use Rattle.std.specs.List.{position};
ghost use Rattle.z_types.specs.Same.{is_same};
ghost use Rattle.route_text.specs.RouteOf.{place_of, group_of, firsts, with_name};

use crate::GroupValues;
use crate::names::is_known;
use route_config::Group;
use std::alloc::Global;
use z_types::{List, Memory, Text};

/// Where a name first stands.
fn position_of(names: &[Text], name: &[u8]) -> Option<usize>
    ensures value { result ≡ position (is_same name.now) names.now }
    ensures below { IfSome result (λ place. place < length names.now) }
{
    names.iter().position(|other| name == other.as_slice())
}

/// The place of a name, and 0 where there is none.
pub fn place_of(names: &[Text], name: &[u8]) -> u32
    requires { length names.now < 2 ^ 32 }
    ensures { result ≡ place_of names.now name.now }
{
    match position_of(names, name) {
        Some(place) => place as u32,
        None => 0,
    }
}

/// The places of names.
fn places_of(alloc: Global, names: &[Text], wanted: &[Text]) -> Result<List<u32>, Memory>
    requires { length names.now < 2 ^ 32 }
    ensures { IfOk result (λ places. places ≡ map (place_of names.now) wanted.now) }
{
    let mut places = List::new(alloc);
    for name in wanted {
        places.push(place_of(names, name.as_slice()))?;
    }
    Ok(places)
}

/// The groups, whose members are the places of targets.
pub fn groups_of(
    alloc: Global,
    targets: &[Text],
    values: &[GroupValues],
) -> Result<List<Group>, Memory>
    requires { length targets.now < 2 ^ 32 }
    ensures { IfOk result (λ groups. groups ≡ map (group_of targets.now) values.now) }
{
    let mut groups = List::new(alloc);
    for group in values {
        groups.push(Group {
            name: Text::copy_of(alloc, group.name.as_slice())?,
            targets: places_of(alloc, targets, group.targets.as_slice())?,
        })?;
    }
    Ok(groups)
}

/// Puts a name at the end of others, where it is not among them.
fn push_new(alloc: Global, known: &mut List<Text>, name: &[u8]) -> Result<(), Memory>
    ensures { OnOk result (known.new ≡ with_name known.old name.now) }
{
    if is_known(false, known.as_slice(), name) {
        Ok(())
    } else {
        known.push(Text::copy_of(alloc, name)?)
    }
}

#[tactic(auto, using(crate::proofs::FirstLemmas::first_steps))]
/// Of names in order, those that come for the first time.
pub fn firsts(alloc: Global, names: &[Text]) -> Result<List<Text>, Memory>
    ensures { IfOk result (λ found. found ≡ firsts [] names.now) }
{
    let mut found = List::new(alloc);
    for name in names {
        push_new(alloc, &mut found, name.as_slice())?;
    }
    Ok(found)
}
