//! The classes of a route: the targets and groups that legs go to.

ghost use Rattle.std.specs.Prelude.{◌≡◌, map, IfOk};
ghost use Rattle.std.specs.List.{find};
ghost use Rattle.std.specs.Option.{option_copied};
ghost use Rattle.z_types.specs.Same.{is_same};
ghost use Rattle.route_text.specs.RouteOf.{address_of, addresses_of, class_of};
ghost use Rattle.route_text.specs.Sizes.{HasSizes};

use crate::{GroupValues, Values};
use route_config::{Class, Members, Target};
use std::alloc::Global;
use z_types::{Address, List, Memory, Text, copy};

fn target_named<'a>(targets: &'a [Target], name: &[u8]) -> Option<&'a Target>
    ensures { option_copied result ≡ find (λ target. is_same name.now target.name) targets.now }
{
    targets.iter().find(|target| name == target.name.as_slice())
}

fn group_named<'a>(groups: &'a [GroupValues], name: &[u8]) -> Option<&'a GroupValues>
    ensures { option_copied result ≡ find (λ group. is_same name.now group.name) groups.now }
{
    groups.iter().find(|group| name == group.name.as_slice())
}

/// The address of the target of a name.
fn address_of(targets: &[Target], name: &[u8]) -> Result<Address, Memory>
    ensures { IfOk result (λ address. address ≡ address_of targets.now name.now) }
{
    match target_named(targets, name) {
        Some(target) => copy(&target.address),
        None => Ok(Address::Test(0)),
    }
}

/// The addresses of the targets of names.
fn addresses_of(alloc: Global, targets: &[Target], names: &[Text]) -> Result<List<Address>, Memory>
    ensures { IfOk result (λ addresses. addresses ≡ map (address_of targets.now) names.now) }
{
    let mut addresses = List::new(alloc);
    for name in names {
        addresses.push(address_of(targets, name.as_slice())?)?;
    }
    Ok(addresses)
}

/// The addresses of a class by its name: those of a group's members, or of the target itself.
fn addresses_named(alloc: Global, values: &Values, name: &Text) -> Result<List<Address>, Memory>
    ensures { IfOk result (λ addresses. addresses ≡ addresses_of values.now name.now) }
{
    let targets = values.targets.as_slice();
    match group_named(values.groups.as_slice(), name.as_slice()) {
        Some(group) => addresses_of(alloc, targets, group.targets.as_slice()),
        None => addresses_of(alloc, targets, &[copy(name)?]),
    }
}

/// The class of a name.
#[tactic(auto, using(crate::proofs::SizeLemmas::members))]
fn class_of(alloc: Global, values: &Values, name: &Text) -> Result<Class, Memory>
    requires sizes { HasSizes values.now }
    ensures { IfOk result (λ class. class ≡ class_of values.now name.now) }
{
    let addresses = addresses_named(alloc, values, name)?;
    Ok(Class {
        name: copy(name)?,
        addresses: Members::new(addresses),
    })
}

/// The classes of names.
pub fn classes_of(alloc: Global, values: &Values, names: &[Text]) -> Result<List<Class>, Memory>
    requires sizes { HasSizes values.now }
    ensures { IfOk result (λ classes. classes ≡ map (class_of values.now) names.now) }
{
    let mut classes = List::new(alloc);
    for name in names {
        classes.push(class_of(alloc, values, name)?)?;
    }
    Ok(classes)
}
