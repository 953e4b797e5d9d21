//! A client's result sets by their names.

ghost use Rattle.std.specs.Prelude.{◌≡◌, ◌≤◌, [], ◌∷◌, ◌++◌, option_map, not, OnOk, OnErr, vec_len, vec_capacity};
ghost use Rattle.std.specs.List.{position};
ghost use Rattle.std.specs.Option.{option_copied};
ghost use Rattle.z_types.specs.Same.{is_same};
ghost use Rattle.z_sets.specs.Sets.{stored, without_hits, known_set_named, stored_set_named, without_set, IsStored};
ghost use Rattle.z_sets.specs.Operands.{set_among, IsLentOrMemory, others_than};

use crate::ExpandFault;
use std::alloc::Global;
use std::mem::replace;
use z_types::{KnownSet, List, Memory, Text, copy};

/// The first of the sets that has this name.
pub fn find_set<'a>(sets: &'a List<KnownSet>, name: &[u8]) -> Option<&'a KnownSet>
    ensures first { option_copied result ≡ known_set_named name.now sets.now }
    ensures named { option_map stored (option_copied result) ≡ stored_set_named name.now sets.now }
{
    set_in(sets.as_slice(), name)
}

/// The first of the sets that has this name.
fn set_in<'a>(sets: &'a [KnownSet], name: &[u8]) -> Option<&'a KnownSet>
    ensures first { option_copied result ≡ known_set_named name.now sets.now }
{
    sets.iter().find(|set| set.name.as_slice() == name)
}

/// The place of the first of the sets that has this name, counted from 0.
pub(crate) fn place_of(sets: &[KnownSet], name: &Text) -> Option<usize>
    ensures { result ≡ position (λ set. is_same set.name name.now) sets.now }
{
    sets.iter().position(|set| set.name == *name)
}

/// The set that an operand names, where it is one of these legs.
pub(crate) fn set_for<'a>(
    name: &Text,
    legs: &List<u32>,
    sets: &'a [KnownSet],
) -> Result<&'a KnownSet, ExpandFault>
    ensures { IsLentOrMemory (set_among name.now legs.now sets.now) result }
{
    match set_in(sets, name.as_slice()) {
        None => Err(ExpandFault::UnknownSet(copy(name)?)),
        Some(set) => {
            if set.legs == *legs {
                Ok(set)
            } else {
                Err(ExpandFault::OtherLegs(copy(name)?))
            }
        }
    }
}

/// Puts a set behind the others, in place of any of its name. Without memory nothing is changed.
pub fn store_set(alloc: Global, sets: &mut List<KnownSet>, set: KnownSet) -> Result<(), Memory>
    ensures ok { OnOk result (sets.new ≡ others_than set.name sets.old ++ set ∷ []) }
    ensures stored { OnOk result (IsStored set sets.old sets.new) }
    ensures err { OnErr result (sets.new ≡ sets.old) }
{
    let mut items = replace(sets, List::new(alloc)).into_vec();
    let put = store_in(&mut items, set);
    *sets = List::from_vec(items);
    put
}

/// Removes each set of this name.
pub fn remove_set(alloc: Global, sets: &mut List<KnownSet>, name: &[u8])
    ensures others { sets.new ≡ others_than name.now sets.old }
    ensures stored { without_hits sets.new ≡ without_set name.now (without_hits sets.old) }
{
    let mut items = replace(sets, List::new(alloc)).into_vec();
    remove_in(&mut items, name);
    *sets = List::from_vec(items);
}

/// `store_set` in a vector.
fn store_in(items: &mut Vec<KnownSet>, set: KnownSet) -> Result<(), Memory>
    ensures ok { OnOk result (items.new.items ≡ others_than set.name items.old.items ++ set ∷ []) }
    ensures err { OnErr result (items.new.items ≡ items.old.items) }
{
    items.reserve(1)?;
    remove_in(items, set.name.as_slice());
    match items.push(set) {
        Ok(()) => Ok(()),
        Err(_) => Err(Memory),
    }
}

/// `remove_set` in a vector, which keeps its room.
fn remove_in(items: &mut Vec<KnownSet>, name: &[u8])
    ensures others { items.new.items ≡ others_than name.now items.old.items }
    ensures shorter { vec_len items.new ≤ vec_len items.old }
    ensures room { vec_capacity items.new ≡ vec_capacity items.old }
{
    items.retain(|set| has_other_name(set, name));
}

/// Whether a set has another name.
fn has_other_name(set: &KnownSet, name: &[u8]) -> bool
    ensures { result ≡ not (is_same set.now.name name.now) }
{
    let same = set.name.as_slice() == name;
    !same
}
