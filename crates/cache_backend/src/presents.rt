//! The records that a Present asks for.

ghost use Rattle.std.specs.Prelude.{
  ◌≡◌,
  ◌+◌,
  ◌^◌,
  ◌<◌,
  IfOk,
  OnOk,
  OnErr,
  IfSome,
  IsSome,
  ◌∷◌,
};
ghost use Rattle.cache_backend.specs.Held.{IsHeld};
ghost use Rattle.cache_backend.specs.Known.{known_under, without};
ghost use Rattle.cache_backend.specs.Looks.{awaited_from};

use crate::Searched;
use crate::known::{known, remember};
use crate::sessions::Awaited;
use gw_outside::Began;
use record_cache::{RecordKey, Run, Store};
use std::alloc::Global;
use z_types::{Address, Ask, Item, List, Memory, Oid, SetKey, Text, World, copy};

/// The key of the record at a position.
fn record_key(
    address: &Address,
    key: &SetKey,
    position: u32,
    syntax: &Option<Oid>,
    element: &Option<Text>,
) -> Result<RecordKey, Memory>
    ensures { IfOk result (λ made. made ≡ record {
      address = address.now;
      key = key.now;
      position = position;
      syntax = syntax.now;
      element = element.now;
    }) }
{
    Ok(RecordKey {
        address: copy(address)?,
        key: copy(key)?,
        position,
        syntax: copy(syntax)?,
        element: copy(element)?,
    })
}

/// The key of the first record that is asked for of the set of a name.
pub(crate) fn first_key(
    address: &Address,
    searched: &[Searched],
    name: &Text,
    first: u32,
    syntax: &Option<Oid>,
    element: &Option<Text>,
) -> Result<RecordKey, Memory>
    requires known { IsSome (known_under searched.now name.now) }
    ensures { IfOk result (λ made. IfSome (known_under searched.now name.now)
        (λ set. made ≡ record {
          address = address.now;
          key = set;
          position = first;
          syntax = syntax.now;
          element = element.now;
        })) }
{
    match known(searched, name) {
        Some(set) => record_key(address, set, first, syntax, element),
        None => unreachable!(),
    }
}

/// What a store has for a Present.
pub(crate) enum Held {
    /// The items of a run, at least one.
    Items(List<Item>),
    /// Nothing under the key of the first record, which is given back.
    Nothing(RecordKey),
}

/// What a store has from a key on, of at most `count` records.
pub(crate) fn held_from<W: World, T: Store<W>>(
    alloc: Global,
    store: &mut T,
    key: RecordKey,
    count: u32,
) -> Result<Held, Memory>
    requires { key.position + count < 2 ^ 32 }
    ensures { IfOk result (IsHeld W.World (T.entries store.old) (T.entries store.new) key count) }
{
    let Run { items, next } = store.find_run(alloc, key, count)?;
    if items.is_empty() {
        return Ok(Held::Nothing(next));
    }
    Ok(Held::Items(items))
}

/// A run with a copy of the Present that it answers.
pub(crate) fn run_for(ask: &Ask, items: List<Item>) -> Result<Awaited, Memory>
    ensures { IfOk result (λ awaited. awaited ≡ Awaited.Run ask.now items) }
{
    let ask = copy(ask)?;
    Ok(Awaited::Run { ask, items })
}

/// What a session awaits that asks for records: these, where it was asked.
pub(crate) fn awaited_from(key: RecordKey, began: Began) -> Awaited
    ensures { result ≡ awaited_from key began }
{
    match began {
        Began::Started => Awaited::Records(key),
        Began::Failed | Began::Memory => Awaited::Beneath,
    }
}

/// Has a session wait for something else.
pub(crate) fn wait_for(awaited: &mut Awaited, next: Awaited)
    ensures { awaited.new ≡ next }
{
    *awaited = next;
}

/// Has a session wait for nothing more.
pub(crate) fn break_off(awaited: &mut Awaited)
    ensures { awaited.new ≡ Awaited.Broken }
{
    wait_for(awaited, Awaited::Broken);
}

/// Keeps the key of a search as the last one under its name.
pub(crate) fn note(searched: &mut Vec<Searched>, name: &Text, key: &SetKey) -> Result<(), Memory>
    ensures ok { OnOk result (searched.new.items
        ≡ record { name = name.now; key = key.now } ∷ without name.now searched.old.items) }
    ensures err { OnErr result (searched.new.items ≡ searched.old.items) }
{
    let (name, key) = (copy(name)?, copy(key)?);
    remember(searched, Searched { name, key })
}
