//! What two stores over one behind a lock find, keep and give in runs.

ghost use Rattle.std.specs.Prelude.{◌≡◌, IfOk};

use crate::holders::{Quiet, key_for};
use cache_locked::LockedCache;
use record_cache::{Found, Kept, RecordCache, RecordKey, Run, Store};
use std::alloc::Global;
use std::sync::Mutex;
use std::test::Fail;
use z_types::{Address, Diag, Item, Memory, Oid, Text};

/// The key of the record at a position of one set.
fn key_at(alloc: Global, position: u32) -> Result<RecordKey, Memory>
    ensures { IfOk result (λ key. key.position ≡ position) }
{
    Ok(RecordKey {
        address: Address::Test(0),
        key: key_for(alloc, 4)?,
        position,
        syntax: None,
        element: None,
    })
}

/// A diagnostic in a record's place, by which it is known.
fn item_of(alloc: Global, condition: u32) -> Result<Item, Memory> {
    Ok(Item::Surrogate(Diag {
        set: Oid::copy_of(alloc, &[1, 2, 840, 10003, 4, 1])?,
        condition,
        addinfo: Text::copy_of(alloc, b"")?,
    }))
}

/// What an item is known by.
fn condition_of(item: &Item) -> u32 {
    match item {
        Item::Surrogate(diag) => diag.condition,
        Item::Record { .. } => 0,
    }
}

/// Whether an item is kept at a position.
fn keep<T: Store<Quiet>>(
    alloc: Global,
    store: &mut T,
    position: u32,
    condition: u32,
) -> Result<bool, Memory> {
    let kept = store.keep(key_at(alloc, position)?, item_of(alloc, condition)?);
    Ok(kept == Kept::Kept)
}

/// What is found at a position.
fn find<T: Store<Quiet>>(
    alloc: Global,
    store: &mut T,
    position: u32,
) -> Result<Option<u32>, Memory> {
    match store.find(&key_at(alloc, position)?) {
        Found::Item(item) => Ok(Some(condition_of(&item))),
        Found::None => Ok(None),
        Found::Memory => Err(Memory),
    }
}

/// How many items a run has, what the last of them is known by, and where it ends.
fn run<T: Store<Quiet>>(
    alloc: Global,
    store: &mut T,
    first: u16,
    count: u16,
) -> Result<(usize, Option<u32>, u32), Memory> {
    let key = key_at(alloc, first as u32)?;
    let Run { items, next } = store.find_run(alloc, key, count as u32)?;
    let last = items.as_slice().last().map(condition_of);
    Ok((items.len(), last, next.position))
}

#[test]
fn what_one_store_keeps_the_other_finds_alone_and_in_runs(rt: HostRuntime) -> Result<(), Fail> {
    let alloc = rt.alloc();
    let cache: Mutex<RecordCache<Quiet>> = Mutex::new(RecordCache::new(alloc, 3)?);
    let mut left = LockedCache::new(&rt, &cache);
    let mut right = LockedCache::new(&rt, &cache);
    assert_eq!(rt; find(alloc, &mut right, 1)?, None);
    assert_eq!(rt; run(alloc, &mut right, 1, 9)?, (0, None, 1));
    for position in [1, 2, 4] {
        assert!(rt; keep(alloc, &mut left, position, 100 + position)?);
    }
    assert_eq!(rt; find(alloc, &mut right, 1)?, Some(101));
    assert_eq!(rt; run(alloc, &mut right, 1, 9)?, (2, Some(102), 3));
    assert_eq!(rt; run(alloc, &mut left, 1, 1)?, (1, Some(101), 2));
    assert_eq!(rt; run(alloc, &mut left, 4, 0)?, (0, None, 4));
    Ok(())
}

#[test]
fn what_was_found_longest_ago_goes_by_whichever_store(rt: HostRuntime) -> Result<(), Fail> {
    let alloc = rt.alloc();
    let cache: Mutex<RecordCache<Quiet>> = Mutex::new(RecordCache::new(alloc, 2)?);
    let mut left = LockedCache::new(&rt, &cache);
    let mut right = LockedCache::new(&rt, &cache);
    assert!(rt; keep(alloc, &mut left, 1, 101)?);
    assert!(rt; keep(alloc, &mut right, 2, 102)?);
    assert_eq!(rt; run(alloc, &mut right, 1, 1)?, (1, Some(101), 2));
    assert!(rt; keep(alloc, &mut left, 3, 103)?);
    assert_eq!(rt; find(alloc, &mut left, 2)?, None);
    assert_eq!(rt; find(alloc, &mut right, 1)?, Some(101));
    assert_eq!(rt; find(alloc, &mut right, 3)?, Some(103));
    Ok(())
}
