//! The entries of the store of one thread: what is found among them and kept, by keys with digests.

ghost use Rattle.std.specs.Prelude.{◌≡◌, ◌+◌, ◌-◌, ◌^◌, ◌<◌, ◌≤◌, min, List, IfOk, length};
ghost use Rattle.z_types.specs.declared.records.Item.{Item as AnItem};
ghost use Rattle.record_cache.specs.Digests.{digest_of, holds};
ghost use Rattle.record_cache.specs.Entries.{empty_cache};
ghost use Rattle.record_cache.specs.Runs.{HasFound, IsRun, key_on};
ghost use Rattle.record_cache.specs.Stores.{FindsIn, KeepsIn};
ghost use Rattle.record_cache.specs.Views.{AreDigested, cache_of};

use crate::digests::Digested;
use crate::seed::Seed;
use crate::stores::item_of;
use crate::{Found, Kept, RecordKey, Run};
use lru::LruCache;
use std::alloc::Global;
use std::num::NonZeroUsize;
use z_types::{Item, List, Memory, copy};

/// Items by keys with digests, the one that was used most recently first.
#[derive(Drop)]
pub(crate) struct Entries {
    /// The items.
    pub(crate) items: LruCache<Digested, Item>,
    /// What makes the digests.
    pub(crate) seed: Seed,
    /// How often no memory was had for a copy.
    pub(crate) wants: u64,
}

impl Entries {
    /// No entries, of which there may be that many. Their room grows as they come.
    pub(crate) fn new(alloc: Global, most: u32, seed: Seed) -> Result<Entries, Memory>
        requires { 0 < most }
        ensures empty { IfOk result (λ entries. cache_of entries ≡ empty_cache most) }
        ensures digested { IfOk result AreDigested }
    {
        let Some(cap) = NonZeroUsize::new(most as usize) else {
            unreachable!()
        };
        let mut items = LruCache::unbounded(alloc)?;
        items.resize(cap);
        Ok(Entries {
            items,
            seed,
            wants: 0,
        })
    }

    /// A copy of the item of a key, which comes to the front.
    fn find_digested(&mut self, key: &Digested) -> Found
        requires digested { AreDigested self.old }
        requires digest { key.now.digest ≡ digest_of self.old.seed key.now.key }
        ensures digested { AreDigested self.new }
        ensures seed { self.new.seed ≡ self.old.seed }
        ensures plain { FindsIn (cache_of self.old) (cache_of self.new) key.now.key result }
    {
        let copied = match self.items.peek(key) {
            Some(item) => copy(item),
            None => return Found::None,
        };
        match copied {
            Ok(item) => {
                let _found = self.items.promote(key);
                Found::Item(item)
            }
            Err(Memory) => {
                self.count_want();
                Found::Memory
            }
        }
    }

    /// Counts that no memory was had for a copy.
    fn count_want(&mut self)
        ensures { self.new ≡ record self.old { wants = min (self.old.wants + 1) (2 ^ 64 - 1) } }
    {
        self.wants = self.wants.saturating_add(1);
    }

    /// Whether a key has an item. It goes through all.
    fn holds(&self, key: &RecordKey) -> bool
        ensures { result ≡ holds key.now self.now.items.entries }
    {
        self.items.iter().any(|(held, _)| *key == held.key)
    }

    /// A copy of the item of a key, which comes to the front. Where no memory is had for a digested copy of the
    /// key, it goes through all keys.
    pub(crate) fn find(&mut self, key: &RecordKey) -> Found
        requires digested { AreDigested self.old }
        ensures digested { AreDigested self.new }
        ensures plain { FindsIn (cache_of self.old) (cache_of self.new) key.now result }
    {
        if let Ok(own) = copy(key) {
            let digested = Digested::new(own, &self.seed);
            return self.find_digested(&digested);
        }
        if !self.holds(key) {
            return Found::None;
        }
        self.count_want();
        Found::Memory
    }

    /// The longest run of items from a key on, at most `count`: each comes to the front. Without memory for
    /// their list those that were found have come there all the same.
    pub(crate) fn run(&mut self, alloc: Global, key: RecordKey, count: u32) -> Result<Run, Memory>
        requires digested { AreDigested self.old }
        requires positions { key.position + count < 2 ^ 32 }
        ensures digested { AreDigested self.new }
        ensures found { (items : List AnItem)
            × HasFound (cache_of self.old) (cache_of self.new) key items }
        ensures plain { IfOk result (λ run.
            IsRun (cache_of self.old) (cache_of self.new) key count run.items) }
        ensures few { IfOk result (λ run. length run.items ≤ count) }
        ensures next { IfOk result (λ run. run.next ≡ key_on (length run.items) key) }
    {
        let mut next = Digested::new(key, &self.seed);
        let mut items = List::new(alloc);
        while items.len() < count as usize {
            let Some(item) = item_of(self.find_digested(&next)) else {
                return Ok(Run {
                    items,
                    next: next.key,
                });
            };
            items.push(item)?;
            next.key.position += 1;
        }
        Ok(Run {
            items,
            next: next.key,
        })
    }

    /// Keeps an item in front under its key. Where there are more than may be, the last one goes.
    pub(crate) fn keep(&mut self, key: RecordKey, item: Item) -> Kept
        requires digested { AreDigested self.old }
        ensures digested { AreDigested self.new }
        ensures plain { KeepsIn (cache_of self.old) (cache_of self.new) key item result }
    {
        // (asked for what the call says: that there are no more items than may be)
        let _count = self.items.len();
        let digested = Digested::new(key, &self.seed);
        match self.items.put(digested, item) {
            Ok(_) => Kept::Kept,
            Err(_) => Kept::Memory,
        }
    }
}
