//! The sets that a session holds.

ghost use Rattle.std.specs.Prelude.{◌≡◌, ◌<◌, IfOk, option_map, length, slice_get};
ghost use Rattle.lru.specs.LruCache.{last_entry};
ghost use Rattle.pool_sets.specs.TableView.{has_stale, slot_or_0, without_last, without_slot, with_first};
ghost use Rattle.pool_sets.specs.Entries.{key_and_use, slot_and_hits, set_at, after_use, IsRoom, HasSlots};
ghost use Rattle.pool_sets.specs.Table.{Table, empty_table, set_of, after_find, after_expire, after_forget, is_free, free_slot, last_slot, room, after_room, after_record};
ghost use Rattle.std.specs.Prelude.{nat_eq, OnOk, OnErr, None};
ghost use Rattle.std.specs.Map.{lookup_entry};

use lru::LruCache;
use std::alloc::Global;
use std::marker::Model;
use std::num::NonZeroUsize;
use z_types::{Memory, SetKey};

/// What is known of a set: its key, its hits, and when it was last used.
#[derive(Drop)]
pub struct HeldSet {
    pub key: SetKey,
    pub hits: u32,
    pub used: u64,
}

/// The sets that a session holds, by their slots. A slot's decimal text is the set's name at the
/// target.
#[derive(Drop)]
pub struct SetTable {
    sets: LruCache<u32, HeldSet>,
    latest: u64,
}

impl Model for SetTable {
    ghost use Rattle.std.specs.Coded.{codes};
    ghost use Rattle.z_types.specs.Tree.{tree_code};
    ghost use Rattle.pool_sets.specs.Table.{Table};

    ghost Value = { Table };

    ghost coded = { Prim.hlevel (codes, tree_code) };

    ghost use Rattle.pool_sets.specs.TableView.{table_of, IsTable};

    ghost view = { λ t. table_of t.sets t.latest };

    ghost invariant = { λ t. IsTable t.sets t.latest };
}

impl SetTable {
    /// A table of that many sets, which holds none.
    pub fn new(alloc: Global, max: u32) -> Result<SetTable, Memory>
        requires { 0 < max }
        ensures { IfOk result (λ t. t ≡ empty_table max) }
    {
        let Some(cap) = NonZeroUsize::new(max as usize) else {
            unreachable!()
        };
        Ok(SetTable {
            sets: LruCache::new(alloc, cap)?,
            latest: 0,
        })
    }
}

impl SetTable {
    /// The slot of a key's set, where it is held. It is no use.
    pub fn holds(&self, key: &SetKey) -> Option<u32>
        ensures { result ≡ option_map (λ e. e.slot) (set_of key.now self.now) }
    {
        let (slot, _) = self.sets.iter().find(|(_, set)| set.key == *key)?;
        Some(*slot)
    }

    /// How many sets there may be.
    pub fn max(&self) -> u32
        ensures { result ≡ self.now.most }
    {
        self.sets.cap().get() as u32
    }

    /// How many sets there are.
    pub fn len(&self) -> u32
        ensures { result ≡ length self.now.entries }
    {
        self.sets.len() as u32
    }

    /// The key and the moment of the last use of the set at a place, the most recently used first, at
    /// places counted from 0.
    pub fn entry(&self, place: u32) -> Option<(&SetKey, u64)>
        ensures { option_map key_and_use result
            ≡ option_map (λ e. (e.key, e.used)) (slice_get self.now.entries place) }
    {
        let (_, set) = self.sets.iter().nth(place as usize)?;
        Some((&set.key, set.used))
    }

    /// The slot and the hits of a key's set, where it is held. It is used now.
    pub fn find(&mut self, key: &SetKey, now: u64) -> Option<(u32, u32)>
        ensures found { result ≡ slot_and_hits (set_of key.now self.old) }
        ensures after { self.new ≡ after_find key.now now self.old }
    {
        self.latest = self.latest.max(now);
        if self.sets.len() == 0 {
            return None;
        }
        let slot = self.holds(key)?;
        let hits = self.touch(slot)?;
        Some((slot, hits))
    }

    /// The hits of a slot's set, which is used at the greatest moment that was given.
    fn touch(&mut self, slot: u32) -> Option<u32>
        ensures hits { result ≡ option_map (λ e. e.hits) (set_at slot self.old) }
        ensures after { self.new ≡ after_use slot self.old }
    {
        if self.sets.len() == 0 {
            return None;
        }
        let used = self.latest;
        let set = self.sets.get_mut(&slot)?;
        let hits = set.hits;
        set.used = used;
        Some(hits)
    }
}

/// Drops the least recently used set.
fn drop_last(sets: &mut LruCache<u32, HeldSet>)
    ensures { sets.new ≡ without_last sets.old }
{
    drop(sets.pop_lru());
}

/// Whether the least recently used set was unused for `ttl` seconds or more.
fn is_last_stale(sets: &LruCache<u32, HeldSet>, moment: u64, ttl: u64) -> bool
    ensures { result ≡ has_stale moment ttl (last_entry sets.now.entries) }
{
    match sets.peek_lru() {
        Some((_, set)) => ttl <= moment.saturating_sub(set.used),
        None => false,
    }
}

impl SetTable {
    /// Forgets the sets that were unused for `ttl` seconds or more.
    pub fn expire(&mut self, now: u64, ttl: u64)
        ensures { self.new ≡ after_expire now ttl self.old }
    {
        self.latest = self.latest.max(now);
        while is_last_stale(&self.sets, self.latest, ttl) {
            drop_last(&mut self.sets);
        }
    }
}

/// Drops the set of a slot.
fn drop_slot(sets: &mut LruCache<u32, HeldSet>, slot: u32)
    ensures { sets.new ≡ without_slot slot sets.old }
{
    drop(sets.pop_entry(&slot));
}

/// The slot of the least recently used set, or 0 where there is none.
fn oldest(sets: &LruCache<u32, HeldSet>) -> u32
    ensures { result ≡ slot_or_0 (last_entry sets.now.entries) }
{
    match sets.peek_lru() {
        Some((slot, _)) => *slot,
        None => 0,
    }
}

impl SetTable {
    /// Forgets the set of a slot.
    pub fn forget(&mut self, slot: u32)
        ensures { self.new ≡ after_forget slot self.old }
    {
        if self.sets.len() == 0 {
            return;
        }
        drop_slot(&mut self.sets, slot);
    }

    /// Whether no set has the slot.
    fn is_free(&self, slot: u32) -> bool
        ensures { result ≡ is_free self.now.entries slot }
    {
        !self.sets.contains(&slot)
    }

    /// The least free slot.
    fn free_slot(&self) -> Option<u32>
        ensures { result ≡ free_slot self.now }
    {
        (0..self.max()).find(|slot| self.is_free(*slot))
    }

    /// The slot of the least recently used set.
    fn last_slot(&self) -> u32
        ensures { result ≡ last_slot self.now.entries }
    {
        oldest(&self.sets)
    }

    /// No two sets have one slot, and each slot is below the number of sets that there may be.
    fn check_slots(&self)
        ensures slots { HasSlots self.now }
    {
        let _count = self.sets.len();
    }

    /// The slot for the next set: the least free one, else that of the least recently used set,
    /// which is forgotten.
    pub fn room(&mut self) -> u32
        ensures slot { result ≡ room self.old }
        ensures after { self.new ≡ after_room self.old }
        ensures room { IsRoom self.new result }
    {
        self.check_slots();
        if let Some(slot) = self.free_slot() {
            return slot;
        }
        let slot = self.last_slot();
        self.forget(slot);
        slot
    }
}

/// Puts a set in the place of none.
fn put_first(sets: &mut LruCache<u32, HeldSet>, slot: u32, set: HeldSet) -> Result<(), Memory>
    requires free { lookup_entry (nat_eq slot) sets.old.entries ≡ None }
    ensures ok { OnOk result (sets.new ≡ with_first slot set sets.old) }
    ensures err { OnErr result (sets.new ≡ sets.old) }
{
    sets.put(slot, set)?;
    Ok(())
}

impl SetTable {
    /// Records a set that was searched for, under a slot that has room; it is used now. Without
    /// memory nothing is changed.
    pub fn record_(&mut self, slot: u32, key: SetKey, hits: u32, now: u64) -> Result<(), Memory>
        requires room { IsRoom self.old slot }
        ensures ok { OnOk result (self.new ≡ after_record slot key hits now self.old) }
        ensures err { OnErr result (self.new ≡ self.old) }
    {
        let used = self.latest.max(now);
        put_first(&mut self.sets, slot, HeldSet { key, hits, used })?;
        self.latest = used;
        Ok(())
    }
}
