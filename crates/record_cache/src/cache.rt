//! The store of one thread.

ghost use Rattle.std.specs.Prelude.{◌≡◌, ◌<◌, IfOk, Some};
ghost use Rattle.record_cache.specs.Entries.{empty_cache};

use crate::entries::Entries;
use crate::seed::Seed;
use crate::{Found, Kept, RecordKey, Run, Store};
use std::alloc::Global;
use std::hash::RandomState;
use std::marker::{Model, PhantomData};
use z_types::{Item, Memory, World};

/// A bounded store of records, which forgets the one that was used longest ago for a new one. Each item is
/// the world's record of its key, where the address is told.
#[derive(Drop)]
pub struct RecordCache<W: World> {
    entries: Entries,
    world: PhantomData<W>,
}

impl<W: World> Model for RecordCache<W> {
    ghost use Rattle.std.specs.Coded.{codes};
    ghost use Rattle.z_types.specs.Tree.{tree_code};
    ghost use Rattle.record_cache.specs.Entries.{Cache};

    ghost Value = { Cache };

    ghost coded = { Prim.hlevel (codes, tree_code) };

    ghost use Rattle.record_cache.specs.Views.{cache_of, IsCache};

    ghost view = { λ c. cache_of c.entries };

    ghost invariant = { λ c. IsCache W.World c.entries };
}

impl<W: World> RecordCache<W> {
    /// A store of that many records at most, at least one. It has none yet. Keys are hashed the same way in
    /// each run: where clients who are not trusted choose them, take `with_hasher`.
    pub fn new(alloc: Global, most: u32) -> Result<RecordCache<W>, Memory>
        requires { 0 < most }
        ensures { IfOk result (λ c. c ≡ empty_cache most) }
    {
        RecordCache::seeded(alloc, most, Seed::Fixed)
    }

    /// The same, with keys hashed by what was drawn for this run, which clients do not know.
    pub fn with_hasher(
        alloc: Global,
        most: u32,
        hasher: RandomState,
    ) -> Result<RecordCache<W>, Memory>
        requires { 0 < most }
        ensures { IfOk result (λ c. c ≡ empty_cache most) }
    {
        RecordCache::seeded(alloc, most, Seed::Drawn(hasher))
    }

    /// A store without records.
    fn seeded(alloc: Global, most: u32, seed: Seed) -> Result<RecordCache<W>, Memory>
        requires { 0 < most }
        ensures { IfOk result (λ c. c ≡ empty_cache most) }
    {
        let entries = Entries::new(alloc, most, seed)?;
        Ok(RecordCache {
            entries,
            world: PhantomData,
        })
    }
}

impl<W: World> Store<W> for RecordCache<W> {
    ghost entries = { λ c. Some c };

    fn find(&mut self, key: &RecordKey) -> Found {
        self.entries.find(key)
    }

    fn find_run(&mut self, alloc: Global, key: RecordKey, count: u32) -> Result<Run, Memory> {
        self.entries.run(alloc, key, count)
    }

    fn keep(&mut self, key: RecordKey, item: Item) -> Kept {
        self.entries.keep(key, item)
    }
}
