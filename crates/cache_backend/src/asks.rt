//! What a session is asked for: a search, records, or entries.

ghost use Rattle.std.specs.Prelude.{◌≡◌, true};
ghost use Rattle.z_types.specs.Pending.{resting};
ghost use Rattle.z_types.specs.declared.ask.Ask.TheVariants as Asks;
ghost use Rattle.gw_outside.specs.Asks.{MayAsk};
ghost use Rattle.cache_backend.specs.declared.sessions.Awaited.TheVariants as Awaited;
ghost use Rattle.cache_backend.specs.Looks.{IsCachedStart, IsFetched, IsGiven, IsServedFrom, cached_of};
ghost use Rattle.cache_backend.specs.Sessions.{AsksFrom, HasRun, IsCachedSession, IsScan, count_of};
ghost use Rattle.cache_backend.specs.Steps.{Starts, outside_of, view_in};

use crate::CachedBackend;
use crate::presents::{
    Held, awaited_from, break_off, first_key, held_from, note, run_for, wait_for,
};
use crate::sessions::CachedParts;
use gw_outside::{Backend, Began};
use record_cache::{RecordKey, Store};
use std::alloc::Global;
use z_types::{Ask, Item, List, Memory, Oid, SetKey, Text, World};

impl<W: World, B: Backend<W>, T: Store<W>> CachedBackend<W, B, T> {
    /// Asks a session that rests.
    pub(crate) fn begin(
        &mut self,
        alloc: Global,
        parts: &mut CachedParts<B::Session>,
        ask: &Ask,
    ) -> Began
        requires beneath { parts.old.awaited ≡ Awaited.Beneath }
        requires rests { B.Session.pending parts.old.inner ≡ resting }
        requires kept { IsCachedSession W.World B.Session.Sitting parts.old }
        requires may { MayAsk (B.Session.made parts.old.inner) ask.now }
        ensures starts { Starts W.World true B.exact ask.now
            (view_in B.Session.Sitting parts.old) (view_in B.Session.Sitting parts.new)
            (outside_of B.Watched self.old.inner) (outside_of B.Watched self.new.inner) result }
        ensures kept { IsCachedSession W.World B.Session.Sitting parts.new }
        ensures cached { IsCachedStart ask.now parts.old parts.new
            (cached_of T.Store self.old.inner self.old.store self.old.served)
            (cached_of T.Store self.new.inner self.new.store self.new.served) result }
        ensures octets { self.new.record_bytes ≡ self.old.record_bytes }
    {
        match ask {
            Ask::Search { name, key } => self.search(alloc, parts, ask, name, key),
            Ask::Present {
                name,
                first,
                count,
                syntax,
                element,
            } => self.present(alloc, parts, ask, name, *first, *count, syntax, element),
            Ask::Scan { .. } => self.scan(alloc, parts, ask),
        }
    }

    /// Begins a search, whose key is then the last one under its name.
    fn search(
        &mut self,
        alloc: Global,
        parts: &mut CachedParts<B::Session>,
        ask: &Ask,
        name: &Text,
        key: &SetKey,
    ) -> Began
        requires asks { ask.now ≡ Asks.Search name.now key.now }
        requires may { MayAsk (B.Session.made parts.old.inner) ask.now }
        requires beneath { parts.old.awaited ≡ Awaited.Beneath }
        requires rests { B.Session.pending parts.old.inner ≡ resting }
        requires kept { IsCachedSession W.World B.Session.Sitting parts.old }
        ensures starts { Starts W.World true B.exact ask.now
            (view_in B.Session.Sitting parts.old) (view_in B.Session.Sitting parts.new)
            (outside_of B.Watched self.old.inner) (outside_of B.Watched self.new.inner) result }
        ensures kept { IsCachedSession W.World B.Session.Sitting parts.new }
        ensures cached { IsCachedStart ask.now parts.old parts.new
            (cached_of T.Store self.old.inner self.old.store self.old.served)
            (cached_of T.Store self.new.inner self.new.store self.new.served) result }
        ensures octets { self.new.record_bytes ≡ self.old.record_bytes }
    {
        let Ok(()) = note(&mut parts.searched, name, key) else {
            break_off(&mut parts.awaited);
            return Began::Memory;
        };
        self.inner.start(alloc, &mut parts.inner, ask)
    }

    /// Begins a scan.
    fn scan(&mut self, alloc: Global, parts: &mut CachedParts<B::Session>, ask: &Ask) -> Began
        requires asks { IsScan ask.now }
        requires may { MayAsk (B.Session.made parts.old.inner) ask.now }
        requires beneath { parts.old.awaited ≡ Awaited.Beneath }
        requires rests { B.Session.pending parts.old.inner ≡ resting }
        requires kept { IsCachedSession W.World B.Session.Sitting parts.old }
        ensures starts { Starts W.World true B.exact ask.now
            (view_in B.Session.Sitting parts.old) (view_in B.Session.Sitting parts.new)
            (outside_of B.Watched self.old.inner) (outside_of B.Watched self.new.inner) result }
        ensures kept { IsCachedSession W.World B.Session.Sitting parts.new }
        ensures cached { IsCachedStart ask.now parts.old parts.new
            (cached_of T.Store self.old.inner self.old.store self.old.served)
            (cached_of T.Store self.new.inner self.new.store self.new.served) result }
        ensures octets { self.new.record_bytes ≡ self.old.record_bytes }
    {
        self.inner.start(alloc, &mut parts.inner, ask)
    }

    /// Begins a Present: by the run that the store has, or where that is empty by the session beneath.
    fn present(
        &mut self,
        alloc: Global,
        parts: &mut CachedParts<B::Session>,
        ask: &Ask,
        name: &Text,
        first: u32,
        count: u32,
        syntax: &Option<Oid>,
        element: &Option<Text>,
    ) -> Began
        requires asks { ask.now ≡ Asks.Present name.now first count syntax.now element.now }
        requires may { MayAsk (B.Session.made parts.old.inner) ask.now }
        requires beneath { parts.old.awaited ≡ Awaited.Beneath }
        requires rests { B.Session.pending parts.old.inner ≡ resting }
        requires kept { IsCachedSession W.World B.Session.Sitting parts.old }
        ensures starts { Starts W.World true B.exact ask.now
            (view_in B.Session.Sitting parts.old) (view_in B.Session.Sitting parts.new)
            (outside_of B.Watched self.old.inner) (outside_of B.Watched self.new.inner) result }
        ensures kept { IsCachedSession W.World B.Session.Sitting parts.new }
        ensures cached { IsCachedStart ask.now parts.old parts.new
            (cached_of T.Store self.old.inner self.old.store self.old.served)
            (cached_of T.Store self.new.inner self.new.store self.new.served) result }
        ensures octets { self.new.record_bytes ≡ self.old.record_bytes }
    {
        let searched = parts.searched.as_slice();
        let Ok(key) = first_key(&parts.address, searched, name, first, syntax, element) else {
            break_off(&mut parts.awaited);
            return Began::Memory;
        };
        self.present_from(alloc, parts, ask, key, count)
    }

    /// Begins a Present from the key of its first record on.
    fn present_from(
        &mut self,
        alloc: Global,
        parts: &mut CachedParts<B::Session>,
        ask: &Ask,
        key: RecordKey,
        count: u32,
    ) -> Began
        requires asks { AsksFrom B.Session.Sitting key ask.now parts.old.inner }
        requires counts { count_of ask.now ≡ count }
        requires may { MayAsk (B.Session.made parts.old.inner) ask.now }
        requires beneath { parts.old.awaited ≡ Awaited.Beneath }
        requires rests { B.Session.pending parts.old.inner ≡ resting }
        requires kept { IsCachedSession W.World B.Session.Sitting parts.old }
        ensures starts { Starts W.World true B.exact ask.now
            (view_in B.Session.Sitting parts.old) (view_in B.Session.Sitting parts.new)
            (outside_of B.Watched self.old.inner) (outside_of B.Watched self.new.inner) result }
        ensures kept { IsCachedSession W.World B.Session.Sitting parts.new }
        ensures cached { IsServedFrom key count ask.now parts.old parts.new
            (cached_of T.Store self.old.inner self.old.store self.old.served)
            (cached_of T.Store self.new.inner self.new.store self.new.served) result }
        ensures octets { self.new.record_bytes ≡ self.old.record_bytes }
    {
        match held_from::<W, T>(alloc, &mut self.store, key, count) {
            Ok(Held::Items(items)) => self.give_next(parts, ask, items),
            Ok(Held::Nothing(key)) => self.fetch(alloc, parts, ask, key),
            Err(Memory) => {
                break_off(&mut parts.awaited);
                Began::Memory
            }
        }
    }

    /// Has the next look give a run, which a copy of the Present is kept with.
    fn give_next(
        &mut self,
        parts: &mut CachedParts<B::Session>,
        ask: &Ask,
        items: List<Item>,
    ) -> Began
        requires run { HasRun W.World B.Session.Sitting ask.now items parts.old.inner }
        requires beneath { parts.old.awaited ≡ Awaited.Beneath }
        requires kept { IsCachedSession W.World B.Session.Sitting parts.old }
        ensures starts { Starts W.World true B.exact ask.now
            (view_in B.Session.Sitting parts.old) (view_in B.Session.Sitting parts.new)
            (outside_of B.Watched self.old.inner) (outside_of B.Watched self.new.inner) result }
        ensures kept { IsCachedSession W.World B.Session.Sitting parts.new }
        ensures given { IsGiven items ask.now parts.old parts.new
            (cached_of T.Store self.old.inner self.old.store self.old.served)
            (cached_of T.Store self.new.inner self.new.store self.new.served) result }
        ensures entries { T.entries self.new.store ≡ T.entries self.old.store }
        ensures octets { self.new.record_bytes ≡ self.old.record_bytes }
    {
        let Ok(run) = run_for(ask, items) else {
            break_off(&mut parts.awaited);
            return Began::Memory;
        };
        self.served = self.served.saturating_add(1);
        wait_for(&mut parts.awaited, run);
        Began::Started
    }

    /// Asks the session beneath for records, which are kept once they come.
    fn fetch(
        &mut self,
        alloc: Global,
        parts: &mut CachedParts<B::Session>,
        ask: &Ask,
        key: RecordKey,
    ) -> Began
        requires asks { AsksFrom B.Session.Sitting key ask.now parts.old.inner }
        requires may { MayAsk (B.Session.made parts.old.inner) ask.now }
        requires beneath { parts.old.awaited ≡ Awaited.Beneath }
        requires rests { B.Session.pending parts.old.inner ≡ resting }
        requires kept { IsCachedSession W.World B.Session.Sitting parts.old }
        ensures starts { Starts W.World true B.exact ask.now
            (view_in B.Session.Sitting parts.old) (view_in B.Session.Sitting parts.new)
            (outside_of B.Watched self.old.inner) (outside_of B.Watched self.new.inner) result }
        ensures kept { IsCachedSession W.World B.Session.Sitting parts.new }
        ensures entries { T.entries self.new.store ≡ T.entries self.old.store }
        ensures awaited { IsFetched key parts.new result }
        ensures served { self.new.served ≡ self.old.served }
        ensures octets { self.new.record_bytes ≡ self.old.record_bytes }
    {
        let began = self.inner.start(alloc, &mut parts.inner, ask);
        wait_for(&mut parts.awaited, awaited_from(key, began));
        began
    }
}
