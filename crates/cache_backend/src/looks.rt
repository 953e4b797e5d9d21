//! What a session is looked at for.

ghost use Rattle.std.specs.Prelude.{◌≡◌, true};
ghost use Rattle.z_types.specs.Pending.{IsPending};
ghost use Rattle.cache_backend.specs.Known.{known_under};
ghost use Rattle.cache_backend.specs.Looks.{
  IsCachedLook,
  KeepsItems,
  MayKeep,
  awaited_then,
  cached_of,
};
ghost use Rattle.cache_backend.specs.Sessions.{IsCachedSession, StandsBy, pending_by, pending_of};
ghost use Rattle.cache_backend.specs.Steps.{Looks, outside_of, view_by, view_in};

use crate::CachedBackend;
use crate::sessions::{Awaited, CachedParts};
use gw_outside::{Backend, Heard};
use record_cache::{RecordKey, Store, keep_run};
use std::alloc::Global;
use std::mem;
use z_types::{Ask, Item, List, World};

impl<W: World, B: Backend<W>, T: Store<W>> CachedBackend<W, B, T> {
    /// Looks for what a session waits for.
    pub(crate) fn hear(&mut self, alloc: Global, parts: &mut CachedParts<B::Session>) -> Heard
        requires waits { IsPending (pending_of B.Session.Sitting parts.old) }
        requires kept { IsCachedSession W.World B.Session.Sitting parts.old }
        ensures looks { Looks W.World true B.exact
            (view_by B.Session.Sitting parts.old.awaited parts.old.inner)
            (view_in B.Session.Sitting parts.new)
            (outside_of B.Watched self.old.inner) (outside_of B.Watched self.new.inner) result }
        ensures kept { IsCachedSession W.World B.Session.Sitting parts.new }
        ensures cached { IsCachedLook self.old.record_bytes parts.old.awaited
            parts.new.awaited
            (cached_of T.Store self.old.inner self.old.store self.old.served)
            (cached_of T.Store self.new.inner self.new.store self.new.served) result }
        ensures octets { self.new.record_bytes ≡ self.old.record_bytes }
    {
        match mem::replace(&mut parts.awaited, Awaited::Beneath) {
            Awaited::Beneath => self.hear_beneath(alloc, parts),
            Awaited::Records(key) => self.hear_records(alloc, parts, key),
            Awaited::Run { ask, items } => self.give_run(parts, ask, items),
            Awaited::Broken => unreachable!(),
        }
    }

    /// Looks for what the session beneath waits for, and is not kept.
    fn hear_beneath(&mut self, alloc: Global, parts: &mut CachedParts<B::Session>) -> Heard
        requires waits { IsPending (pending_by B.Session.Sitting Awaited.Beneath parts.old.inner) }
        requires stands { StandsBy W.World B.Session.Sitting Awaited.Beneath parts.old.inner
            (known_under parts.old.searched.items) }
        requires beneath { parts.old.awaited ≡ Awaited.Beneath }
        requires address { parts.old.address ≡ B.Session.address parts.old.inner }
        ensures looks { Looks W.World true B.exact
            (view_by B.Session.Sitting Awaited.Beneath parts.old.inner)
            (view_in B.Session.Sitting parts.new)
            (outside_of B.Watched self.old.inner) (outside_of B.Watched self.new.inner) result }
        ensures kept { IsCachedSession W.World B.Session.Sitting parts.new }
        ensures cached { IsCachedLook self.old.record_bytes Awaited.Beneath
            parts.new.awaited
            (cached_of T.Store self.old.inner self.old.store self.old.served)
            (cached_of T.Store self.new.inner self.new.store self.new.served) result }
        ensures octets { self.new.record_bytes ≡ self.old.record_bytes }
    {
        self.inner.look(alloc, &mut parts.inner)
    }

    /// Looks for the records that the session beneath waits for, and keeps them from that key on.
    fn hear_records(
        &mut self,
        alloc: Global,
        parts: &mut CachedParts<B::Session>,
        mut key: RecordKey,
    ) -> Heard
        requires waits { IsPending (pending_by B.Session.Sitting (Awaited.Records key)
            parts.old.inner) }
        requires stands { StandsBy W.World B.Session.Sitting (Awaited.Records key) parts.old.inner
            (known_under parts.old.searched.items) }
        requires beneath { parts.old.awaited ≡ Awaited.Beneath }
        requires address { parts.old.address ≡ B.Session.address parts.old.inner }
        ensures looks { Looks W.World true B.exact
            (view_by B.Session.Sitting (Awaited.Records key) parts.old.inner)
            (view_in B.Session.Sitting parts.new)
            (outside_of B.Watched self.old.inner) (outside_of B.Watched self.new.inner) result }
        ensures kept { IsCachedSession W.World B.Session.Sitting parts.new }
        ensures cached { IsCachedLook self.old.record_bytes (Awaited.Records key)
            parts.new.awaited
            (cached_of T.Store self.old.inner self.old.store self.old.served)
            (cached_of T.Store self.new.inner self.new.store self.new.served) result }
        ensures octets { self.new.record_bytes ≡ self.old.record_bytes }
    {
        let heard = self.inner.look(alloc, &mut parts.inner);
        let most = self.record_bytes;
        keep_heard::<W, T>(&mut self.store, &mut key, &heard, most);
        parts.awaited = awaited_after(key, &heard);
        heard
    }

    /// Gives the items that the store had.
    fn give_run(
        &mut self,
        parts: &mut CachedParts<B::Session>,
        ask: Ask,
        items: List<Item>,
    ) -> Heard
        requires waits { IsPending (pending_by B.Session.Sitting (Awaited.Run ask items)
            parts.old.inner) }
        requires stands { StandsBy W.World B.Session.Sitting (Awaited.Run ask items) parts.old.inner
            (known_under parts.old.searched.items) }
        requires beneath { parts.old.awaited ≡ Awaited.Beneath }
        requires address { parts.old.address ≡ B.Session.address parts.old.inner }
        ensures looks { Looks W.World true B.exact
            (view_by B.Session.Sitting (Awaited.Run ask items) parts.old.inner)
            (view_in B.Session.Sitting parts.new)
            (outside_of B.Watched self.old.inner) (outside_of B.Watched self.new.inner) result }
        ensures kept { IsCachedSession W.World B.Session.Sitting parts.new }
        ensures cached { IsCachedLook self.old.record_bytes (Awaited.Run ask items)
            parts.new.awaited
            (cached_of T.Store self.old.inner self.old.store self.old.served)
            (cached_of T.Store self.new.inner self.new.store self.new.served) result }
        ensures octets { self.new.record_bytes ≡ self.old.record_bytes }
    {
        let _ = (&parts, ask);
        Heard::Items(items)
    }
}

/// Keeps what was heard of records from a key on.
fn keep_heard<W: World, T: Store<W>>(
    store: &mut T,
    key: &mut RecordKey,
    heard: &Heard,
    most_octets: u32,
)
    requires may { MayKeep W.World key.old heard.now }
    ensures kept { KeepsItems most_octets key.old heard.now
        (T.entries store.old) (T.entries store.new) }
    ensures key { heard.now ≡ Heard.NotYet → key.new ≡ key.old }
{
    match heard {
        Heard::Items(items) => {
            keep_run::<W, T>(store, key, items.as_slice(), most_octets);
        }
        Heard::Opened => {}
        Heard::Hits(_) => {}
        Heard::Refused(_) => {}
        Heard::Gone => {}
        Heard::Scanned(_) => {}
        Heard::NotYet => {}
        Heard::Failed => {}
        Heard::Memory => {}
    }
}

/// What a session awaits that asked for records: these, where no reply has come.
fn awaited_after(key: RecordKey, heard: &Heard) -> Awaited
    ensures { result ≡ awaited_then key heard.now }
{
    match heard {
        Heard::NotYet => Awaited::Records(key),
        _ => Awaited::Beneath,
    }
}
