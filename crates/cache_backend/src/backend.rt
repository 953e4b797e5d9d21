//! A backend that answers Presents from a store where it can.

ghost use Rattle.std.specs.Prelude.{◌≡◌, List, ℕ, true};
ghost use Rattle.z_types.specs.Pending.{IsPending, resting};
ghost use Rattle.gw_outside.specs.Asks.{MayAsk};
ghost use Rattle.gw_outside.specs.Counts.{BackendCounts};
ghost use Rattle.gw_outside.specs.Happened.{AreLess, AreSame};
ghost use Rattle.gw_outside.specs.Sessions.{
  Fits,
  IsWorlds,
  LookCounts,
  made_after,
  pending_after,
  pending_from,
  start_counted,
};
ghost use Rattle.gw_outside.specs.Steady.{AsksSteadily, LooksSteadily};
ghost use Rattle.cache_backend.specs.Looks.{IsCachedLook, IsCachedStart, cached_of};
ghost use Rattle.cache_backend.specs.Sessions.{link_of, pending_of};

use crate::sessions::{Awaited, CachedParts, CachedSession};
use gw_outside::{Backend, Began, Events, Heard, Opening, Watched};
use record_cache::Store;
use std::alloc::Global;
use std::marker::PhantomData;
use z_types::{Address, Ask, Memory, World, copy};

/// A backend over another, with a store. A Present whose first records the store has is answered by these
/// and not asked of the backend beneath; records that the backend beneath gives are kept.
#[derive(Drop)]
pub struct CachedBackend<W, B, T> {
    /// The backend beneath.
    pub(crate) inner: B,
    /// The store.
    pub(crate) store: T,
    /// How many octets a record may have that is kept.
    pub(crate) record_bytes: u32,
    /// How many Presents were answered from the store.
    pub(crate) served: u64,
    world: PhantomData<W>,
}

impl<W: World, B: Backend<W>, T: Store<W>> CachedBackend<W, B, T> {
    /// A backend over that one, with a store; records of more than `record_bytes` octets are not kept. It
    /// takes no memory.
    pub fn new(inner: B, store: T, record_bytes: u32) -> CachedBackend<W, B, T>
        ensures inner { result.inner ≡ inner }
        ensures store { result.store ≡ store }
        ensures record_bytes { result.record_bytes ≡ record_bytes }
        ensures served { result.served ≡ 0 }
    {
        CachedBackend {
            inner,
            store,
            record_bytes,
            served: 0,
            world: PhantomData,
        }
    }

    /// How many Presents were answered from the store.
    pub fn served(&self) -> u64
        ensures { result ≡ self.now.served }
    {
        self.served
    }

    /// The backend beneath, given back.
    pub fn into_inner(self) -> B
    where
        T: Drop,
        ensures { result ≡ self.inner }
    {
        self.inner
    }
}

impl<W, B: Watched, T> Watched for CachedBackend<W, B, T> {
    ghost counts = { λ backend. B.counts backend.inner };

    ghost exact = { B.exact };

    ghost happened = { λ backend. B.happened backend.inner };
}

impl<W: World, B: Backend<W>, T: Store<W>> Backend<W> for CachedBackend<W, B, T> {
    type Session = CachedSession<W, B::Session>;

    ghost served = { λ backend. backend.served };

    fn open_(&mut self, alloc: Global, address: &Address) -> Opening<CachedSession<W, B::Session>> {
        let Ok(own) = copy(address) else {
            return Opening::Memory;
        };
        match self.inner.open_(alloc, address) {
            Opening::Session(inner) => Opening::Session(CachedSession {
                parts: CachedParts {
                    inner,
                    address: own,
                    searched: Vec::new(alloc),
                    awaited: Awaited::Beneath,
                },
                world: PhantomData,
            }),
            Opening::Failed { linked } => Opening::Failed { linked },
            Opening::Memory => Opening::Memory,
        }
    }

    fn start(
        &mut self,
        alloc: Global,
        session: &mut CachedSession<W, B::Session>,
        ask: &Ask,
    ) -> Began
        requires rests { pending_of B.Session.Sitting session.old ≡ resting }
        requires may { MayAsk (B.Session.made session.old.inner) ask.now }
        ensures pending { pending_of B.Session.Sitting session.new ≡ pending_from ask.now result }
        ensures address { B.Session.address session.new.inner
            ≡ B.Session.address session.old.inner }
        ensures made { (name : List ℕ) → B.Session.made session.new.inner name
            ≡ B.Session.made session.old.inner name }
        ensures happened { AreLess (B.happened self.old.inner) (B.happened self.new.inner) }
        ensures steady { W.told (B.Session.address session.old.inner)
            → (B.happened self.old.inner).steady ≡ true
            → AsksSteadily W.World true (B.Session.address session.old.inner) ask.now
            (link_of B.Session.Sitting session.old) (link_of B.Session.Sitting session.new)
            (B.happened self.old.inner) (B.happened self.new.inner) result }
        ensures counts { BackendCounts B.exact (Unit {0}) (start_counted ask.now result)
            (B.counts self.old.inner) (B.counts self.new.inner) }
        ensures cached { IsCachedStart ask.now session.old session.new
            (cached_of T.Store self.old.inner self.old.store self.old.served)
            (cached_of T.Store self.new.inner self.new.store self.new.served) result }
        ensures octets { self.new.record_bytes ≡ self.old.record_bytes }
    {
        self.begin(alloc, &mut session.parts, ask)
    }

    fn look(&mut self, alloc: Global, session: &mut CachedSession<W, B::Session>) -> Heard
        requires { IsPending (pending_of B.Session.Sitting session.old) }
        ensures fits { Fits (pending_of B.Session.Sitting session.old) result }
        ensures worlds { W.told (B.Session.address session.old.inner)
            → IsWorlds W.World (B.Session.address session.old.inner)
            (B.Session.made session.old.inner) (pending_of B.Session.Sitting session.old) result }
        ensures pending { pending_of B.Session.Sitting session.new
            ≡ pending_after (pending_of B.Session.Sitting session.old) result }
        ensures made { (name : List ℕ) → B.Session.made session.new.inner name
            ≡ made_after (pending_of B.Session.Sitting session.old) result
            (B.Session.made session.old.inner) name }
        ensures address { B.Session.address session.new.inner
            ≡ B.Session.address session.old.inner }
        ensures happened { AreSame (B.happened self.old.inner) (B.happened self.new.inner) }
        ensures steady { W.told (B.Session.address session.old.inner)
            → (B.happened self.old.inner).steady ≡ true
            → LooksSteadily true (B.Session.address session.old.inner)
            (B.happened self.old.inner) (link_of B.Session.Sitting session.old)
            (link_of B.Session.Sitting session.new) result }
        ensures counts { LookCounts B.exact (W.told (B.Session.address session.old.inner))
            result (B.counts self.old.inner) (B.counts self.new.inner) }
        ensures cached { IsCachedLook self.old.record_bytes session.old.awaited
            session.new.awaited
            (cached_of T.Store self.old.inner self.old.store self.old.served)
            (cached_of T.Store self.new.inner self.new.store self.new.served) result }
        ensures octets { self.new.record_bytes ≡ self.old.record_bytes }
    {
        self.hear(alloc, &mut session.parts)
    }

    fn served_from_cache(&self) -> u64 {
        self.served
    }
}

impl<W: World, B: Backend<W> + Events, T: Store<W>> Events for CachedBackend<W, B, T> {
    fn gone(&mut self, target: u32, presents: u32) -> Result<(), Memory> {
        self.inner.gone(target, presents)
    }

    fn cut(&mut self, target: u32) -> Result<(), Memory> {
        self.inner.cut(target)
    }

    fn slow(&mut self, target: u32, looks: u32) -> Result<(), Memory> {
        self.inner.slow(target, looks)
    }
}
