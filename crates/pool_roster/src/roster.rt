//! The sessions of a pool, and where their sets are found.

ghost use Rattle.std.specs.Prelude.{◌≡◌, ◌≢◌, ◌≤◌, ◌<◌, ◌^◌, ◌-◌, ◌++◌, ◌∷◌, [], true, length, position, filter, is_some, All, IfSome, IsNone, OnOk, OnErr, option_copied};
ghost use Rattle.std.specs.List.{HoldsAt};
ghost use Rattle.z_types.specs.Logins.{inner};
ghost use Rattle.z_types.specs.Members.{IsMember};
ghost use Rattle.pool_sets.specs.declared.sessions.Stand.TheVariants.{Idle, Out};
ghost use Rattle.pool_sets.specs.Sessions.{idle_parts, in_class, idle_in, idle_for, is_out, with_stand, without_number, open_of, member_for};
ghost use Rattle.pool_sets.specs.Plain.{Ascends, fresh_sessions, is_seat, without_seat};
ghost use Rattle.pool_core.specs.Loads.{is_counted};
ghost use Rattle.pool_core.specs.PoolView.{idle_number, own_place, holder_place, out_session, at_member};
ghost use Rattle.pool_roster.specs.Told.{IsQuiet, sharers_of};
ghost use Rattle.pool_roster.specs.RosterView.{with_told, Changes, roster_of, RiseIn, IsOne};

use crate::Berth;
use crate::berth::{Expiries, lend_out};
use crate::berths::{
    add, drop_number, drop_old, drop_seat, holder_place, idle_place, member_for, oldest, open_in,
    own_place, place_of, seat_place, settle_each,
};
use crate::listing::{gather_all, list_all, own_of};
use crate::seek::first_holder;
use pool_core::{Spot, is_idle_for, is_idle_in, is_in_class, move_to, rest, spot_for};
use pool_keys::{Digest, KeyIndex};
use pool_sets::{Open, Pooled, Seat, Stand};
use std::alloc::Global;
use std::marker::{Model, PhantomData};
use z_types::{Address, Memory, SetKey, Sitting, Text, World};

/// The sessions of a pool in the order of their numbers. The sets of idle ones are found by the digests
/// of their keys. Where the pool expires and no session does, none is looked at: what is told of it is
/// as if it had been.
#[derive(Drop)]
pub struct Roster<W: World, S: Sitting<W>, D: Digest> {
    berths: Vec<Berth<Open<Pooled<W, S>, Spot>>>,
    index: KeyIndex,
    expiries: Expiries,
    oldest: u64,
    session_ttl: u64,
    set_ttl: u64,
    digest: PhantomData<D>,
}

impl<W: World, S: Sitting<W>, D: Digest> Model for Roster<W, S, D> {
    ghost use Rattle.std.specs.Coded.{codes};
    ghost use Rattle.z_types.specs.Tree.{tree_code};
    ghost use Rattle.pool_roster.specs.RosterView.{RosterView};

    ghost Value = { RosterView S };

    ghost coded = { Prim.hlevel (codes, tree_code) };

    ghost use Rattle.pool_roster.specs.Told.{told, digest_by, IsRoster};

    ghost view = { λ r. record {
      sessions = told r.expiries r.set_ttl r.berths.items;
      session_ttl = r.session_ttl;
      set_ttl = r.set_ttl;
    } };

    ghost invariant = { λ r. IsRoster (digest_by D.own D.digest) r.index r.expiries r.oldest r.set_ttl r.berths.items };
}

/// Whether no session expires at a moment, which is not before the last; each is idle since `oldest` or
/// later.
fn is_quiet(expiries: Expiries, oldest: u64, now: u64, ttl: u64) -> bool
    ensures { result ≡ true → IsQuiet expiries oldest now ttl }
{
    expiries.last <= now && expiries.count < u64::MAX && now.saturating_sub(oldest) < ttl
}

impl<W: World, S: Sitting<W>, D: Digest> Roster<W, S, D> {
    /// No sessions. It takes no memory yet.
    pub fn new(alloc: Global, session_ttl: u64, set_ttl: u64) -> Roster<W, S, D>
        ensures { result ≡ roster_of session_ttl set_ttl }
    {
        Roster {
            berths: Vec::new(alloc),
            index: KeyIndex::new(alloc),
            expiries: Expiries { count: 0, last: 0 },
            oldest: u64::MAX,
            session_ttl,
            set_ttl,
            digest: PhantomData,
        }
    }

    /// Drops the sessions, and forgets the sets, that were unused for too long.
    pub fn expire(&mut self, now: u64)
        ensures { self.new ≡ with_told
            (fresh_sessions now self.old.session_ttl self.old.set_ttl self.old.sessions) self.old }
    {
        if is_quiet(self.expiries, self.oldest, now, self.session_ttl) {
            self.expiries = Expiries {
                count: self.expiries.count + 1,
                last: now,
            };
            return;
        }
        self.expire_each(now);
    }

    /// The same by a look at each session.
    fn expire_each(&mut self, now: u64)
        ensures { self.new ≡ with_told
            (fresh_sessions now self.old.session_ttl self.old.set_ttl self.old.sessions) self.old }
    {
        drop_old(&mut self.berths, now, self.session_ttl);
        settle_each(&mut self.berths, self.expiries, self.set_ttl, 0);
        self.oldest = oldest(self.berths.as_slice());
        self.expiries = Expiries {
            count: 1,
            last: now,
        };
    }

    /// How many sessions there are.
    pub fn len(&self) -> usize
        ensures { result ≡ length self.now.sessions }
    {
        self.berths.len()
    }

    /// The number of the session at a place.
    pub fn number(&self, place: usize) -> u64
        requires within { place < length self.now.sessions }
        ensures { HoldsAt (λ o. result ≡ o.number) self.now.sessions place }
    {
        self.berths[place].session.number
    }

    /// The numbers rise.
    pub fn rises(&self)
        ensures { RiseIn self.now.sessions }
    {
        let _berths = &self.berths;
    }

    /// The place of the session of a number.
    pub fn place(&self, number: u64) -> Option<usize>
        ensures some { IfSome result (IsOne number self.now.sessions) }
        ensures none { IsNone result → All (λ o. o.number ≢ number) self.now.sessions }
    {
        let Some(place) = place_of(self.berths.as_slice(), number) else {
            return None;
        };
        Some(place)
    }

    /// The class of the session at a place.
    pub fn class(&self, place: usize) -> u32
        requires within { place < length self.now.sessions }
        ensures { HoldsAt (λ o. result ≡ o.class) self.now.sessions place }
    {
        self.berths[place].session.class
    }

    /// The member that the session at a place counts for.
    pub fn member(&self, place: usize) -> u32
        requires within { place < length self.now.sessions }
        ensures { HoldsAt (λ o. result ≡ o.member) self.now.sessions place }
    {
        self.berths[place].session.member
    }

    /// The digest of the class and the login of the session at a place.
    pub fn digest(&self, place: usize) -> u64
        requires within { place < length self.now.sessions }
        ensures { HoldsAt (λ o. result ≡ D.own (sharers_of o)) self.now.sessions place }
    {
        own_of::<W, S, D>(&self.berths[place].session)
    }

    /// Whether the session at a place is out.
    pub fn is_out(&self, place: usize) -> bool
        requires within { place < length self.now.sessions }
        ensures { HoldsAt (λ o. result ≡ is_out o.stand) self.now.sessions place }
    {
        matches!(&self.berths[place].session.stand, Stand::Out { .. })
    }

    /// Whether the session at a place is one of the class.
    pub fn is_in(&self, place: usize, class: u32, at: &[Address]) -> bool
        requires within { place < length self.now.sessions }
        ensures { HoldsAt (λ o. result ≡ in_class class at.now o) self.now.sessions place }
    {
        is_in_class(&self.berths[place].session, class, at)
    }

    /// Whether the session at a place is idle and one of the class.
    pub fn is_idle(&self, place: usize, class: u32, at: &[Address]) -> bool
        requires within { place < length self.now.sessions }
        ensures { HoldsAt (λ o. result ≡ is_some (idle_in class at.now o))
            self.now.sessions place }
    {
        is_idle_in(&self.berths[place].session, class, at)
    }

    /// Whether the session at a place is idle and one of the class and login.
    pub fn is_own(&self, place: usize, class: u32, at: &[Address], login: Option<&Text>) -> bool
        requires within { place < length self.now.sessions }
        ensures { HoldsAt
            (λ o. result ≡ is_some (idle_for class at.now (option_copied login.entry) o))
            self.now.sessions place }
    {
        is_idle_for(&self.berths[place].session, class, at, login)
    }

    /// A spot with the address of the session at a place, without its login, where it is idle.
    pub fn spot(&self, alloc: Global, place: usize) -> Option<Spot>
        requires within { place < length self.now.sessions }
        ensures { IfSome result (λ spot. HoldsAt
            (λ o. IfSome (idle_parts o.stand) (λ p. spot ≡ inner p.address))
            self.now.sessions place) }
    {
        spot_for(alloc, &self.berths[place].session)
    }

    /// The number of the first idle session of the class, whatever its login.
    pub fn idle(&self, class: u32, at: &[Address]) -> Option<u64>
        ensures { result ≡ idle_number class at.now self.now.sessions }
    {
        let Some(place) = idle_place(self.berths.as_slice(), class, at) else {
            return None;
        };
        Some(self.berths[place].session.number)
    }

    /// The place of the first idle session of the class and login.
    pub fn own(&self, class: u32, at: &[Address], login: Option<&Text>) -> Option<usize>
        ensures { result ≡ own_place class at.now (option_copied login.entry) self.now.sessions }
    {
        own_place(self.berths.as_slice(), class, at, login)
    }

    /// The place of the first of those that holds a set of the key.
    pub fn holder(
        &mut self,
        alloc: Global,
        class: u32,
        at: &[Address],
        login: Option<&Text>,
        key: &SetKey,
    ) -> Option<usize>
        ensures place { result ≡ holder_place class at.now (option_copied login.entry) key.now
            self.old.sessions }
        ensures same { self.new ≡ self.old }
    {
        self.complete(alloc);
        self.holder_found(class, at, login, key)
    }

    /// The same by the index, where it is whole.
    fn holder_found(
        &mut self,
        class: u32,
        at: &[Address],
        login: Option<&Text>,
        key: &SetKey,
    ) -> Option<usize>
        ensures place { result ≡ holder_place class at.now (option_copied login.entry) key.now
            self.old.sessions }
        ensures same { self.new ≡ self.old }
    {
        if !self.index.is_whole() {
            return self.holder_searched(class, at, login, key);
        }
        first_holder::<W, S, D>(
            &mut self.berths,
            &mut self.index,
            self.expiries,
            self.set_ttl,
            class,
            at,
            login,
            key,
        )
    }

    /// Puts all sets into the index anew, where some are lacking, as far as memory can be had.
    fn complete(&mut self, alloc: Global)
        ensures { self.new ≡ self.old }
    {
        if self.index.is_whole() {
            return;
        }
        let mut pairs = self.index.emptied(alloc);
        let Ok(()) = gather_all::<W, S, D>(&mut pairs, self.berths.as_slice()) else {
            return;
        };
        self.index.refill(pairs);
    }

    /// The same by a look at each session.
    fn holder_searched(
        &mut self,
        class: u32,
        at: &[Address],
        login: Option<&Text>,
        key: &SetKey,
    ) -> Option<usize>
        ensures place { result ≡ holder_place class at.now (option_copied login.entry) key.now
            self.old.sessions }
        ensures same { self.new ≡ self.old }
    {
        let Expiries { count, .. } = self.expiries;
        settle_each(&mut self.berths, self.expiries, self.set_ttl, count);
        holder_place(self.berths.as_slice(), class, at, login, key)
    }

    /// How many sessions of the class are open.
    pub fn open_in(&self, class: u32, at: &[Address]) -> usize
        ensures count { result ≡ open_of class at.now self.now.sessions }
    {
        open_in(self.berths.as_slice(), class, at)
    }

    /// The member of the class with the fewest sessions, the first in a tie.
    pub fn member_for(&self, class: u32, at: &[Address], but: Option<&Seat>) -> u32
        requires few { length self.now.sessions < 2 ^ 32 }
        requires some { 0 < length at.now }
        requires members { length at.now ≤ 16 }
        ensures member { result ≡ member_for class at.now
            (filter (is_counted (option_copied but.entry)) self.now.sessions) }
        ensures within { result < length at.now }
    {
        member_for(self.berths.as_slice(), class, at, but)
    }

    /// The place of the session of the seat, where it is out.
    pub fn seat(&self, seat: &Seat) -> Option<usize>
        ensures { result ≡ position (λ o. is_seat seat.now o) self.now.sessions }
    {
        seat_place(self.berths.as_slice(), seat)
    }

    /// Puts the session at a place out, and gives what was idle.
    pub fn lend(&mut self, place: usize, address: Spot) -> Option<Pooled<W, S>>
        requires within { place < length self.old.sessions }
        ensures pooled { HoldsAt (λ o. result ≡ idle_parts o.stand) self.old.sessions place }
        ensures out { Changes (with_stand (Out address)) place self.old self.new }
    {
        lend_out(
            &mut self.berths[place],
            self.expiries,
            self.set_ttl,
            address,
        )
    }

    /// Puts the session at a place to rest.
    pub fn rest(&mut self, place: usize, pooled: Pooled<W, S>, since: u64)
        requires within { place < length self.old.sessions }
        ensures idle { Changes (with_stand (Idle pooled since)) place self.old self.new }
    {
        let berth = &mut self.berths[place];
        list_all::<D>(
            &mut self.index,
            pooled.table(),
            own_of::<W, S, D>(&berth.session),
            berth.session.number,
        );
        self.oldest = self.oldest.min(since);
        rest(&mut berth.session, pooled, since);
        berth.stamp = self.expiries.count;
    }

    /// The session at a place, which is out, is out for another member.
    pub fn move_to(&mut self, place: usize, member: u32, to: &Address)
        requires within { place < length self.old.sessions }
        requires out { HoldsAt (λ o. is_out o.stand ≡ true) self.old.sessions place }
        requires short { IsMember to.now }
        ensures moved { Changes (at_member member to.now) place self.old self.new }
    {
        move_to(&mut self.berths[place].session, member, to);
    }

    /// Adds a session that is out for the first member, with room for that many pairs for each session.
    pub fn add_out(
        &mut self,
        number: u64,
        class: u32,
        login: Option<Text>,
        address: Spot,
        pairs: usize,
    ) -> Result<(), Memory>
        requires next { Ascends 0 (2 ^ 64 - 1)
            (self.old.sessions ++ out_session number class login 0 address ∷ []) }
        ensures ok { OnOk result (self.new ≡ with_told
            (self.old.sessions ++ out_session number class login 0 address ∷ []) self.old) }
        ensures err { OnErr result (self.new ≡ self.old) }
    {
        let room = pairs.saturating_mul(self.berths.len().saturating_add(1));
        let Ok(()) = self.index.reserve(room) else {
            return Err(Memory);
        };
        let berth = Berth {
            session: Open {
                number,
                class,
                login,
                member: 0,
                stand: Stand::Out { address },
            },
            stamp: self.expiries.count,
        };
        let Ok(()) = add(&mut self.berths, berth) else {
            return Err(Memory);
        };
        Ok(())
    }

    /// Drops the session of a number.
    pub fn drop_number(&mut self, number: u64)
        ensures { self.new ≡ with_told (without_number number self.old.sessions) self.old }
    {
        drop_number(&mut self.berths, number);
    }

    /// Drops the session of the seat.
    pub fn drop_seat(&mut self, seat: &Seat)
        ensures { self.new ≡ with_told (without_seat seat.now self.old.sessions) self.old }
    {
        drop_seat(&mut self.berths, seat);
    }
}
