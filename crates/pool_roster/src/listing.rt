//! The sets of sessions are put where they are found.

ghost use Rattle.std.specs.Prelude.{◌≡◌, ◌<◌, true, false, not, nat_eq, ◌∷◌, [], length, slice_index_or, All, OnOk};
ghost use Rattle.pool_sets.specs.Table.{Entry};
ghost use Rattle.pool_keys.specs.Pairs.{Grows};
ghost use Rattle.pool_roster.specs.Told.{AreListed, AreGathered, LacksDigest, Gains, sets_of, sharers_of, digest_by};

use crate::Berth;
use pool_core::Spot;
use pool_keys::{Digest, KeyIndex, Pair};
use pool_sets::{Open, Pooled, SetTable, Stand};
use z_types::{Memory, Sitting, World};

/// The number of a session's class and login, by which the digests of its keys are found.
pub fn own_of<W: World, S: Sitting<W>, D: Digest>(session: &Open<Pooled<W, S>, Spot>) -> u64
    ensures { result ≡ D.own (sharers_of session.now) }
{
    D::own(session.class, session.login.as_ref())
}

/// Puts a session's set at a place into the index, where there is one.
fn list_one<D: Digest>(index: &mut KeyIndex, table: &SetTable, place: u32, own: u64, number: u64)
    requires within { place < length table.now.entries }
    ensures grows { Grows index.old index.new }
    ensures listed { (d : Entry) → AreListed (D.digest own)
        index.new number (slice_index_or table.now.entries place d ∷ []) }
{
    if let Some((key, _)) = table.entry(place) {
        index.admit(Pair {
            digest: D::digest(own, key),
            number,
        });
    }
}

/// Puts all sets of a session into the index.
pub fn list_all<D: Digest>(index: &mut KeyIndex, table: &SetTable, own: u64, number: u64)
    ensures grows { Grows index.old index.new }
    ensures listed { AreListed (D.digest own)
        index.new number table.now.entries }
{
    for place in 0..table.len() {
        list_one::<D>(index, table, place, own, number);
    }
}

/// Whether a session's set at a place has another digest, where there is one.
fn differs<D: Digest>(table: &SetTable, place: u32, own: u64, digest: u64) -> bool
    requires within { place < length table.now.entries }
    ensures { (d : Entry) → result
        ≡ not (nat_eq (D.digest own
        (slice_index_or table.now.entries place d).key) digest) }
{
    match table.entry(place) {
        Some((key, _)) => D::digest(own, key) != digest,
        None => true,
    }
}

/// Whether no set of a session has that digest.
pub fn lacks_digest<D: Digest>(table: &SetTable, own: u64, digest: u64) -> bool
    ensures lacks { result ≡ true → LacksDigest (D.digest own)
        digest table.now.entries }
    ensures has { result ≡ false → LacksDigest (D.digest own)
        digest table.now.entries → ⊥ }
{
    for place in 0..table.len() {
        if !differs::<D>(table, place, own, digest) {
            return false;
        }
    }
    true
}

/// Puts the pair of a session's set at a place at the end, where there is one.
fn gather_one<D: Digest>(
    pairs: &mut Vec<Pair>,
    table: &SetTable,
    place: u32,
    own: u64,
    number: u64,
) -> Result<(), Memory>
    requires within { place < length table.now.entries }
    ensures gains { OnOk result (Gains pairs.old.items pairs.new.items) }
    ensures gathered { OnOk result ((d : Entry)
        → AreGathered (D.digest own) pairs.new.items number
        (slice_index_or table.now.entries place d ∷ [])) }
{
    if let Some((key, _)) = table.entry(place) {
        let pair = Pair {
            digest: D::digest(own, key),
            number,
        };
        let Ok(()) = pairs.push(pair) else {
            return Err(Memory);
        };
    }
    Ok(())
}

/// Puts the pairs of all sets of a session at the end.
fn gather<D: Digest>(
    pairs: &mut Vec<Pair>,
    table: &SetTable,
    own: u64,
    number: u64,
) -> Result<(), Memory>
    ensures gains { OnOk result (Gains pairs.old.items pairs.new.items) }
    ensures gathered { OnOk result
        (AreGathered (D.digest own)
        pairs.new.items number table.now.entries) }
{
    for place in 0..table.len() {
        let Ok(()) = gather_one::<D>(pairs, table, place, own, number) else {
            return Err(Memory);
        };
    }
    Ok(())
}

/// Puts the pairs of a session's sets at the end, where it is idle.
fn gather_from<W: World, S: Sitting<W>, D: Digest>(
    pairs: &mut Vec<Pair>,
    session: &Open<Pooled<W, S>, Spot>,
) -> Result<(), Memory>
    ensures gains { OnOk result (Gains pairs.old.items pairs.new.items) }
    ensures gathered { OnOk result
        (AreGathered (digest_by D.own D.digest (sharers_of session.now)) pairs.new.items
        session.now.number (sets_of session.now.stand)) }
{
    match &session.stand {
        Stand::Idle { pooled, .. } => gather::<D>(
            pairs,
            pooled.table(),
            own_of::<W, S, D>(session),
            session.number,
        ),
        Stand::Out { .. } => Ok(()),
    }
}

/// Puts the pairs of the sets of all idle sessions at the end.
pub fn gather_all<W: World, S: Sitting<W>, D: Digest>(
    pairs: &mut Vec<Pair>,
    berths: &[Berth<Open<Pooled<W, S>, Spot>>],
) -> Result<(), Memory>
    ensures gathered { OnOk result
        (All (λ b. AreGathered (digest_by D.own D.digest (sharers_of b.session))
        pairs.new.items b.session.number (sets_of b.session.stand)) berths.now) }
{
    for berth in berths {
        let Ok(()) = gather_from::<W, S, D>(pairs, &berth.session) else {
            return Err(Memory);
        };
    }
    Ok(())
}
