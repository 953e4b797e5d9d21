//! The digests of keys in order, with the numbers of the sessions that hold sets of them.

ghost use Rattle.std.specs.Prelude.{◌≡◌, ◌≤◌, true, false, [], ◌∷◌, length, Contains, if◌then◌else◌};
ghost use Rattle.std.specs.List.{insert};
ghost use Rattle.std.specs.List.Sorted.{IsPartitionPoint, IsNonDecreasingBy, IsPermutation};
ghost use Rattle.pool_keys.specs.Pairs.{rank, is_before, IsAt, Holds, Grows, GainsAtMost, IsNext};

use std::alloc::Global;
use std::marker::Model;
use std::mem;
use z_types::Memory;

/// The digest of a key, and the number of a session that may hold a set of it.
#[derive(Clone, Copy, Drop)]
pub struct Pair {
    /// The digest.
    pub digest: u64,
    /// The number of the session.
    pub number: u64,
}

/// Pairs of digests and numbers, in order. It may hold pairs of sets that no longer stand; where it is
/// whole, it lacks none that was put in.
#[derive(Drop)]
pub struct KeyIndex {
    pairs: Vec<Pair>,
    whole: bool,
}

impl Model for KeyIndex {
    ghost use Rattle.std.specs.List.Sorted.{IsNonDecreasingBy};
    ghost use Rattle.pool_keys.specs.Pairs.{Indexed, rank};

    ghost Value = { Indexed };

    ghost view = { λ i. record { pairs = i.pairs.items; whole = i.whole } };

    ghost invariant = { λ i. IsNonDecreasingBy rank i.pairs.items };
}

/// The place of a pair in the order of all pairs.
fn rank(pair: Pair) -> u128
    ensures { result ≡ rank pair }
{
    u128::from(pair.digest) * 18_446_744_073_709_551_616 + u128::from(pair.number)
}

/// How many pairs stand before that one.
fn place(pairs: &[Pair], pair: Pair) -> usize
    requires order { IsNonDecreasingBy rank pairs.now }
    ensures bound { result ≤ length pairs.now }
    ensures point { IsPartitionPoint (λ p. is_before pair p ≡ true) (λ p. is_before pair p ≡ false)
        pairs.now result }
{
    let wanted = rank(pair);
    pairs.partition_point(|p| rank(*p) < wanted)
}

/// Whether that pair stands at its place; where it does not, it stands nowhere.
fn is_at(pairs: &[Pair], place: usize, pair: Pair) -> bool
    requires order { IsNonDecreasingBy rank pairs.now }
    requires point { IsPartitionPoint (λ p. is_before pair p ≡ true) (λ p. is_before pair p ≡ false)
        pairs.now place }
    ensures at { result ≡ true → IsAt pairs.now place pair }
    ensures nowhere { result ≡ false → Contains pairs.now pair → ⊥ }
{
    if place >= pairs.len() {
        return false;
    }
    let there = pairs[place];
    there.digest == pair.digest && there.number == pair.number
}

/// Puts a pair in at a place where there is room for it, and answers whether there was.
fn put_in(pairs: &mut Vec<Pair>, place: usize, pair: Pair) -> bool
    requires within { place ≤ length pairs.old.items }
    ensures { pairs.new.items
        ≡ (if result then insert pairs.old.items place pair else pairs.old.items) }
{
    pairs.len() < pairs.capacity() && pairs.insert(place, pair).is_ok()
}

/// Puts pairs in order.
fn sort(pairs: &mut [Pair])
    ensures order { IsNonDecreasingBy rank pairs.new }
    ensures same { IsPermutation pairs.old pairs.new }
{
    pairs.sort_unstable_by_key(|p| rank(*p));
}

impl KeyIndex {
    /// An index of nothing, which is whole. It takes no memory.
    pub fn new(alloc: Global) -> KeyIndex
        ensures { result ≡ (record { pairs = []; whole = true }) }
    {
        KeyIndex {
            pairs: Vec::new(alloc),
            whole: true,
        }
    }

    /// Whether it lacks no pair.
    pub fn is_whole(&self) -> bool
        ensures { result ≡ self.now.whole }
    {
        self.whole
    }

    /// The least number from that one on that stands with a digest, where it is whole.
    pub fn next(&self, digest: u64, from: u64) -> Option<u64>
        ensures { IsNext self.now digest from result }
    {
        let wanted = Pair {
            digest,
            number: from,
        };
        let place = place(self.pairs.as_slice(), wanted);
        if place >= self.pairs.len() {
            return None;
        }
        let there = self.pairs[place];
        if there.digest != digest {
            return None;
        }
        Some(there.number)
    }

    /// Puts a pair in. Where there is no room for it, the index is no longer whole.
    pub fn admit(&mut self, pair: Pair)
        ensures holds { Holds self.new pair }
        ensures grows { Grows self.old self.new }
        ensures only { GainsAtMost self.old pair self.new }
        ensures lacks { self.old.whole ≡ false → self.new ≡ self.old }
        ensures full { self.new.whole ≡ false → self.new.pairs ≡ self.old.pairs }
    {
        if !self.whole {
            return;
        }
        let place = place(self.pairs.as_slice(), pair);
        if is_at(self.pairs.as_slice(), place, pair) {
            return;
        }
        self.whole = put_in(&mut self.pairs, place, pair);
    }

    /// Takes a pair out where it stands, once, and answers whether it stood there.
    pub fn take_out(&mut self, pair: Pair) -> bool
        ensures taken { result ≡ true → IsPermutation self.old.pairs (pair ∷ self.new.pairs) }
        ensures nowhere { result ≡ false → Contains self.old.pairs pair → ⊥ }
        ensures same { result ≡ false → self.new ≡ self.old }
        ensures whole { self.new.whole ≡ self.old.whole }
    {
        let place = place(self.pairs.as_slice(), pair);
        if !is_at(self.pairs.as_slice(), place, pair) {
            return false;
        }
        self.pairs.remove(place);
        true
    }

    /// Takes all pairs out, and gives their room back without them. The index lacks pairs then.
    pub fn emptied(&mut self, alloc: Global) -> Vec<Pair>
        ensures room { result.items ≡ [] }
        ensures lacks { self.new ≡ (record { pairs = []; whole = false }) }
    {
        self.whole = false;
        let mut room = mem::replace(&mut self.pairs, Vec::new(alloc));
        room.clear();
        room
    }

    /// Takes all pairs out. The index lacks pairs then.
    pub fn forget(&mut self)
        ensures lacks { self.new ≡ (record { pairs = []; whole = false }) }
    {
        self.whole = false;
        self.pairs.clear();
    }

    /// Holds these pairs in place of its own, in order, and is whole.
    pub fn refill(&mut self, mut pairs: Vec<Pair>)
        ensures pairs { IsPermutation pairs.items self.new.pairs }
        ensures whole { self.new.whole ≡ true }
    {
        sort(pairs.as_mut_slice());
        self.pairs = pairs;
        self.whole = true;
    }

    /// Makes room for that many more pairs.
    pub fn reserve(&mut self, more: usize) -> Result<(), Memory>
        ensures { self.new ≡ self.old }
    {
        self.pairs.reserve(more)?;
        Ok(())
    }
}
