//! What a session waits for, and the result sets that it made.

ghost use Rattle.std.specs.Prelude.{◌≡◌, ◌≤◌, ℕ, List, ◌∷◌, OnOk, OnErr, if◌then◌else◌};
ghost use Rattle.std.specs.Vec.{vec_capacity, vec_len};
ghost use Rattle.z_types.specs.Same.{is_same};
ghost use Rattle.gw_outside.specs.Sessions.{made_by, made_after};
ghost use Rattle.z_client.specs.Sets.{pending_of, made_in, without};

use gw_outside::Heard;
use z_types::{Ask, Memory, SetKey, Text};

/// What a session waits for.
#[derive(Drop)]
pub enum Waiting {
    /// Nothing: it rests.
    Nothing,
    /// The reply to its Init.
    Opening,
    /// The reply to an ask.
    Answer(Ask),
    /// Nothing more: a call failed or had no memory.
    Broken,
}

/// The result set of a search that succeeded.
#[derive(Drop)]
pub struct FoundSet {
    /// Its name.
    pub name: Text,
    /// Its databases and query.
    pub key: SetKey,
    /// How many records it has.
    pub hits: u32,
}

/// Keeps what was heard of what was waited for: the set of a search that succeeded takes the place of
/// what its name had, and one that was refused leaves its name without a set. Without memory nothing is
/// changed.
pub(crate) fn keep(sets: &mut Vec<FoundSet>, waited: Waiting, heard: &Heard) -> Result<(), Memory>
    ensures ok { (name : List ℕ) → OnOk result (made_in sets.new.items name
        ≡ made_after (pending_of waited) heard.now (made_in sets.old.items) name) }
    ensures err { OnErr result (sets.new.items ≡ sets.old.items) }
{
    match waited {
        Waiting::Answer(Ask::Search { name, key }) => keep_search(sets, name, key, heard),
        _ => Ok(()),
    }
}

/// Keeps what was heard of a search.
#[tactic(auto, using(crate::proofs::SetsLemmas::put_in_front, crate::proofs::SetsLemmas::made_without))]
fn keep_search(
    sets: &mut Vec<FoundSet>,
    name: Text,
    key: SetKey,
    heard: &Heard,
) -> Result<(), Memory>
    ensures ok { (other : List ℕ) → OnOk result (made_in sets.new.items other
        ≡ (if is_same name other then made_by key heard.now (made_in sets.old.items other)
        else made_in sets.old.items other)) }
    ensures err { OnErr result (sets.new.items ≡ sets.old.items) }
{
    match heard {
        Heard::Hits(hits) => {
            let hits = *hits;
            put(sets, FoundSet { name, key, hits })
        }
        Heard::Refused(_) => {
            forget(sets, &name);
            Ok(())
        }
        _ => Ok(()),
    }
}

/// Puts a set under its name, in the place of what the name had.
fn put(sets: &mut Vec<FoundSet>, set: FoundSet) -> Result<(), Memory>
    ensures ok { OnOk result (sets.new.items ≡ set ∷ without set.name sets.old.items) }
    ensures err { OnErr result (sets.new.items ≡ sets.old.items) }
{
    sets.reserve(1)?;
    forget(sets, &set.name);
    match sets.insert(0, set) {
        Ok(()) => Ok(()),
        Err(_) => unreachable!(),
    }
}

/// Leaves a name without a set.
fn forget(sets: &mut Vec<FoundSet>, name: &Text)
    ensures sets { sets.new.items ≡ without name.now sets.old.items }
    ensures shorter { vec_len sets.new ≤ vec_len sets.old }
    ensures room { vec_capacity sets.new ≡ vec_capacity sets.old }
{
    sets.retain(|set| set.name != *name);
}
