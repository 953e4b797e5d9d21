//! Keys with digests, by which entries are found.

ghost use Rattle.std.specs.Prelude.{◌≡◌};
ghost use Rattle.record_cache.specs.Digests.{digest_of, digested_input, same_input};

use crate::RecordKey;
use crate::seed::Seed;
use std::hash::{Hash, Hasher};

/// A key with what a seed makes of all its parts but the position. A digest is made once for a run, each of
/// whose keys is hashed by it and its position alone.
#[derive(PartialEq, Eq, Drop)]
pub(crate) struct Digested {
    /// What the seed makes of the parts.
    pub(crate) digest: u64,
    /// The key.
    pub(crate) key: RecordKey,
}

impl Digested {
    /// A key with its digest.
    pub(crate) fn new(key: RecordKey, seed: &Seed) -> Digested
        ensures key { result.key ≡ key }
        ensures digest { result.digest ≡ digest_of seed.now key }
    {
        let digest = seed.digest(&key);
        Digested { digest, key }
    }
}

impl Hash for Digested {
    ghost hash_input = { digested_input };

    ghost respects_eq = { same_input };

    fn hash<H: Hasher>(&self, state: &mut H) {
        state.write_u64(self.digest);
        state.write_u64(self.key.position as u64);
    }
}
