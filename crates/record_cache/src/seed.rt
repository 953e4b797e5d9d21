//! What the digests of keys begin from.

ghost use Rattle.std.specs.Prelude.{◌≡◌};
ghost use Rattle.record_cache.specs.Digests.{digest_of};
ghost use Rattle.record_cache.specs.Seeds.{first_state};

use crate::RecordKey;
use crate::hashed::hash_parts;
use std::hash::{BuildHasher, DefaultHasher, Hasher, RandomState};

/// What the digests of a store begin from.
#[derive(Clone, Copy)]
pub(crate) enum Seed {
    /// The same in each run.
    Fixed,
    /// What was drawn for this run.
    Drawn(RandomState),
}

impl Seed {
    /// A hasher that was fed nothing.
    fn hasher(&self) -> DefaultHasher
        ensures { result ≡ first_state self.now }
    {
        match self {
            Seed::Fixed => DefaultHasher::new(),
            Seed::Drawn(state) => state.build_hasher(),
        }
    }

    /// The digest of all parts of a key but its position.
    pub(crate) fn digest(&self, key: &RecordKey) -> u64
        ensures { result ≡ digest_of self.now key.now }
    {
        let mut state = self.hasher();
        hash_parts(key, &mut state);
        state.finish()
    }
}
