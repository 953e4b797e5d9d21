//! The keys that a session searched last, by the names of their result sets.

ghost use Rattle.std.specs.Prelude.{◌≡◌, ◌≤◌, ◌∷◌, OnOk, OnErr, option_copied};
ghost use Rattle.std.specs.Vec.{vec_capacity, vec_len};
ghost use Rattle.cache_backend.specs.Known.{known_under, without};

use z_types::{Memory, SetKey, Text};

/// The key that was searched last under a name.
#[derive(Drop)]
pub struct Searched {
    /// The result set's name.
    pub name: Text,
    /// Its databases and query.
    pub key: SetKey,
}

/// Puts a key under its name, in the place of what the name had. Without memory nothing is changed.
pub(crate) fn remember(searched: &mut Vec<Searched>, own: Searched) -> Result<(), Memory>
    ensures ok { OnOk result (searched.new.items ≡ own ∷ without own.name searched.old.items) }
    ensures err { OnErr result (searched.new.items ≡ searched.old.items) }
{
    searched.reserve(1)?;
    forget(searched, &own.name);
    match searched.insert(0, own) {
        Ok(()) => Ok(()),
        Err(_) => unreachable!(),
    }
}

/// Leaves a name without a key.
fn forget(searched: &mut Vec<Searched>, name: &Text)
    ensures keys { searched.new.items ≡ without name.now searched.old.items }
    ensures shorter { vec_len searched.new ≤ vec_len searched.old }
    ensures room { vec_capacity searched.new ≡ vec_capacity searched.old }
{
    searched.retain(|known| known.name != *name);
}

/// The key that was searched last under a name.
pub(crate) fn known<'a>(searched: &'a [Searched], name: &Text) -> Option<&'a SetKey>
    ensures { option_copied result ≡ known_under searched.now name.now }
{
    for own in searched {
        if own.name == *name {
            return Some(&own.key);
        }
    }
    None
}
