//! The result sets of a client, after a Search (ANSI/NISO Z39.50-2003, 3.2.2.1, Result-set-name).

ghost use Rattle.std.specs.Prelude.{◌≡◌, IfOk, OnOk, OnErr};
ghost use Rattle.front_session.specs.Settling.{known_after, set_name_of, sets_ended, sets_under};

use crate::settle::Pending;
use std::alloc::Global;
use z_sets::{remove_set, store_set};
use z_types::{KnownSet, List, Memory, Request, Text, Work, copy};

/// The sets behind a request with the hits that it found: a Search changes them. Without memory nothing
/// is changed.
pub(crate) fn end_sets(
    alloc: Global,
    sets: &mut List<KnownSet>,
    pending: Pending,
    is_good: bool,
    hits: List<u32>,
) -> Result<(), Memory>
    ensures ok { OnOk result (sets.new ≡ sets_ended pending is_good hits sets.old) }
    ensures err { OnErr result (sets.new ≡ sets.old) }
{
    match set_name_of(&pending.request) {
        Ok(name) => keep_under(alloc, sets, is_good, name, work_of(pending), hits),
        Err(memory) => {
            drop(pending);
            Err(memory)
        }
    }
}

/// The work of a request that waited.
fn work_of(pending: Pending) -> Work
    ensures { result ≡ pending.work }
{
    pending.work
}

/// The sets behind a request that sets this name, if any.
fn keep_under(
    alloc: Global,
    sets: &mut List<KnownSet>,
    is_good: bool,
    name: Option<Text>,
    work: Work,
    hits: List<u32>,
) -> Result<(), Memory>
    ensures ok { OnOk result (sets.new ≡ sets_under name work is_good hits sets.old) }
    ensures err { OnErr result (sets.new ≡ sets.old) }
{
    match name {
        Some(name) => keep(alloc, sets, is_good, name, work, hits),
        None => Ok(()),
    }
}

/// The name that a Search sets.
fn set_name_of(request: &Request) -> Result<Option<Text>, Memory>
    ensures { IfOk result (λ name. name ≡ set_name_of request.now) }
{
    match request {
        Request::Search(search) => Ok(Some(copy(&search.set_name)?)),
        _ => Ok(None),
    }
}

/// A good Search sets its name, and one that failed removes it; without memory nothing is changed.
fn keep(
    alloc: Global,
    sets: &mut List<KnownSet>,
    is_good: bool,
    name: Text,
    work: Work,
    hits: List<u32>,
) -> Result<(), Memory>
    ensures ok { OnOk result (sets.new ≡ known_after is_good name work hits sets.old) }
    ensures err { OnErr result (sets.new ≡ sets.old) }
{
    if !is_good {
        remove_set(alloc, sets, name.as_slice());
        drop(work);
        return Ok(());
    }
    match work {
        Work::Search { legs, query, .. } => {
            let set = KnownSet {
                name,
                legs,
                query,
                hits,
            };
            store_set(alloc, sets, set)
        }
        other => {
            drop(other);
            Ok(())
        }
    }
}
