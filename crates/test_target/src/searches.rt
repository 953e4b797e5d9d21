//! How a peer answers a Search.

ghost use Rattle.std.specs.Prelude.{◌≡◌, ◌∷◌, Ok, IfOk, OnOk};
ghost use Rattle.test_target.specs.Peer.{search_reply, search_failed, searched, sets_after_search};

use crate::peers::Peer;
use crate::worlds::search_at;
use gw_outside::TargetAnswer;
use std::alloc::Global;
use z_types::{Asked, Body, Diag, Memory, Reply, RpnQuery, Search, SetKey, Text, copy};

/// The reply to a Search of a target that answers as that of this number; it puts its name or removes it.
pub(crate) fn search_reply(
    alloc: Global,
    peer: &mut Peer,
    number: u32,
    search: &Search,
) -> Result<Reply, Memory>
    ensures reply { IfOk result
        (λ reply. reply ≡ search_reply number search.now search.now.query) }
    ensures sets { OnOk result (peer.new.sets.items ≡ sets_after_search
        number search.now search.now.query peer.old.sets.items) }
    ensures target { peer.new.target ≡ peer.old.target }
    ensures login { peer.new.login ≡ peer.old.login }
{
    let ref_id = copy(&search.ref_id)?;
    peer.remove(&search.set_name);
    match &search.query {
        Asked::Bad(diag) => Ok(search_failed(ref_id, copy(diag)?)),
        Asked::Good(query) => match search_at(alloc, number, &search.dbs, query) {
            TargetAnswer::Good(hits) => {
                hold(peer, search, query)?;
                Ok(found(ref_id, hits))
            }
            TargetAnswer::Refused(diag) => Ok(search_failed(ref_id, diag)),
            TargetAnswer::Memory => Err(Memory),
        },
    }
}

/// Holds the set of a search under its name, before the others.
fn hold(peer: &mut Peer, search: &Search, query: &RpnQuery) -> Result<(), Memory>
    ensures sets { OnOk result (peer.new.sets.items ≡ (
      search.now.set_name,
      record { dbs = search.now.dbs; query = query.now },
    ) ∷ peer.old.sets.items) }
    ensures target { peer.new.target ≡ peer.old.target }
    ensures login { peer.new.login ≡ peer.old.login }
{
    let key = SetKey {
        dbs: copy(&search.dbs)?,
        query: copy(query)?,
    };
    peer.sets.insert(0, (copy(&search.set_name)?, key))?;
    Ok(())
}

/// The reply to a search that found `hits` records.
fn found(ref_id: Option<Text>, hits: u32) -> Reply
    ensures { result ≡ searched ref_id (Ok hits) }
{
    Reply::Search {
        ref_id,
        count: hits,
        returned: 0,
        next: hits.min(1),
        ok: true,
        status: None,
        body: Body::None,
    }
}

/// The reply to a search that failed.
fn search_failed(ref_id: Option<Text>, diag: Diag) -> Reply
    ensures { result ≡ search_failed ref_id diag }
{
    Reply::Search {
        ref_id,
        count: 0,
        returned: 0,
        next: 0,
        ok: false,
        status: None,
        body: Body::Diag(diag),
    }
}
