//! Sessions with targets, opened and searched.

ghost use Rattle.std.specs.Prelude.{◌≡◌, ◌≤◌, Some, Ok, IfOk};
ghost use Rattle.z_types.specs.Bounds.{most_number};
ghost use Rattle.z_types.specs.Pending.{resting};
ghost use Rattle.z_types.specs.declared.ask.Ask.TheVariants.{Search};
ghost use Rattle.unit_forms.specs.Logins.{HasLogin};
ghost use Rattle.gw_outside.specs.Asks.{MaySearch};
ghost use Rattle.pool_sets.specs.Kept.{slot_name};

use gw_outside::{Backend, Began, Heard, Opening};
use pool_sets::{Parts, Pooled, SetTable};
use std::alloc::Global;
use z_types::{Address, Ask, List, Memory, Oid, Rpn, RpnQuery, SetKey, Term, Text, World, copy};

/// The key of a search for a number, which names no databases.
pub(crate) fn key_for(alloc: Global, number: i64) -> Result<SetKey, Memory>
    ensures { IfOk result (λ key. MaySearch (slot_name 0) key) }
{
    let attr_set = Oid::copy_of(alloc, &[1, 2, 840, 10003, 3, 1])?;
    let root = Rpn::leaf(List::new(alloc), Term::Number(number));
    Ok(SetKey {
        dbs: List::new(alloc),
        query: RpnQuery { attr_set, root },
    })
}

/// A session at an address, which rests.
fn open_at<W: World, B: Backend<W>>(
    alloc: Global,
    backend: &mut B,
    address: &Address,
) -> Result<B::Session, Memory>
    requires login { HasLogin address.now }
    ensures rests { IfOk result (λ session. B.Session.pending session ≡ resting) }
    ensures address { IfOk result (λ session. B.Session.address session ≡ address.now) }
{
    let Opening::Session(mut session) = backend.open_(alloc, address) else {
        return Err(Memory);
    };
    match backend.look(alloc, &mut session) {
        Heard::Opened => Ok(session),
        _ => Err(Memory),
    }
}

/// A search for the key under the name of the first slot.
fn ask_for(alloc: Global, key: &SetKey) -> Result<Ask, Memory>
    ensures { IfOk result (λ ask. ask ≡ Search (slot_name 0) key.now) }
{
    Ok(Ask::Search {
        name: Text::copy_of(alloc, b"0")?,
        key: copy(key)?,
    })
}

/// The hits of a search under the name of the first slot.
#[tactic(auto, using(crate::proofs::KeyLemmas::made_there, crate::proofs::KeyLemmas::count_there))]
fn search<W: World, B: Backend<W>>(
    alloc: Global,
    backend: &mut B,
    session: &mut B::Session,
    key: &SetKey,
) -> Result<u32, Memory>
    requires rests { B.Session.pending session.old ≡ resting }
    requires may { MaySearch (slot_name 0) key.now }
    ensures rests { IfOk result (λ _. B.Session.pending session.new ≡ resting) }
    ensures made { IfOk result (λ hits.
        B.Session.made session.new (slot_name 0) ≡ Some (key.now, hits)) }
    ensures count { IfOk result (λ hits. hits ≤ most_number) }
    ensures right { IfOk result (λ hits. W.told (B.Session.address session.new)
        → W.search (B.Session.address session.new) key.now ≡ Ok hits) }
    ensures address { B.Session.address session.new ≡ B.Session.address session.old }
{
    let ask = ask_for(alloc, key)?;
    let Began::Started = backend.start(alloc, session, &ask) else {
        return Err(Memory);
    };
    match backend.look(alloc, session) {
        Heard::Hits(hits) => Ok(hits),
        _ => Err(Memory),
    }
}

/// A session at an address that searched for the key, with a table that holds its set, used at a
/// moment.
pub(crate) fn session_holding<W: World, B: Backend<W>>(
    alloc: Global,
    backend: &mut B,
    address: &Address,
    key: &SetKey,
    now: u64,
) -> Result<Pooled<W, B::Session>, Memory>
    requires login { HasLogin address.now }
    requires may { MaySearch (slot_name 0) key.now }
    ensures rests { IfOk result (λ pooled. B.Session.pending pooled.session ≡ resting) }
{
    let mut session = open_at(alloc, backend, address)?;
    let hits = search(alloc, backend, &mut session, key)?;
    let mut table = SetTable::new(alloc, 10)?;
    table.record_(0, copy(key)?, hits, now)?;
    let address = copy(address)?;
    Ok(Pooled::join(Parts {
        session,
        table,
        address,
    }))
}
