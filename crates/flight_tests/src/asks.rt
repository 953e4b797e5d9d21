//! Legs for hits.

ghost use Rattle.std.specs.Prelude.{ℕ, ◌<◌, ◌≤◌, [], All, IfOk, length};
ghost use Rattle.gw_outside.specs.Asks.{AreFewShort, HasNoSet, MaySearch};
ghost use Rattle.z_sets.specs.Askable.{IsAskableQuery};
ghost use Rattle.package.specs.leg.Turns.{IsLegOf};
ghost use Rattle.flight_tests.specs.Flown.{IsOneAttribute};

use package::leg::{Job, Leg, LegAsk};
use route_config::Route;
use std::alloc::Global;
use z_types::{Attr, List, Memory, Oid, Rpn, RpnQuery, SetKey, Sitting, Term, Text, World};

/// One database.
fn database(alloc: Global, name: &[u8]) -> Result<List<Text>, Memory>
    requires { length name.now ≤ 7 }
    ensures { IfOk result AreFewShort }
{
    let mut dbs = List::new(alloc);
    dbs.push(Text::copy_of(alloc, name)?)?;
    Ok(dbs)
}

/// The attribute Use of bib-1 with the value title.
fn title(alloc: Global) -> Result<List<Attr>, Memory>
    ensures { IfOk result IsOneAttribute }
{
    let mut attrs = List::new(alloc);
    attrs.push(Attr {
        set: None,
        kind: 1,
        value: 4,
    })?;
    Ok(attrs)
}

/// The query for `a` as title.
pub(crate) fn query(alloc: Global) -> Result<RpnQuery, Memory>
    ensures plain { IfOk result IsAskableQuery }
    ensures no_set { IfOk result (λ query. HasNoSet query.root) }
{
    let attr_set = Oid::copy_of(alloc, &[1, 2, 840, 10003, 3, 1])?;
    let term = Term::General(Text::copy_of(alloc, b"a")?);
    let root = Rpn::leaf(title(alloc)?, term);
    Ok(RpnQuery { attr_set, root })
}

/// The key of `a` as title in a database.
fn key_of(alloc: Global, name: &[u8]) -> Result<SetKey, Memory>
    requires { length name.now ≤ 7 }
    ensures { IfOk result (MaySearch []) }
{
    Ok(SetKey {
        dbs: database(alloc, name)?,
        query: query(alloc)?,
    })
}

/// The leg of this place in the route, which is to find how many records have `a` as title in a database.
fn hits_leg<W: World, S: Sitting<W>>(
    alloc: Global,
    route: &Route,
    place: u32,
    name: &[u8],
) -> Result<Leg<W, S>, Memory>
    requires there { place < length route.now.legs }
    requires short { length name.now ≤ 7 }
    ensures { (most : ℕ) → IfOk result (IsLegOf W.World S.Sitting route.now most) }
{
    Ok(Leg::new(LegAsk {
        leg: place,
        login: None,
        key: Some(key_of(alloc, name)?),
        job: Job::Hits,
    }))
}

/// The legs for the hits of `a` as title in these databases, in the order of the route's legs.
pub(crate) fn hits_legs<W: World, S: Sitting<W>>(
    alloc: Global,
    route: &Route,
    names: &[&[u8]],
) -> Result<List<Leg<W, S>>, Memory>
    ensures { (most : ℕ) → IfOk result (All (IsLegOf W.World S.Sitting route.now most)) }
{
    let mut legs = List::new(alloc);
    for (place, name) in names.iter().enumerate() {
        let Ok(leg) = u32::try_from(place) else {
            return Err(Memory);
        };
        if route.parts().legs.len() <= place || 7 < name.len() {
            return Err(Memory);
        }
        legs.push(hits_leg(alloc, route, leg, name)?)?;
    }
    Ok(legs)
}
