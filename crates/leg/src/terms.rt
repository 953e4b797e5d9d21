//! What a route says of a leg, and who asks there.

ghost use Rattle.std.specs.Prelude.{◌≡◌, ◌<◌, length};
ghost use Rattle.z_types.specs.Members.{AreMembers};
ghost use Rattle.gw_outside.specs.Asks.{AreFewShort};
ghost use Rattle.route_config.specs.Sound.{ArePoolNumbers};
ghost use Rattle.leg.specs.Terms.{terms_of, lent_terms};

use route_config::{PoolNumbers, Route};
use z_types::{Address, List, Text};

/// What a route says of a leg, and who asks there, lent.
#[derive(Drop)]
pub struct LentTerms<'a> {
    /// The class that it goes to.
    pub class: u32,
    /// The login of who asks, or none.
    pub login: &'a Option<Text>,
    /// The addresses of the class's members.
    pub at: &'a [Address],
    /// The databases that it is there.
    pub dbs: &'a List<Text>,
    /// The numbers of the pool.
    pub pool: PoolNumbers,
}

/// What a route says of the leg at a place, for a login.
pub(crate) fn terms_of<'a>(route: &'a Route, login: &'a Option<Text>, leg: u32) -> LentTerms<'a>
    requires { leg < length route.now.legs }
    ensures terms { lent_terms result ≡ terms_of route.now login.now leg }
    ensures members { AreMembers (terms_of route.now login.now leg).at }
    ensures dbs { AreFewShort (terms_of route.now login.now leg).dbs }
    ensures pool { ArePoolNumbers (terms_of route.now login.now leg).pool }
{
    let parts = route.parts();
    let leg = &parts.legs.as_slice()[leg as usize];
    let class = &parts.classes.as_slice()[leg.class as usize];
    LentTerms {
        class: leg.class,
        login,
        at: class.addresses.as_slice(),
        dbs: &leg.databases,
        pool: parts.pool,
    }
}
