//! Where a leg goes.

ghost use Rattle.std.specs.Prelude.{◌≡◌, option_map};
ghost use Rattle.virt_db.specs.Legs.{leg_at};
ghost use Rattle.virt_db.specs.Lent.{lent_leg};

use route_config::{Class, Database, Route};
use z_types::{Address, List, Text};

/// Where a leg goes, and what it is of, lent from the route.
#[derive(Drop)]
pub struct LentLeg<'a> {
    /// The virtual database that it is of.
    pub database: &'a Database,
    /// The class that it goes to.
    pub class: &'a Class,
    /// The address of the class's first member.
    pub address: &'a Address,
    /// The databases that it is there, as the target names them.
    pub dbs: &'a List<Text>,
}

/// The leg at a place of the route, counted from 0; `None` where the route has no such leg.
pub fn leg_at(route: &Route, place: u32) -> Option<LentLeg<'_>>
    ensures { option_map lent_leg result ≡ leg_at route.now place }
{
    let parts = route.parts();
    let leg = parts.legs.get(place as usize)?;
    let database = parts.databases.get(leg.database as usize)?;
    let class = parts.classes.get(leg.class as usize)?;
    let address = class.addresses.get(0)?;
    Some(LentLeg {
        database,
        class,
        address,
        dbs: &leg.databases,
    })
}
