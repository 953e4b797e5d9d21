//! A search whose records are shown, as one work.

ghost use Rattle.std.specs.Prelude.{◌≡◌, ◌∷◌, [], IfOk};
ghost use Rattle.flight_tests.specs.Flown.{MayBegin};

use crate::asks::query;
use route_config::Route;
use std::alloc::Global;
use z_types::{List, Memory, RpnQuery, Work};

/// The first three legs of a route.
fn three_legs(alloc: Global) -> Result<List<u32>, Memory>
    ensures { IfOk result (λ legs. legs ≡ 0 ∷ 1 ∷ 2 ∷ []) }
{
    let mut legs = List::new(alloc);
    legs.push(0)?;
    legs.push(1)?;
    legs.push(2)?;
    Ok(legs)
}

/// The search for `a` as title over the first three legs of a route, with up to four records shown.
pub(crate) fn search_of_three(alloc: Global, route: &Route) -> Result<Work, Memory>
    ensures { IfOk result (MayBegin route.now) }
{
    if route.parts().legs.len() < 3 {
        return Err(Memory);
    }
    Ok(Work::Search {
        login: None,
        legs: three_legs(alloc)?,
        query: query(alloc)?,
        small: 4,
        large: 5,
        medium: 0,
        small_element: None,
        medium_element: None,
        syntax: None,
        room: 4,
    })
}
