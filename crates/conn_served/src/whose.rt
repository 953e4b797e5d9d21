//! Whose a connection was.

use front_conn_costs::front_conn::gateway_rules::access_rules::Who;
use gw_outside::Whose;
use route_config::Route;

/// Whose a connection was, where the route knows users: by the Init that was accepted, or else how many units, all
/// of them Inits, were refused.
pub fn whose_of(route: &Route, accepted: Option<Who>, units: u32) -> Whose<'_> {
    let users = &route.parts().users;
    match accepted {
        _ if users.is_empty() => Whose::Untold,
        Some(Who::User(at)) => match users.get(at as usize) {
            Some(user) => Whose::User(&user.name),
            None => Whose::Untold,
        },
        Some(Who::Anonymous) => Whose::Anonymous,
        Some(Who::Refused) | None if units > 0 => Whose::Refused(units),
        _ => Whose::Untold,
    }
}
