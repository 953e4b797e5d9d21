//! That a request's legs have somewhere to go.

ghost use Rattle.package_rules.specs.Truth.{HaveMembers};

use route_config::Route;

/// Each class of a route has a member: the type of a class's addresses keeps it, and this tells it. The
/// loop does nothing.
pub fn have_members(route: &Route)
    ensures { HaveMembers route.now }
{
    for class in route.parts().classes.as_slice() {
        let _ = class.addresses.as_slice();
    }
}
