//! Targets that are no test targets, of which a replay asks none.

ghost use Rattle.std.specs.Prelude.{◌≡◌, not, find};
ghost use Rattle.std.specs.Option.{option_copied};
ghost use Rattle.gateway_top.specs.Targets.{is_test, first_real};

use route_config::{Route, Target};
use z_types::{Address, Text};

/// The name of the first target that is no test target.
pub(crate) fn first_real(route: &Route) -> Option<&Text>
    ensures { option_copied result ≡ first_real route.now }
{
    Some(&real_target(route)?.name)
}

/// The first target that is no test target.
fn real_target(route: &Route) -> Option<&Target>
    ensures { option_copied result ≡
        find (λ target. not (is_test target.address)) route.now.targets }
{
    route
        .parts()
        .targets
        .as_slice()
        .iter()
        .find(|target| !is_test(&target.address))
}

/// Whether an address is a test target's.
fn is_test(address: &Address) -> bool
    ensures { result ≡ is_test address.now }
{
    match address {
        Address::Test(_) => true,
        Address::Tcp(_, _) | Address::Login(_, _) => false,
    }
}
