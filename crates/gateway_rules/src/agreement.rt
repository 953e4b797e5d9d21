//! What an Init settles for the requests behind it (ANSI/NISO Z39.50-2003, 3.2.1.1).

ghost use Rattle.std.specs.Prelude.{◌≡◌, IfOk};
ghost use Rattle.unit_forms.specs.Logins.{AsksWithLogin, IsLoginIf};
ghost use Rattle.gateway_rules.specs.Settling.{agreed_by, login_among, settled_by};
ghost use Rattle.gateway_rules.specs.State.{no_agreement};

use crate::init::whose;
use crate::{Sizes, is_accepted};
use access_rules::Who;
use route_config::Route;
use z_types::{Init, Memory, Request, Text, copy};

/// What an Init that was accepted has settled.
#[derive(Drop)]
pub struct Agreement {
    /// The sizes that it was answered with.
    pub sizes: Sizes,
    /// Whose the client is, by its login.
    pub whose: Who,
    /// Its login, where it had one and the route has no users: users whom the gateway knows share
    /// what it asks of targets.
    pub login: Option<Text>,
}

impl Agreement {
    /// What is settled where no Init was accepted. It takes no memory.
    pub fn none() -> Agreement
        ensures { result ≡ no_agreement }
    {
        Agreement {
            sizes: Sizes {
                preferred: 0,
                exceptional: 0,
            },
            whose: Who::Anonymous,
            login: None,
        }
    }
}

/// What a request settles, where it is an Init that is accepted.
pub fn agreed_by(route: &Route, request: &Request) -> Result<Option<Agreement>, Memory>
    requires login { AsksWithLogin request.now }
    ensures { IfOk result (λ agreed. agreed ≡ agreed_by route.now request.now) }
{
    match request {
        Request::Init(init) => {
            if !is_accepted(route, init) {
                return Ok(None);
            }
            Ok(Some(settled_by(route, init)?))
        }
        _ => Ok(None),
    }
}

/// What an Init settles that is accepted.
fn settled_by(route: &Route, init: &Init) -> Result<Agreement, Memory>
    requires login { IsLoginIf init.now.login }
    ensures { IfOk result (λ agreed. agreed ≡ settled_by route.now init.now) }
{
    Ok(Agreement {
        sizes: Sizes::agreed(init),
        whose: whose(route, init),
        login: login_among(route, &init.login)?,
    })
}

/// The login that is kept of a client: none where the route has users.
fn login_among(route: &Route, login: &Option<Text>) -> Result<Option<Text>, Memory>
    ensures { IfOk result (λ kept. kept ≡ login_among route.now.users login.now) }
{
    match route.parts().users.as_slice() {
        [] => copy(login),
        [_, ..] => Ok(None),
    }
}
