//! The Init service (ANSI/NISO Z39.50-2003, 3.2.1).

ghost use Rattle.std.specs.Prelude.{◌≡◌, IfOk};
ghost use Rattle.unit_forms.specs.Logins.{IsLoginIf};
ghost use Rattle.access_rules.specs.Whose.{user_of};
ghost use Rattle.gateway_rules.specs.Replies.{init_answer, init_reply, is_accepted};

use access_rules::{Who, user_of};
use route_config::Route;
use z_types::{Init, MOST_UNIT_OCTETS, Memory, OWN_OPTIONS, OWN_VERSIONS, Reply, copy};

/// The most octets of a message and of a record.
pub(crate) const OWN_SIZE: u32 = MOST_UNIT_OCTETS;

/// The reply to an Init.
pub fn init_reply(route: &Route, init: &Init) -> Result<Reply, Memory>
    requires login { IsLoginIf init.now.login }
    ensures { IfOk result (λ reply. reply ≡ init_reply route.now init.now) }
{
    init_answer(init, is_accepted(route, init))
}

/// The answer to an Init that is accepted, or is not.
pub fn init_answer(init: &Init, accepted: bool) -> Result<Reply, Memory>
    ensures { IfOk result (λ reply. reply ≡ init_answer init.now accepted) }
{
    Ok(Reply::Init {
        init: Init {
            ref_id: copy(&init.ref_id)?,
            versions: init.versions & OWN_VERSIONS,
            options: init.options & OWN_OPTIONS,
            preferred: init.preferred.min(OWN_SIZE),
            exceptional: init.exceptional.min(OWN_SIZE),
            login: None,
        },
        result: accepted,
    })
}

/// Whether a version is common and the route knows whose the login is, so that the session is
/// accepted.
pub fn is_accepted(route: &Route, init: &Init) -> bool
    requires login { IsLoginIf init.now.login }
    ensures { result ≡ is_accepted route.now init.now }
{
    init.versions & OWN_VERSIONS != 0 && whose(route, init).is_known()
}

/// Whose a client is by its Init.
pub(crate) fn whose(route: &Route, init: &Init) -> Who
    requires login { IsLoginIf init.now.login }
    ensures { result ≡ user_of route.now init.now.login }
{
    user_of(route, init.login.as_ref())
}
