//! Whose a connection is.

ghost use Rattle.std.specs.Prelude.{◌≡◌, ◌<◌, ◌^◌, ◌≤◌, IfSome, length};
ghost use Rattle.std.specs.List.{position};
ghost use Rattle.std.specs.Option.{option_copied};
ghost use Rattle.unit_forms.specs.Logins.{IsLoginIf};
ghost use Rattle.access_rules.specs.Lent.{lent_credentials};
ghost use Rattle.access_rules.specs.Firsts.{first_of};
ghost use Rattle.access_rules.specs.Whose as whose;

use crate::credentials::{Credentials, said_in};
use crate::equal::is_kept;
use route_config::{Route, User};
use z_types::Text;

/// Whose a connection is.
#[derive(Clone, Copy, Debug, PartialEq, Eq)]
pub enum Who {
    /// Nobody's that the route knows: it has no users, or there was no login.
    Anonymous,
    /// The user's at this place of the route.
    User(u32),
    /// A login that is none of the route's users'.
    Refused,
}

impl Who {
    ghost use Rattle.access_rules.specs.Whose.{is_known};

    /// Whether its login was not refused.
    pub fn is_known(self) -> bool
        ensures { result ≡ is_known self }
    {
        match self {
            Who::Refused => false,
            _ => true,
        }
    }
}

/// Whose a connection is whose Init had this login, if any. It takes no memory. Each password is
/// looked at to its end, whatever the login says.
pub fn user_of(route: &Route, login: Option<&Text>) -> Who
    requires login { IsLoginIf (option_copied login) }
    ensures { result ≡ whose.user_of route.now (option_copied login.entry) }
{
    let users = route.parts().users.as_slice();
    match login {
        None => Who::Anonymous,
        Some(login) => {
            if users.is_empty() {
                return Who::Anonymous;
            }
            match said_in(login.as_slice()) {
                Some(said) => user_with(users, said),
                None => Who::Refused,
            }
        }
    }
}

/// The user with these credentials.
fn user_with(users: &[User], said: Credentials<'_>) -> Who
    requires few { length users.now ≤ 1000 }
    ensures { result ≡ whose.user_with users.now (lent_credentials said.entry) }
{
    match place_with(users, said) {
        Some(place) => Who::User(place as u32),
        None => Who::Refused,
    }
}

/// The place of the first user with these credentials. All users are looked at, also behind it.
#[tactic(auto, using(crate::proofs::FirstPlace::found_so_far))]
fn place_with(users: &[User], said: Credentials<'_>) -> Option<usize>
    ensures place { result ≡ position (whose.is_user (lent_credentials said.entry)) users.now }
    ensures below { IfSome result (λ place. place < length users.now) }
{
    let mut found = None;
    for (place, user) in users.iter().enumerate() {
        found = first_of(found, is_user(user, said), place);
    }
    found
}

/// What was found, or else a place where it is one.
fn first_of(found: Option<usize>, is_one: bool, place: usize) -> Option<usize>
    ensures { result ≡ first_of found is_one place }
{
    match found {
        Some(first) => Some(first),
        None => is_one.then_some(place),
    }
}

/// Whether these are a user's credentials.
fn is_user(user: &User, said: Credentials<'_>) -> bool
    ensures { result ≡ whose.is_user (lent_credentials said.entry) user.now }
{
    is_kept(user.name.as_slice(), said.name) & is_kept(user.password.as_slice(), said.password)
}
