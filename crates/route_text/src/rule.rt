//! What a text of the configuration may be.

ghost use Rattle.std.specs.Prelude.{◌≡◌};
ghost use Rattle.route_text.specs.Texts.{fits, is_allow, is_effect};

use route_config::{is_database_name, is_from, is_index_name, is_name, is_user_name};

/// A rule that a text keeps.
#[derive(Clone, Copy, Debug, PartialEq, Eq)]
pub enum TextRule {
    /// Any text.
    Any,
    /// A name: 1 to 64 octets and no white space.
    Name,
    /// A name without `/` and `?`.
    DatabaseName,
    /// From 1 to this number of octets.
    UpTo(usize),
    /// A prefix, a dot and a name.
    IndexName,
    /// From 1 to 64 octets without `/`, neither `anonymous` nor `*`.
    UserName,
    /// `allow` or `deny`.
    Effect,
}

impl TextRule {
    /// Whether a text keeps the rule.
    pub fn fits(self, text: &[u8]) -> bool
        ensures { result ≡ fits self text.now }
    {
        match self {
            TextRule::Any => true,
            TextRule::Name => is_name(text),
            TextRule::DatabaseName => is_database_name(text),
            TextRule::UpTo(most) => is_from(1, most, text.len()),
            TextRule::IndexName => is_index_name(text),
            TextRule::UserName => is_user_name(text),
            TextRule::Effect => is_effect(text),
        }
    }
}

/// What an access rule does that allows.
const ALLOW: &[u8] = b"allow";

/// What one does that denies.
const DENY: &[u8] = b"deny";

/// Whether a text is what an access rule may do.
fn is_effect(text: &[u8]) -> bool
    ensures { result ≡ is_effect text.now }
{
    is_allow(text) || text == DENY
}

/// Whether a text is what an access rule does that allows.
pub fn is_allow(text: &[u8]) -> bool
    ensures { result ≡ is_allow text.now }
{
    text == ALLOW
}
