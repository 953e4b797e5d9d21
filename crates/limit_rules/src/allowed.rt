//! What a client is told of what it wants.

ghost use Rattle.std.specs.Prelude.{◌≡◌};
ghost use Rattle.limit_rules.specs.Limits.{allowed_number};

/// Whether a client may have what it wants, and if not, which limit it has met.
#[derive(Clone, Copy, PartialEq, Eq, Debug)]
pub enum Allowed {
    /// It may have it.
    Ok,
    /// As many units were taken as a connection may send.
    Units,
    /// As many searches were asked as a connection may ask.
    Searches,
    /// These records are more than 1000, or with those that were given more than a connection may have.
    Records,
    /// A client has as many result sets as it may have at a time.
    Sets,
}

impl Allowed {
    /// The number of the limit that is met, from 1; 0 where none is.
    pub fn number(&self) -> u32
        ensures { result ≡ allowed_number self.now }
    {
        match self {
            Allowed::Ok => 0,
            Allowed::Units => 1,
            Allowed::Searches => 2,
            Allowed::Records => 3,
            Allowed::Sets => 4,
        }
    }
}
