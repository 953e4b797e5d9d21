//! The tokens of the sockets that are registered with a poll: that of the listener, and for each place that of its
//! connection and that of the targets which are asked for it.

use mio::Token;

/// What is registered.
#[derive(Clone, Copy, PartialEq, Eq, Debug)]
pub(crate) enum Registered {
    /// The listener.
    Listener,
    /// The connection of a place.
    Connection(usize),
    /// A target that is asked for the connection of a place.
    Target(usize),
}

impl Registered {
    /// The token of it.
    pub(crate) fn token(self) -> Token {
        match self {
            Registered::Listener => Token(0),
            Registered::Connection(place) => Token(place.saturating_mul(2).saturating_add(1)),
            Registered::Target(place) => Token(place.saturating_mul(2).saturating_add(2)),
        }
    }

    /// What has a token.
    pub(crate) fn of(token: Token) -> Registered {
        match token.0.checked_sub(1) {
            None => Registered::Listener,
            Some(number) if number % 2 == 0 => Registered::Connection(number / 2),
            Some(number) => Registered::Target(number / 2),
        }
    }
}
