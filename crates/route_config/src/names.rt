//! What the names of a configuration may be.

ghost use Rattle.std.specs.Prelude.{◌≡◌, ◌↔◌, IsTrue};
ghost use Rattle.route_config.specs.Sound.{IsFrom};
ghost use Rattle.route_config.specs.Names.{
  first_dot,
  has_delimiter,
  has_slash,
  has_white,
  is_database_name,
  is_delimiter,
  is_from,
  is_index_name,
  is_name,
  is_user_name,
  is_white,
};

use crate::rules::{ANONYMOUS, EVERY};

/// Whether a number is from one to another.
pub fn is_from(low: usize, high: usize, number: usize) -> bool
    ensures test { result ≡ is_from low high number }
    ensures range { IsTrue result ↔ IsFrom low high number }
{
    low <= number && number <= high
}

/// Whether a target or a group may have this name: 1 to 64 octets and no white space.
pub fn is_name(text: &[u8]) -> bool
    ensures { result ≡ is_name text.now }
{
    is_from(1, 64, text.len()) && !has_white(text)
}

fn has_white(text: &[u8]) -> bool
    ensures { result ≡ has_white text.now }
{
    text.iter().any(|octet| is_white(*octet))
}

fn is_white(octet: u8) -> bool
    ensures { result ≡ is_white octet }
{
    octet == b' ' || octet == b'\t' || octet == b'\r' || octet == b'\n'
}

/// Whether a database may have this name: one without `/` and `?`.
pub fn is_database_name(text: &[u8]) -> bool
    ensures { result ≡ is_database_name text.now }
{
    is_name(text) && !has_delimiter(text)
}

fn has_delimiter(text: &[u8]) -> bool
    ensures { result ≡ has_delimiter text.now }
{
    text.iter().any(|octet| is_delimiter(*octet))
}

fn is_delimiter(octet: u8) -> bool
    ensures { result ≡ is_delimiter octet }
{
    octet == b'/' || octet == b'?'
}

/// Whether an index may have this name: one with a dot, and text on both sides of the first one.
pub fn is_index_name(text: &[u8]) -> bool
    ensures { result ≡ is_index_name text.now }
{
    match first_dot(text) {
        Some(place) => is_from(1, text.len().saturating_sub(2), place),
        None => false,
    }
}

fn first_dot(text: &[u8]) -> Option<usize>
    ensures { result ≡ first_dot text.now }
{
    text.iter().position(|octet| *octet == b'.')
}

/// Whether a user may have this name: 1 to 64 octets without `/`, neither `anonymous` nor `*`.
pub fn is_user_name(text: &[u8]) -> bool
    ensures { result ≡ is_user_name text.now }
{
    is_from(1, 64, text.len()) && !has_slash(text) && text != ANONYMOUS && text != EVERY
}

fn has_slash(text: &[u8]) -> bool
    ensures { result ≡ has_slash text.now }
{
    text.iter().any(|octet| *octet == b'/')
}
