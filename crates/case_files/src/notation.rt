//! Octets as hexadecimal digits and as text, read.

use crate::NoAnswer;
use std::alloc::Global;
use z_types::Text;

/// The octets of hexadecimal digits, in words.
pub fn octets_of_hex(alloc: Global, digits: &str) -> Result<Text, NoAnswer> {
    let mut octets = Text::new(alloc);
    for word in digits.split_ascii_whitespace() {
        let more = hex::decode(alloc, word)?;
        octets.append(more.as_slice())?;
    }
    Ok(octets)
}

/// Where a text stands between two of its octets.
#[derive(Clone, Copy)]
enum At {
    /// Behind an octet, or at the front.
    Plain,
    /// Behind a backslash.
    Backslash,
    /// Behind `\x`.
    FirstDigit,
    /// Behind `\x` and a digit of this value.
    SecondDigit(u8),
}

/// The octets of a text.
pub fn octets_of_text(alloc: Global, text: &str) -> Result<Text, NoAnswer> {
    let mut octets = Text::new(alloc);
    let mut at = At::Plain;
    for octet in text.as_bytes() {
        at = put_next(&mut octets, at, *octet)?;
    }
    match at {
        At::Plain => Ok(octets),
        _ => Err(NoAnswer::Misspelt),
    }
}

/// Puts what the next octet of a text stands for at the end, and says where the text stands then.
fn put_next(octets: &mut Text, at: At, octet: u8) -> Result<At, NoAnswer> {
    match (at, octet) {
        (At::Plain, b'\\') => return Ok(At::Backslash),
        (At::Plain, _) => octets.push(octet)?,
        (At::Backslash, b'x') => return Ok(At::FirstDigit),
        (At::Backslash, _) => octets.push(behind_backslash(octet)?)?,
        (At::FirstDigit, _) => return Ok(At::SecondDigit(value_of_digit(octet)?)),
        (At::SecondDigit(first), _) => {
            octets.push(first.wrapping_mul(16).wrapping_add(value_of_digit(octet)?))?;
        }
    }
    Ok(At::Plain)
}

/// What a backslash and an octet stand for.
fn behind_backslash(octet: u8) -> Result<u8, NoAnswer> {
    match octet {
        b'n' => Ok(b'\n'),
        b'r' => Ok(b'\r'),
        b't' => Ok(b'\t'),
        b'\\' => Ok(b'\\'),
        _ => Err(NoAnswer::Misspelt),
    }
}

/// The value of a hexadecimal digit.
fn value_of_digit(octet: u8) -> Result<u8, NoAnswer> {
    match octet {
        b'0'..=b'9' => Ok(octet.wrapping_sub(b'0')),
        b'a'..=b'f' => Ok(octet.wrapping_sub(b'a').wrapping_add(10)),
        _ => Err(NoAnswer::Misspelt),
    }
}
