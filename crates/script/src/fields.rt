//! The fields of a line.

ghost use Rattle.std.specs.Prelude.{◌≡◌, ◌<◌, ◌≤◌, ◌==◌, IfOk, IfSome, length, position};
ghost use Rattle.std.specs.Str.{bytes_eq};
ghost use Rattle.script.specs.Events.{most_amount, IsClient};
ghost use Rattle.script.specs.Lines.{client_in, amount_in, target_in, octets_in, number_in, within, number_after, is_decimal, are_digits};

use hex::FromHexError;
use std::alloc::Global;
use z_types::{List, MOST_UNIT_OCTETS, Memory, Text};

/// The greatest number of a client.
pub const MOST_CLIENTS: u32 = 10_000;

/// The most seconds, Presents or looks of an event.
const MOST_AMOUNT: u32 = 1_000_000;

/// The most hexadecimal digits that a line feeds, two for each octet.
const MOST_DIGITS: usize = 2 * MOST_UNIT_OCTETS as usize;

/// The client of a number.
pub(crate) fn client_in(field: &[u8]) -> Option<u32>
    ensures client { result ≡ client_in field.now }
    ensures within { IfSome result IsClient }
{
    number_in(1, MOST_CLIENTS, field)
}

/// How many seconds, Presents or looks.
pub(crate) fn amount_in(field: &[u8]) -> Option<u32>
    ensures amount { result ≡ amount_in field.now }
    ensures within { IfSome result (λ amount. amount ≤ most_amount) }
{
    number_in(0, MOST_AMOUNT, field)
}

/// The number that a field writes in decimal, where it lies from one to another.
fn number_in(low: u32, high: u32, field: &[u8]) -> Option<u32>
    requires { high ≤ most_amount }
    ensures number { result ≡ number_in low high field.now }
    ensures within { IfSome result (λ number. (low ≤ number) × (number ≤ high)) }
{
    if is_decimal(field) {
        number_written(low, high, field)
    } else {
        None
    }
}

/// Whether these are decimal digits, of which a leading zero stands alone.
fn is_decimal(digits: &[u8]) -> bool
    ensures { result ≡ is_decimal digits.now }
{
    match digits {
        [] => false,
        [b'0', rest @ ..] => rest.is_empty(),
        _ => are_digits(digits),
    }
}

/// Whether each octet is a decimal digit.
#[tactic(auto, unfolding(crate::specs::Lines::are_digits))]
fn are_digits(octets: &[u8]) -> bool
    ensures { result ≡ are_digits octets.now }
{
    octets.iter().all(|octet| octet.is_ascii_digit())
}

/// The number that digits write, as far as it lies from one to another.
fn number_written(low: u32, high: u32, digits: &[u8]) -> Option<u32>
    requires { high ≤ most_amount }
    ensures { result ≡ within low high (number_after 0 digits.now) }
{
    let mut number = 0u32;
    for digit in digits {
        if number > high {
            return None;
        }
        number = number * 10 + u32::from(digit.saturating_sub(b'0'));
    }
    within(low, high, number)
}

/// A number, where it lies from one to another.
fn within(low: u32, high: u32, number: u32) -> Option<u32>
    ensures { result ≡ within low high number }
{
    if low <= number && number <= high {
        Some(number)
    } else {
        None
    }
}

/// The octets that hexadecimal digits write.
pub(crate) fn octets_in(alloc: Global, digits: &[u8]) -> Result<Option<Text>, Memory>
    ensures octets { IfOk result (λ octets. octets ≡ octets_in digits.now) }
{
    if digits.is_empty() || digits.len() > MOST_DIGITS {
        return Ok(None);
    }
    match hex::decode(alloc, digits) {
        Ok(octets) => Ok(Some(Text::from_vec(octets))),
        Err(FromHexError::OutOfMemory) => Err(Memory),
        Err(_) => Ok(None),
    }
}

/// The first place of an octet.
pub(crate) fn place_of(text: &[u8], wanted: u8) -> Option<usize>
    ensures { result ≡ position (λ octet. octet == wanted) text.now }
{
    text.iter().position(|octet| *octet == wanted)
}

/// The target of a name, by its place.
pub(crate) fn target_in(targets: &List<Text>, field: &[u8]) -> Option<u32>
    ensures target { result ≡ target_in targets.now field.now }
    ensures within { IfSome result (λ target. target < length targets.now) }
{
    let place = name_place(targets.as_slice(), field)?;
    if place <= u32::MAX as usize {
        Some(place as u32)
    } else {
        None
    }
}

/// The first place of a name.
fn name_place(names: &[Text], field: &[u8]) -> Option<usize>
    ensures place { result ≡ position (bytes_eq field.now) names.now }
    ensures within { IfSome result (λ place. place < length names.now) }
{
    names.iter().position(|name| field == name.as_slice())
}
