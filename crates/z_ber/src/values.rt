//! Values whose written form contents are (X.690:2021, 8.2, 8.3, 8.6, 8.19, 11.1, 11.2).

ghost use Rattle.std.specs.Prelude.{◌≡◌, ◌+◌, ◌-◌, ◌*◌, ◌^◌, ◌<◌, ◌≤◌, length};
ghost use Rattle.std.specs.Int.Digits.{number_from_digits_after};
ghost use Rattle.z_types.specs.ReadAs.{IsAny, IsReadAs};
ghost use Rattle.z_ber.specs.Reading.{padded, is_fewest, positive_at, negative_at, signed_at, int_at, bits_behind, bits_at};
ghost use Rattle.z_ber.specs.Values.{IsBits, IsInteger};
ghost use Rattle.z_ber.specs.Written.{turned, bool_octets, int_octets, bits_octets, mirrored_number};

use crate::digits::{count_digits, mirror};
use crate::read::padded_number;
use crate::spell::unused_bits;

/// The value of the contents of a BOOLEAN in written form (8.2, 11.1), exactly where there is one.
#[tactic(auto, unfolding(crate::specs::Written::bool_octets))]
pub fn bool_of(contents: &[u8]) -> Option<bool>
    ensures { IsReadAs IsAny bool_octets contents.now result }
{
    match contents {
        [0] => Some(false),
        [255] => Some(true),
        _ => None,
    }
}

/// Whether the first nine bits are not all alike (8.3.2).
fn is_fewest(contents: &[u8]) -> bool
    ensures { result ≡ is_fewest contents.now }
{
    match contents {
        [] => false,
        [_] => true,
        [0, second, ..] => *second >= 128,
        [255, second, ..] => *second < 128,
        _ => true,
    }
}

/// The number of `count` octets more with their bits turned, where those that have not come are
/// zeros, behind octets of which the number is `high`.
fn turned_number(high: u64, count: u8, bytes: &[u8]) -> u64
    requires { (high + 1) * 256 ^ count ≤ 2 ^ 64 }
    ensures { result ≡ number_from_digits_after 256 high (padded count (turned bytes.now)) }
{
    if count == 0 {
        return high;
    }
    match bytes {
        [] => turned_number(256 * high, count - 1, bytes),
        [octet, rest @ ..] => turned_number(256 * high + u64::from(255 - *octet), count - 1, rest),
    }
}

/// The number itself, where it fits.
fn positive(number: u64) -> Option<i64>
    ensures { result ≡ positive_at number }
{
    if number < 9_223_372_036_854_775_808 {
        Some(number as i64)
    } else {
        None
    }
}

/// The number whose bits are turned, where it fits.
fn negative(number: u64) -> Option<i64>
    ensures { result ≡ negative_at number }
{
    if number < 9_223_372_036_854_775_808 {
        Some(-1 - number as i64)
    } else {
        None
    }
}

/// Two's complement of up to 8 octets (8.3.3).
fn read_signed(contents: &[u8]) -> Option<i64>
    requires { length contents.now ≤ 8 }
    ensures { result ≡ signed_at contents.now }
{
    match contents {
        [first, ..] if *first >= 128 => negative(turned_number(0, contents.len() as u8, contents)),
        _ => positive(padded_number(0, contents.len() as u8, contents)),
    }
}

/// The contents of an INTEGER of up to 8 octets.
#[tactic(auto, unfolding(crate::specs::Reading::int_at))]
fn read_int(contents: &[u8]) -> Option<i64>
    ensures { result ≡ int_at contents.now }
{
    if is_fewest(contents) && contents.len() <= 8 {
        read_signed(contents)
    } else {
        None
    }
}

/// The number whose written form contents of an INTEGER are (8.3), exactly where there is one.
pub fn int_of(contents: &[u8]) -> Option<i64>
    ensures { IsReadAs IsInteger int_octets contents.now result }
{
    match read_int(contents) {
        Some(value) => Some(value),
        None => None,
    }
}

/// The number whose octets stand from the last to the first, with their bits in turned order.
fn mirrored_number(octets: &[u8]) -> u64
    requires { length octets.now ≤ 4 }
    ensures value { result ≡ mirrored_number octets.now }
    ensures small { result < 256 ^ length octets.now }
{
    match octets {
        [] => 0,
        [octet, rest @ ..] => mirrored_number(rest) * 256 + u64::from(mirror(*octet)),
    }
}

/// The contents of a BIT STRING of up to 32 bits.
#[tactic(auto, unfolding(crate::specs::Reading::bits_at))]
fn read_bits(contents: &[u8]) -> Option<u32>
    ensures { result ≡ bits_at contents.now }
{
    match contents {
        [] => None,
        [unused, octets @ ..] => {
            if octets.len() > 4 {
                return None;
            }
            bits(*unused, octets.len(), mirrored_number(octets) as u32)
        }
    }
}

/// The bits, where the count of unused bits and the count of octets are theirs.
fn bits(unused: u8, count: usize, value: u32) -> Option<u32>
    ensures { result ≡ bits_behind unused count value }
{
    if unused == unused_bits(value) && count == count_digits(256, u64::from(value)) {
        Some(value)
    } else {
        None
    }
}

/// The bits whose written form contents of a BIT STRING are (8.6), exactly where there are some.
pub fn bits_of(contents: &[u8]) -> Option<u32>
    ensures { IsReadAs IsBits bits_octets contents.now result }
{
    match read_bits(contents) {
        Some(value) => Some(value),
        None => None,
    }
}
