//! Numbers in decimal.

ghost use Rattle.std.specs.Prelude.{◌≡◌};
ghost use Rattle.z_types.specs.Digits.{number_after};
ghost use Rattle.sru_request.specs.Choices.{are_digits, in_range, number_in};

use z_types::MOST_NUMBER;

/// Whether each octet is a decimal digit.
#[tactic(auto, unfolding(crate::specs::Choices::are_digits))]
fn are_digits(octets: &[u8]) -> bool
    ensures { result ≡ are_digits octets.now }
{
    octets.iter().all(|octet| octet.is_ascii_digit())
}

/// A number that is no less than one, and not too great.
fn in_range(least: u32, number: u32) -> Option<u32>
    ensures { result ≡ in_range least number }
{
    if number <= MOST_NUMBER && least <= number {
        Some(number)
    } else {
        None
    }
}

/// The number that digits write, where it is in range.
fn number_written(least: u32, digits: &[u8]) -> Option<u32>
    ensures { result ≡ in_range least (number_after 0 digits.now) }
{
    let mut number = 0u32;
    for digit in digits {
        if number > MOST_NUMBER / 10 {
            return None;
        }
        number = number * 10 + u32::from(digit.saturating_sub(b'0'));
    }
    in_range(least, number)
}

/// The number of a value, which may be absent.
pub(crate) fn number_in(least: u32, default: u32, value: &[u8]) -> Option<u32>
    ensures { result ≡ number_in least default value.now }
{
    if value.is_empty() {
        return Some(default);
    }
    if are_digits(value) {
        number_written(least, value)
    } else {
        None
    }
}
