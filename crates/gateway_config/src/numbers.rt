//! Numbers among the words of a command.

ghost use Rattle.std.specs.Prelude.{◌≡◌, ◌≤◌, IfSome};
ghost use Rattle.gateway_config.specs.Numbers.{number_in, within, is_decimal, are_digits};
ghost use Rattle.z_types.specs.Digits.{number_after};

/// The number that a word writes in decimal, without leading zeros, where it lies from one to another of
/// at most a million.
pub fn number_in(low: u32, high: u32, word: &[u8]) -> Option<u32>
    requires { high ≤ 1000000 }
    ensures number { result ≡ number_in low high word.now }
    ensures within { IfSome result (λ number. (low ≤ number) × (number ≤ high)) }
{
    if is_decimal(word) {
        number_written(low, high, word)
    } else {
        None
    }
}

/// Whether these are decimal digits, of which a leading zero stands alone.
fn is_decimal(digits: &[u8]) -> bool
    ensures { result ≡ is_decimal digits.now }
{
    match digits {
        [] => false,
        [b'0', rest @ ..] => rest.is_empty(),
        _ => are_digits(digits),
    }
}

/// Whether each octet is a decimal digit.
#[tactic(auto, unfolding(crate::specs::Numbers::are_digits))]
fn are_digits(octets: &[u8]) -> bool
    ensures { result ≡ are_digits octets.now }
{
    octets.iter().all(|octet| octet.is_ascii_digit())
}

/// The number that digits write, as far as it lies from one to another.
fn number_written(low: u32, high: u32, digits: &[u8]) -> Option<u32>
    requires { high ≤ 1000000 }
    ensures { result ≡ within low high (number_after 0 digits.now) }
{
    let mut number = 0u32;
    for digit in digits {
        if number > high {
            return None;
        }
        number = number * 10 + u32::from(digit.saturating_sub(b'0'));
    }
    within(low, high, number)
}

/// A number, where it lies from one to another.
fn within(low: u32, high: u32, number: u32) -> Option<u32>
    ensures { result ≡ within low high number }
{
    if low <= number && number <= high {
        Some(number)
    } else {
        None
    }
}
