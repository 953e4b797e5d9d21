//! Contents of BOOLEAN and INTEGER, as they are read (X.690:2021, 8.2, 8.3).

ghost use Rattle.std.specs.Prelude.{◌≡◌, ◌+◌, ◌-◌, ◌*◌, ◌^◌, ◌<◌, ◌≤◌, length, map};
ghost use Rattle.std.specs.Int.Digits.{number_from_digits_after};
ghost use Rattle.unit_forms.specs.Reading.Contents.{truth_in, integer_in, number_in, in_range};

/// The truth value that contents are: every octet but 0 is true.
pub fn truth_in(contents: &[u8]) -> Option<bool>
    ensures { result ≡ truth_in contents.now }
{
    match contents {
        [octet] => Some(0 < *octet),
        _ => None,
    }
}

/// The number of octets behind its high part, below 2^63.
fn number_after(high: u64, octets: &[u8]) -> u64
    requires { (high + 1) * 256 ^ length octets.now ≤ 2 ^ 63 }
    ensures value { result ≡ number_from_digits_after 256 high octets.now }
    ensures small { result < 2 ^ 63 }
{
    match octets {
        [] => high,
        [octet, rest @ ..] => number_after(256 * high + u64::from(*octet), rest),
    }
}

/// The number of octets with their bits turned, behind its high part, below 2^63.
fn turned_after(high: u64, octets: &[u8]) -> u64
    requires { (high + 1) * 256 ^ length octets.now ≤ 2 ^ 63 }
    ensures value { result ≡ number_from_digits_after 256 high (map
        (λ octet. 255 - octet) octets.now) }
    ensures small { result < 2 ^ 63 }
{
    match octets {
        [] => high,
        [octet, rest @ ..] => turned_after(256 * high + u64::from(255 - *octet), rest),
    }
}

/// The integer that contents of 1 to 8 octets are, in two's complement.
#[tactic(auto, unfolding(unit_forms::specs::Reading::Contents::integer_in))]
pub fn integer_in(contents: &[u8]) -> Option<i64>
    ensures { result ≡ integer_in contents.now }
{
    match contents {
        [] => None,
        [first, rest @ ..] => {
            if rest.len() > 7 {
                return None;
            }
            if *first < 128 {
                Some(number_after(u64::from(*first), rest) as i64)
            } else {
                Some(-1 - turned_after(u64::from(255 - *first), rest) as i64)
            }
        }
    }
}

/// The integer, where it is from 0 to 2147483647.
fn in_range(value: i64) -> Option<u32>
    ensures { result ≡ in_range value }
{
    if 0 <= value && value < 2_147_483_648 {
        Some(value as u32)
    } else {
        None
    }
}

/// The integer that contents are, where it is from 0 to 2147483647.
pub fn number_in(contents: &[u8]) -> Option<u32>
    ensures { result ≡ number_in contents.now }
{
    match integer_in(contents) {
        Some(value) => in_range(value),
        None => None,
    }
}
