//! Contents of a BIT STRING, as they are read (X.690:2021, 8.6).

ghost use Rattle.std.specs.Prelude.{◌≡◌, ◌^◌, ◌<◌, ◌≤◌, length, take};
ghost use Rattle.z_ber.specs.Written.{mirror, mirrored_number};
ghost use Rattle.unit_forms.specs.Reading.Contents.{bits_in, bits_that_count};

/// An octet with its bits in turned order.
#[tactic(auto, unfolding(z_ber::specs::Written::mirror))]
fn mirror(octet: u8) -> u8
    ensures { result ≡ mirror octet }
{
    128 * (octet % 2)
        + 64 * (octet / 2 % 2)
        + 32 * (octet / 4 % 2)
        + 16 * (octet / 8 % 2)
        + 8 * (octet / 16 % 2)
        + 4 * (octet / 32 % 2)
        + 2 * (octet / 64 % 2)
        + octet / 128 % 2
}

/// The number whose octets stand from the last to the first, with their bits in turned order.
fn mirrored_number(octets: &[u8]) -> u64
    requires { length octets.now ≤ 4 }
    ensures value { result ≡ mirrored_number octets.now }
    ensures small { result < 256 ^ length octets.now }
{
    match octets {
        [] => 0,
        [octet, rest @ ..] => mirrored_number(rest) * 256 + u64::from(mirror(*octet)),
    }
}

/// Two to the power of a count.
fn power(count: u32) -> u64
    requires { count ≤ 32 }
    ensures value { result ≡ 2 ^ count }
    ensures some { 0 < result }
    ensures small { result ≤ 2 ^ 32 }
{
    if count == 0 {
        return 1;
    }
    2 * power(count - 1)
}

/// How many bits count: neither the unused ones of the last octet, nor those from number 32 on.
fn bits_that_count(unused: u8, count: usize) -> u32
    requires { unused ≤ 7 }
    ensures value { result ≡ bits_that_count unused count }
    ensures few { result ≤ 32 }
{
    if count > 4 {
        return 32;
    }
    (8 * count as u32).saturating_sub(u32::from(unused))
}

/// The first of the octets, 4 at most.
fn first_four(octets: &[u8]) -> &[u8]
    ensures value { result.now ≡ take 4 octets.now }
    ensures few { length result.now ≤ 4 }
{
    if octets.len() > 4 {
        &octets[..4]
    } else {
        octets
    }
}

/// The bits that contents are: bit 0 of the number is the first. A count of unused bits stands in
/// front, 0 to 7; where no octet follows there are no bits.
#[tactic(auto, unfolding(unit_forms::specs::Reading::Contents::bits_in))]
pub fn bits_in(contents: &[u8]) -> Option<u32>
    ensures { result ≡ bits_in contents.now }
{
    match contents {
        [] => None,
        [unused, octets @ ..] => {
            if *unused > 7 {
                return None;
            }
            let count = bits_that_count(*unused, octets.len());
            Some((mirrored_number(first_four(octets)) % power(count)) as u32)
        }
    }
}
