//! Identifier and length octets at the front of octets (X.690:2021, 8.1.2, 8.1.3).

ghost use Rattle.std.specs.Prelude.{◌≡◌, ◌+◌, ◌-◌, ◌*◌, ◌^◌, ◌<◌, ◌≤◌, length, IfOk, Ok, Err};
ghost use Rattle.std.specs.Int.Digits.{number_from_digits_after};
ghost use Rattle.z_ber.specs.Reading.{Gives, number_end, septets_at, tag_of, tag_at, padded, long_at, indefinite_at, length_at, header_at};
ghost use Rattle.z_ber.specs.HeaderAnswer.{IsHeaderAnswer};

use crate::{BerFault, Header, Tag};

/// A number that ends here: numbers below 31 stand in the lead octet.
fn number_end(number: u32, rest: &[u8]) -> Result<(u32, &[u8]), BerFault>
    ensures read { Gives (λ x. (x.0, x.1.now)) result (number_end number rest.now) }
    ensures shorter { IfOk result (λ x. length x.1.now ≤ length rest.now) }
{
    if number < 31 {
        return Err(BerFault::BadTag);
    }
    Ok((number, rest))
}

/// A number at seven bits an octet, of which the high part is known (8.1.2.4.2).
fn septets(high: u32, bytes: &[u8]) -> Result<(u32, &[u8]), BerFault>
    requires { high < 2 ^ 24 }
    ensures read { Gives (λ x. (x.0, x.1.now)) result (septets_at high bytes.now) }
    ensures shorter { IfOk result (λ x. length x.1.now ≤ length bytes.now) }
{
    match bytes {
        [] => Err(BerFault::Short),
        [octet, rest @ ..] => {
            if *octet < 128 {
                return number_end(high * 128 + u32::from(*octet), rest);
            }
            let number = high * 128 + u32::from(*octet - 128);
            if number == 0 || number > 16_777_215 {
                return Err(BerFault::BadTag);
            }
            septets(number, rest)
        }
    }
}

/// The tag that a lead octet and a number make (8.1.2.2 to 8.1.2.5).
#[inline(always)]
fn tag_of(lead: u8, number: u32) -> Tag
    ensures { result ≡ tag_of lead number }
{
    Tag {
        class: lead / 64,
        constructed: lead / 32 % 2 == 1,
        number,
    }
}

/// The identifier octets, and what follows them.
#[tactic(auto, unfolding(crate::specs::Reading::tag_at))]
#[inline(always)]
pub fn read_tag(bytes: &[u8]) -> Result<(Tag, &[u8]), BerFault>
    ensures read { Gives (λ x. (x.0, x.1.now)) result (tag_at bytes.now) }
    ensures shorter { IfOk result (λ x. length x.1.now < length bytes.now) }
{
    match bytes {
        [] => Err(BerFault::Short),
        [lead, rest @ ..] => {
            let low = *lead % 32;
            if low < 31 {
                return Ok((tag_of(*lead, u32::from(low)), rest));
            }
            let (number, rest) = septets(0, rest)?;
            Ok((tag_of(*lead, number), rest))
        }
    }
}

/// The number of `count` octets behind those of `high`, where those that have not come are zeros.
pub fn padded_number(high: u64, count: u8, bytes: &[u8]) -> u64
    requires { (high + 1) * 256 ^ count ≤ 2 ^ 64 }
    ensures { result ≡ number_from_digits_after 256 high (padded count bytes.now) }
{
    if count == 0 {
        return high;
    }
    match bytes {
        [] => padded_number(256 * high, count - 1, bytes),
        [octet, rest @ ..] => padded_number(256 * high + u64::from(*octet), count - 1, rest),
    }
}

/// A long form of `count` octets, and what follows it (8.1.3.5).
#[inline(always)]
fn read_long(count: u8, rest: &[u8]) -> Result<(Option<u64>, &[u8]), BerFault>
    requires { count ≤ 8 }
    ensures read { Gives (λ x. (x.0, x.1.now)) result (long_at count rest.now) }
    ensures shorter { IfOk result (λ x. length x.1.now ≤ length rest.now) }
{
    let size = usize::from(count);
    if rest.len() < size {
        return Err(BerFault::Short);
    }
    Ok((Some(padded_number(0, count, rest)), &rest[size..]))
}

/// The length octets, and what follows them.
#[tactic(auto, unfolding(crate::specs::Reading::length_at))]
#[inline(always)]
pub fn read_length(constructed: bool, bytes: &[u8]) -> Result<(Option<u64>, &[u8]), BerFault>
    ensures read { Gives (λ x. (x.0, x.1.now)) result (length_at constructed bytes.now) }
    ensures shorter { IfOk result (λ x. length x.1.now ≤ length bytes.now) }
{
    match bytes {
        [] => Err(BerFault::Short),
        [lead, rest @ ..] => {
            if *lead < 128 {
                return Ok((Some(u64::from(*lead)), rest));
            }
            if *lead == 128 {
                return indefinite(constructed, rest);
            }
            if *lead > 136 {
                return Err(BerFault::BadLength);
            }
            read_long(*lead - 128, rest)
        }
    }
}

/// The indefinite form, which is for constructed elements (8.1.3.2).
#[inline(always)]
fn indefinite(constructed: bool, rest: &[u8]) -> Result<(Option<u64>, &[u8]), BerFault>
    ensures read { Gives (λ x. (x.0, x.1.now)) result (indefinite_at constructed rest.now) }
    ensures shorter { IfOk result (λ x. length x.1.now ≤ length rest.now) }
{
    if constructed {
        Ok((None, rest))
    } else {
        Err(BerFault::BadLength)
    }
}

/// Tag, length and what follows them.
#[tactic(auto, unfolding(crate::specs::Reading::header_at))]
#[inline(always)]
pub fn read_header(bytes: &[u8]) -> Result<(Tag, Option<u64>, &[u8]), BerFault>
    ensures read { Gives (λ x. (x.0, x.1, x.2.now)) result (header_at bytes.now) }
    ensures shorter { IfOk result (λ x. length x.2.now < length bytes.now) }
{
    let (tag, rest) = read_tag(bytes)?;
    let (len, body) = read_length(tag.constructed, rest)?;
    Ok((tag, len, body))
}

/// Reads the tag and the length that octets begin with.
#[inline(always)]
pub fn header(bytes: &[u8]) -> Result<Header, BerFault>
    ensures { IsHeaderAnswer bytes.now result }
{
    match read_header(bytes) {
        Ok((tag, length, rest)) => Ok(Header {
            tag,
            size: bytes.len() - rest.len(),
            length,
        }),
        Err(fault) => Err(fault),
    }
}
