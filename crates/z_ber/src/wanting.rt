//! How many octets must still come before elements of indefinite length can end (X.690:2021, 8.1.2,
//! 8.1.3, 8.1.5).

ghost use Rattle.std.specs.Prelude.{◌≡◌, ◌-◌, ◌^◌, min};
ghost use Rattle.z_ber.specs.Reading.{tag_at, header_at, wanting_behind_tag, wanting_in_header, wanting_in_element, least_to_come};

use crate::read::{padded_number, read_header, read_tag};

/// How many octets are wanting behind identifier octets, where not all length octets have come.
fn wanting_behind_tag(rest: &[u8]) -> u64
    ensures { result ≡ min (wanting_behind_tag rest.now) (2 ^ 64 - 1) }
{
    match rest {
        [] => 1,
        [lead, digits @ ..] => {
            let count = lead.saturating_sub(128).min(8);
            let missing = usize::from(count).saturating_sub(digits.len()) as u64;
            missing.saturating_add(padded_number(0, count, digits))
        }
    }
}

/// How many octets are wanting of a header that has come in part, and of its contents.
fn wanting_in_header(bytes: &[u8]) -> u64
    ensures { result ≡ min (wanting_in_header (tag_at bytes.now)) (2 ^ 64 - 1) }
{
    match read_tag(bytes) {
        Ok((_, rest)) => wanting_behind_tag(rest),
        Err(_) => 2,
    }
}

/// How many octets are wanting of an element.
fn wanting_in_element(bytes: &[u8]) -> u64
    ensures { result ≡ min (wanting_in_element bytes.now (header_at bytes.now)) (2 ^ 64 - 1) }
{
    match read_header(bytes) {
        Ok((_, None, _)) => 0,
        Ok((_, Some(len), body)) => len.saturating_sub(body.len() as u64),
        Err(_) => wanting_in_header(bytes),
    }
}

/// How many octets must still come at least where `opened` elements are open.
#[tactic(auto, unfolding(crate::specs::Reading::least_to_come))]
pub fn least_to_come(opened: u32, rest: &[u8]) -> u64
    ensures { result ≡ min (least_to_come opened rest.now) (2 ^ 64 - 1) }
{
    let ends = 2 * u64::from(opened);
    match rest {
        [] => ends,
        [0] => ends.saturating_sub(1),
        _ => wanting_in_element(rest).saturating_add(ends),
    }
}
