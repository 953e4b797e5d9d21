//! Elements that stand in their written form, and in no other (X.690:2021, 10.1).

ghost use Rattle.std.specs.Prelude.{◌≡◌, ◌+◌, ◌<◌};
ghost use Rattle.std.specs.Option.{option_map};
ghost use Rattle.z_ber.specs.Reading.{fewest_size, contents_at, fewest_at, written_at};
ghost use Rattle.z_ber.specs.WrittenAnswer.{IsWrittenAnswer};

use crate::digits::count_digits;
use crate::read::{read_length, read_tag};
use crate::{Tag, WrittenElement};

/// Contents of `len` octets, and what follows them.
fn contents(tag: Tag, len: u64, body: &[u8]) -> Option<(Tag, &[u8], &[u8])>
    ensures { option_map (λ x. (x.0, x.1.now, x.2.now)) result ≡ contents_at tag len body.now }
{
    if (body.len() as u64) < len {
        return None;
    }
    let (contents, rest) = body.split_at(len as usize);
    Some((tag, contents, rest))
}

/// How many octets the fewest length octets are (X.690, 10.1).
fn fewest_size(len: u64) -> usize
    ensures { result ≡ fewest_size len }
{
    if len < 128 {
        1
    } else {
        1 + count_digits(256, len)
    }
}

/// The same behind `size` length octets, which have to be the fewest.
fn fewest(tag: Tag, size: usize, len: Option<u64>, body: &[u8]) -> Option<(Tag, &[u8], &[u8])>
    ensures { option_map (λ x. (x.0, x.1.now, x.2.now)) result ≡ fewest_at tag size len body.now }
{
    match len {
        None => None,
        Some(len) => {
            if size == fewest_size(len) {
                contents(tag, len, body)
            } else {
                None
            }
        }
    }
}

/// The element in written form that octets begin with.
#[tactic(auto, unfolding(crate::specs::Reading::written_at))]
fn read_written(bytes: &[u8]) -> Option<(Tag, &[u8], &[u8])>
    ensures { option_map (λ x. (x.0, x.1.now, x.2.now)) result ≡ written_at bytes.now }
{
    match read_tag(bytes) {
        Ok((tag, rest)) => match read_length(tag.constructed, rest) {
            Ok((len, body)) => fewest(tag, rest.len() - body.len(), len, body),
            Err(_) => None,
        },
        Err(_) => None,
    }
}

/// Reads the element in written form that octets begin with, exactly where they do.
pub fn read_written_element(bytes: &[u8]) -> Option<WrittenElement<'_>>
    ensures { IsWrittenAnswer bytes.now result }
{
    match read_written(bytes) {
        Some((tag, contents, rest)) => Some(WrittenElement {
            tag,
            contents,
            rest,
        }),
        None => None,
    }
}
