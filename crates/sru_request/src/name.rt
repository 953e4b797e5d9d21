//! The name in a path.

ghost use Rattle.std.specs.Prelude.{◌≡◌, IfOk};
ghost use Rattle.std.specs.Option.{option_copied};
ghost use Rattle.sru_request.specs.Name.{segment_of, name_of};

use percent_encoding::percent_decode;
use std::alloc::Global;
use z_types::{Memory, Text};

/// The one segment of a path behind its `/`.
fn segment_of(path: &[u8]) -> Option<&[u8]>
    ensures { option_copied result ≡ segment_of path.now }
{
    match path {
        [b'/', segment @ ..] => {
            if segment.contains(&b'/') {
                None
            } else {
                Some(segment)
            }
        }
        _ => None,
    }
}

/// The name that a path of one segment has, percent-decoded (RFC 3986, 2.1); none where the path does
/// not begin with `/` or has another segment.
pub fn name_of(alloc: Global, path: &[u8]) -> Result<Option<Text>, Memory>
    ensures { IfOk result (λ name. name ≡ name_of path.now) }
{
    let Some(segment) = segment_of(path) else {
        return Ok(None);
    };
    let mut octets = Vec::new(alloc);
    percent_decode(segment).append_to(&mut octets)?;
    Ok(Some(Text::from_vec(octets)))
}
