//! A target in two parts.

ghost use Rattle.std.specs.Prelude.{◌≡◌, IfOk};
ghost use Rattle.form_urlencoded.specs.Form.{split_once};
ghost use Rattle.sru_request.specs.Request.{get_of};

use crate::Get;
use std::alloc::Global;
use z_types::{Memory, Text};

/// The octets before the first `?`, or all of them, and those behind it, or none.
fn split_target(target: &[u8]) -> (&[u8], &[u8])
    ensures before { result.0.now ≡ (split_once 63 target.now).0 }
    ensures after { result.1.now ≡ (split_once 63 target.now).1 }
{
    match target.iter().position(|octet| *octet == b'?') {
        Some(index) => (&target[..index], &target[index + 1..]),
        None => (target, &[]),
    }
}

/// A target's path and query (RFC 3986, 3.4).
pub(crate) fn get_of(alloc: Global, target: &[u8]) -> Result<Get, Memory>
    ensures { IfOk result (λ get. get ≡ get_of target.now) }
{
    let (path, query) = split_target(target);
    Ok(Get {
        path: Text::copy_of(alloc, path)?,
        query: Text::copy_of(alloc, query)?,
    })
}
