//! Who asks a pool for sessions, and the digests of a key under their logins.

ghost use Rattle.std.specs.Prelude.{IfOk};
ghost use Rattle.unit_forms.specs.Logins.{IsLoginIf};

use crate::sessions::key_for;
use pool_keys::{Digest, KeyDigest};
use std::alloc::Global;
use std::test::Fail;
use z_read::{ReadFault, read_request};
use z_types::{Memory, Request, Text};

/// Who asks.
#[derive(Clone, Copy, Debug, PartialEq, Eq)]
pub(crate) enum Who {
    /// One without a login.
    Nobody,
    /// One whose login is empty.
    Empty,
    /// One with a login.
    Ann,
    /// One with another.
    Bob,
}

/// An Init without idAuthentication, and with an empty one, and with two that are texts.
const NOBODY: &[u8] =
    b"\xb4\x13\x83\x02\x05\xe0\x84\x03\x01\xff\xfe\x85\x03\x10\x00\x00\x86\x03\x10\x00\x00";

const EMPTY: &[u8] =
    b"\xb4\x15\x83\x02\x05\xe0\x84\x03\x01\xff\xfe\x85\x03\x10\x00\x00\x86\x03\x10\x00\x00\xa7\x00";

const ANN: &[u8] =
    b"\xb4\x18\x83\x02\x05\xe0\x84\x03\x01\xff\xfe\x85\x03\x10\x00\x00\x86\x03\x10\x00\x00\xa7\x03\x1a\x01a";

const BOB: &[u8] =
    b"\xb4\x18\x83\x02\x05\xe0\x84\x03\x01\xff\xfe\x85\x03\x10\x00\x00\x86\x03\x10\x00\x00\xa7\x03\x1a\x01b";

/// The login in an Init.
fn login_in(alloc: Global, init: &[u8]) -> Result<Option<Text>, Memory>
    ensures { IfOk result IsLoginIf }
{
    match read_request(alloc, init) {
        Ok(Request::Init(init)) => Ok(init.login),
        Ok(_) | Err(_) => Err(Memory),
    }
}

/// The login of who asks.
pub(crate) fn login_of(alloc: Global, who: Who) -> Result<Option<Text>, Memory>
    ensures { IfOk result IsLoginIf }
{
    match who {
        Who::Nobody => login_in(alloc, NOBODY),
        Who::Empty => login_in(alloc, EMPTY),
        Who::Ann => login_in(alloc, ANN),
        Who::Bob => login_in(alloc, BOB),
    }
}

/// The digest of one key for who asks.
fn digest_for(alloc: Global, who: Who) -> Result<u64, Memory> {
    let login = login_of(alloc, who)?;
    let own = KeyDigest::own(0, login.as_ref());
    Ok(KeyDigest::digest(own, &key_for(alloc, 3)?))
}

/// All who ask.
const ALL: [Who; 4] = [Who::Nobody, Who::Empty, Who::Ann, Who::Bob];

#[test]
fn one_key_has_a_digest_of_its_own_for_each_login(rt: HostRuntime) -> Result<(), Fail> {
    for one in ALL {
        for other in ALL {
            let same = digest_for(rt.alloc(), one)? == digest_for(rt.alloc(), other)?;
            assert_eq!(rt; same, one == other, "{one:?} {other:?}");
        }
    }
    Ok(())
}
