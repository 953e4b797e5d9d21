//! Under which login the legs that are played ask.

ghost use Rattle.std.specs.Prelude.{IfOk};
ghost use Rattle.unit_forms.specs.Logins.{IsLoginIf};

use std::alloc::Global;
use z_read::{ReadFault, read_request};
use z_types::{Memory, Request, Text};

/// An Init with an empty login.
const EMPTY: &[u8] = b"\xb4\x15\x83\x02\x05\xe0\x84\x03\x01\xc1\x02\x85\x03\x10\x00\x00\
\x86\x03\x10\x00\x00\xa7\x00";

/// An Init whose login is an open string of one letter, up to that letter.
const OPEN: &[u8] = b"\xb4\x18\x83\x02\x05\xe0\x84\x03\x01\xc1\x02\x85\x03\x10\x00\x00\
\x86\x03\x10\x00\x00\xa7\x03\x1a\x01";

/// Under which login a leg asks.
#[derive(Clone, Copy, Drop)]
pub(crate) enum Under {
    /// None.
    Nobody,
    /// An empty one.
    Empty,
    /// An open string of this letter.
    Letter(u8),
}

/// The login, as it is read in an Init.
pub(crate) fn login_of(alloc: Global, under: Under) -> Result<Option<Text>, Memory>
    ensures { IfOk result IsLoginIf }
{
    match under {
        Under::Nobody => Ok(None),
        Under::Empty => login_in(alloc, EMPTY),
        Under::Letter(letter) => {
            let mut unit = Text::copy_of(alloc, OPEN)?;
            unit.push(letter)?;
            login_in(alloc, unit.as_slice())
        }
    }
}

/// The login in an Init. Octets that are no Init have none.
fn login_in(alloc: Global, unit: &[u8]) -> Result<Option<Text>, Memory>
    ensures { IfOk result IsLoginIf }
{
    match read_request(alloc, unit) {
        Ok(Request::Init(init)) => Ok(init.login),
        Err(ReadFault::Memory) => Err(Memory),
        Ok(_) | Err(_) => Ok(None),
    }
}
