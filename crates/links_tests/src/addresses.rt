//! Addresses as words: `test:N` is the test target N, and `HOST:PORT` a host far away. Each is inside a login
//! where the setting `login` has an Init with one.

ghost use Rattle.std.specs.Prelude.{◌≡◌, IfOk, None};
ghost use Rattle.z_types.specs.Logins.{login_of};
ghost use Rattle.unit_forms.specs.Logins.{HasLogin, IsLoginIf};

use crate::octets::octets_of;
use std::alloc::Global;
use test_cases::Case;
use z_read::{ReadFault, read_request};
use z_types::{Address, Memory, Request, Text};

/// The address of a word of a case.
pub(crate) fn address_of(alloc: Global, case: &Case<'_>, word: &str) -> Result<Address, Memory>
    ensures { IfOk result HasLogin }
{
    let address = inner_address_of(alloc, word)?;
    match login_set(alloc, case)? {
        Some(login) => address.inside(&Some(login)),
        None => Ok(address),
    }
}

/// The login in the Init that a case sets. A setting that is no Init has none.
fn login_set(alloc: Global, case: &Case<'_>) -> Result<Option<Text>, Memory>
    ensures { IfOk result IsLoginIf }
{
    match octets_of(alloc, case, &[case.setting("login").unwrap_or("")])? {
        Some(init) => login_in(alloc, init.as_slice()),
        None => Ok(None),
    }
}

/// The address of a word by itself. One that is of neither form is of a host of that name, at port 0.
fn inner_address_of(alloc: Global, word: &str) -> Result<Address, Memory>
    ensures { IfOk result (λ address. login_of address ≡ None) }
{
    match word.split_once(':') {
        Some(("test", number)) => match number.parse() {
            Ok(number) => Ok(Address::Test(number)),
            Err(_) => host(alloc, word, 0),
        },
        Some((name, port)) => host(alloc, name, port.parse().unwrap_or(0)),
        None => host(alloc, word, 0),
    }
}

/// A port of a host.
fn host(alloc: Global, name: &str, port: u16) -> Result<Address, Memory>
    ensures { IfOk result (λ address. login_of address ≡ None) }
{
    Ok(Address::Tcp(Text::copy_of(alloc, name.as_bytes())?, port))
}

/// The login in an Init. Octets that are no Init have none.
fn login_in(alloc: Global, unit: &[u8]) -> Result<Option<Text>, Memory>
    ensures { IfOk result IsLoginIf }
{
    match read_request(alloc, unit) {
        Ok(Request::Init(init)) => Ok(init.login),
        Err(ReadFault::Memory) => Err(Memory),
        Ok(_) | Err(_) => Ok(None),
    }
}
