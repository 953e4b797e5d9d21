//! The address of a target, as a text writes it.

ghost use Rattle.std.specs.Prelude.{◌≡◌, ◌+◌, ◌-◌, ◌*◌, ◌<◌, ◌≤◌, ◌^◌, [], ◌∷◌, IfOk, map};
ghost use Rattle.toml.specs.View.{view};
ghost use Rattle.route_text.specs.Kinds.{Address as AddressKind};
ghost use Rattle.route_text.specs.Values.{address_in};
ghost use Rattle.route_text.specs.Reads.{ReadsKind};
ghost use Rattle.z_types.specs.Digits.{number_after};
ghost use Rattle.route_text.specs.Texts.{IsWithin, address, address_of, number_from, is_decimal, is_digit, all_digits, parts};

use crate::RouteFault;
use route_config::is_from;
use std::alloc::{AllocError, Global};
use toml::Value;
use z_types::{Address, Memory, Text};

/// The address that a value has to write.
pub fn address_in(alloc: Global, path: &[u8], value: &Value) -> Result<Address, RouteFault>
    ensures { ReadsKind AddressKind address_in path.now (view value.now) result }
{
    match value.as_str() {
        Some(text) => {
            let text = text.as_bytes();
            match address(alloc, text)? {
                Some(address) => Ok(address),
                None => {
                    let path = Text::copy_of(alloc, path)?;
                    Err(RouteFault::OutOfRange(path, Text::copy_of(alloc, text)?))
                }
            }
        }
        None => Err(RouteFault::WrongKind(Text::copy_of(alloc, path)?)),
    }
}

/// The address that a text writes: `test:N` or `tcp:HOST:PORT`.
fn address(alloc: Global, text: &[u8]) -> Result<Option<Address>, Memory>
    ensures { IfOk result (λ found. found ≡ address text.now) }
{
    let parts = parts(alloc, text)?;
    match parts.as_slice() {
        [scheme, number] => Ok(test_address(scheme, number)),
        [scheme, host, port] => tcp_address(alloc, scheme, host, port),
        _ => Ok(None),
    }
}

/// The parts of a text between its colons.
fn parts(alloc: Global, text: &[u8]) -> Result<Vec<&[u8]>, AllocError>
    ensures { IfOk result (λ found. map (λ part. part.now) found.items ≡ parts text.now) }
{
    text.split(|octet| *octet == b':').collect(alloc)
}

fn test_address(scheme: &[u8], number: &[u8]) -> Option<Address>
    ensures { result ≡ address_of (scheme.now ∷ number.now ∷ []) }
{
    if scheme == b"test".as_slice() {
        let number = number_from(0, 999_999, number)?;
        Some(Address::Test(number))
    } else {
        None
    }
}

fn tcp_address(
    alloc: Global,
    scheme: &[u8],
    host: &[u8],
    port: &[u8],
) -> Result<Option<Address>, Memory>
    ensures { IfOk result (λ found. found ≡ address_of (scheme.now ∷ host.now ∷ port.now ∷ [])) }
{
    if scheme != b"tcp".as_slice() || !is_from(1, 64, host.len()) {
        return Ok(None);
    }
    match number_from(1, 65535, port) {
        Some(port) => Ok(Some(Address::Tcp(Text::copy_of(alloc, host)?, port as u16))),
        None => Ok(None),
    }
}

/// The number from one to another that a text writes.
fn number_from(low: u32, high: u32, text: &[u8]) -> Option<u32>
    requires { high < 2 ^ 28 }
    ensures { result ≡ number_from low high text.now }
{
    if !is_decimal(text) {
        return None;
    }
    let number = number_within(high, 0, text)?;
    if low <= number { Some(number) } else { None }
}

fn is_digit(octet: u8) -> bool
    ensures { result ≡ is_digit octet }
{
    b'0' <= octet && octet <= b'9'
}

/// Whether a text is decimal digits, the first of several not 0.
fn is_decimal(text: &[u8]) -> bool
    ensures { result ≡ is_decimal text.now }
{
    match text {
        [] => false,
        [digit] => is_digit(*digit),
        [first, rest @ ..] => *first != b'0' && is_digit(*first) && all_digits(rest),
    }
}

fn all_digits(text: &[u8]) -> bool
    ensures { result ≡ all_digits text.now }
{
    text.iter().all(|octet| is_digit(*octet))
}

/// The number that digits write after others that wrote the high part, where it is at most so much.
fn number_within(most: u32, high: u32, digits: &[u8]) -> Option<u32>
    requires small { most < 2 ^ 28 }
    requires within { high ≤ most }
    ensures { IsWithin most (number_after high digits.now) result }
{
    match digits {
        [] => Some(high),
        [digit, rest @ ..] => {
            let number = high * 10 + u32::from(digit.saturating_sub(b'0'));
            if number <= most {
                number_within(most, number, rest)
            } else {
                None
            }
        }
    }
}
