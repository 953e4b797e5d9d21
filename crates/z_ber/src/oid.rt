//! The object identifier whose written form contents are (X.690:2021, 8.19).

ghost use Rattle.std.specs.Prelude.{◌+◌, ◌*◌, ◌^◌, ◌<◌, [], ◌∷◌, ◌++◌, length, IsTrue, IfOk, IfSome};
ghost use Rattle.std.specs.Option.{option_map};
ghost use Rattle.z_types.specs.Oid.{has_root};
ghost use Rattle.z_types.specs.ReadAs.{IsReadAs, IsReadInFront};
ghost use Rattle.z_ber.specs.Arcs.{AreArcsRead, marked_digits};
ghost use Rattle.z_ber.specs.Values.{IsOid, IsSubidentifier};
ghost use Rattle.z_ber.specs.Written.{septets, oid_octets};

use std::alloc::Global;
use z_types::{Memory, Oid};

/// A number below 2^33 in the fewest octets of seven bits each, of which the high part is known, and
/// what follows it (8.19.2).
fn number(high: u64, bytes: &[u8]) -> Option<(u64, &[u8])>
    requires { high < 2 ^ 26 }
    ensures read { IsReadInFront IsSubidentifier septets (marked_digits high ++ bytes.now) result }
    ensures shorter { IfSome result (λ x. length x.1.now < length bytes.now) }
{
    match bytes {
        [] => None,
        [octet, rest @ ..] => {
            if *octet < 128 {
                return Some((high * 128 + u64::from(*octet), rest));
            }
            let more = high * 128 + u64::from(*octet - 128);
            if more == 0 || more > 67_108_863 {
                return None;
            }
            number(more, rest)
        }
    }
}

/// The numbers so far and those that the octets are, with 32 numbers at most.
fn read_arcs(mut arcs: Vec<u32>, bytes: &[u8]) -> Result<Option<Vec<u32>>, Memory>
    ensures { IfOk result
        (λ all. AreArcsRead arcs.items bytes.now (option_map (λ v. v.items) all)) }
{
    if arcs.len() > 32 {
        return Ok(None);
    }
    if bytes.is_empty() {
        return Ok(Some(arcs));
    }
    match number(0, bytes) {
        None => Ok(None),
        Some((number, rest)) => match u32::try_from(number) {
            Ok(arc) => {
                arcs.push(arc)?;
                read_arcs(arcs, rest)
            }
            Err(_) => Ok(None),
        },
    }
}

/// The object identifier of the first two numbers and those that octets are.
fn behind_root(alloc: Global, first: u32, second: u32, bytes: &[u8]) -> Result<Option<Oid>, Memory>
    requires { IsTrue (has_root (first ∷ second ∷ [])) }
    ensures { IfOk result (IsReadAs IsOid oid_octets (septets (40 * first + second) ++ bytes.now)) }
{
    let root = vec![in alloc; first, second]?;
    match read_arcs(root, bytes)? {
        Some(arcs) => Ok(Oid::from_vec(arcs)),
        None => Ok(None),
    }
}

/// The object identifier of the number that the first two are written as (8.19.4), and of those
/// that octets are.
fn behind_number(alloc: Global, number: u64, bytes: &[u8]) -> Result<Option<Oid>, Memory>
    ensures { IfOk result (IsReadAs IsOid oid_octets (septets number ++ bytes.now)) }
{
    let first = (number / 40).min(2) as u32;
    match u32::try_from(number - 40 * u64::from(first)) {
        Ok(second) => behind_root(alloc, first, second, bytes),
        Err(_) => Ok(None),
    }
}

/// The object identifier whose written form contents are (8.19), exactly where there is one: 2 to 32
/// numbers below 2^32 under one of the three roots, each in the fewest octets. Only memory may fail.
pub fn oid_of(alloc: Global, contents: &[u8]) -> Result<Option<Oid>, Memory>
    ensures { IfOk result (IsReadAs IsOid oid_octets contents.now) }
{
    match number(0, contents) {
        Some((number, rest)) => behind_number(alloc, number, rest),
        None => Ok(None),
    }
}
