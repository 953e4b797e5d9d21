//! Contents of an OBJECT IDENTIFIER, as they are read (X.690:2021, 8.19).

ghost use Rattle.std.specs.Prelude.{◌≡◌, ◌+◌, ◌^◌, ◌<◌, ◌≤◌, ◌++◌, true, option_map, IfOk, OnOk};
ghost use Rattle.unit_forms.specs.Reading.Contents.{arcs_of, greatest_arc, arcs_after, oid_in};

use std::alloc::Global;
use z_types::{MOST_ARCS, Memory, Oid};

/// The greatest number that may stand in a place: the first two numbers stand as one.
fn greatest_arc(first: bool) -> u64
    ensures value { result ≡ greatest_arc first }
    ensures small { result ≤ 2 ^ 32 + 79 }
{
    if first { 4_294_967_375 } else { 4_294_967_295 }
}

/// Pushes the numbers that one stands for.
fn push_arcs(arcs: &mut Vec<u32>, first: bool, number: u64) -> Result<(), Memory>
    requires { number ≤ greatest_arc first }
    ensures { OnOk result (arcs.new.items ≡ arcs.old.items ++ arcs_of first number) }
{
    if first {
        let root = (number / 40).min(2);
        arcs.push(root as u32)?;
        arcs.push((number - 40 * root) as u32)?;
    } else {
        arcs.push(number as u32)?;
    }
    Ok(())
}

/// The numbers of octets one after another, where there are some of an object identifier's size.
fn arcs_in(alloc: Global, octets: &[u8]) -> Result<Option<Vec<u32>>, Memory>
    ensures { IfOk result (λ arcs. option_map (λ v. v.items) arcs ≡ arcs_after true 0 octets.now) }
{
    let mut arcs = Vec::with_capacity(alloc, octets.len().saturating_add(1).min(MOST_ARCS))?;
    let mut first = true;
    let mut high: u64 = 0;
    let mut left = octets;
    while let [octet, rest @ ..] = left {
        let number = high * 128 + u64::from(*octet % 128);
        if number > greatest_arc(first) {
            return Ok(None);
        }
        if *octet < 128 {
            push_arcs(&mut arcs, first, number)?;
            first = false;
            high = 0;
        } else {
            if rest.is_empty() {
                return Ok(None);
            }
            high = number;
        }
        left = rest;
    }
    Ok(Some(arcs))
}

/// The object identifier that contents are: 2 to 32 numbers below 2^32 under one of the three roots.
#[tactic(auto, unfolding(unit_forms::specs::Reading::Contents::oid_in))]
pub fn oid_in(alloc: Global, contents: &[u8]) -> Result<Option<Oid>, Memory>
    ensures { IfOk result (λ oid. oid ≡ oid_in contents.now) }
{
    match arcs_in(alloc, contents)? {
        Some(arcs) => Ok(Oid::from_vec(arcs)),
        None => Ok(None),
    }
}
