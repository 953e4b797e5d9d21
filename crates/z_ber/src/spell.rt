//! Identifier, length and contents octets (X.690:2021, 8.1.2, 8.1.3, 8.3, 8.6, 8.19).

ghost use Rattle.std.specs.Prelude.{◌≡◌, ◌+◌, ◌-◌, ◌*◌, ◌≤◌, ◌++◌, length, take, OnOk, OnErr};
ghost use Rattle.std.specs.List.{flat_map};
ghost use Rattle.z_ber.specs.Written.{IsTag, turned, septets, tag_octets, length_octets, natural_octets, magnitude, int_octets, unused_bits, bits_octets, oid_octets};

use crate::Tag;
use crate::digits::{
    count_digits, first_digit, put_digits, put_marked_digits, put_mirrored_digits,
    put_turned_digits,
};
use z_types::{Memory, Text};

/// How many octets a number takes at seven bits each.
#[tactic(auto, unfolding(crate::specs::Written::septets))]
fn septets_len(number: u64) -> usize
    ensures value { result ≡ length (septets number) }
    ensures small { result ≤ 65 }
{
    count_digits(128, number / 128) + 1
}

/// A number at seven bits an octet (8.1.2.4.2, 8.19.2).
#[tactic(auto, using(crate::proofs::FrontStays::kept_on), unfolding(crate::specs::Written::septets))]
fn put_septets(out: &mut Text, number: u64) -> Result<(), Memory>
    ensures ok { OnOk result (out.new ≡ out.old ++ septets number) }
    ensures err { OnErr result (take (length out.old) out.new ≡ out.old) }
{
    put_marked_digits(out, number / 128)?;
    out.push((number % 128) as u8)
}

/// Identifier octets (8.1.2).
#[tactic(auto, using(crate::proofs::FrontStays::kept_on), unfolding(crate::specs::Written::tag_octets))]
fn put_tag(out: &mut Text, tag: Tag) -> Result<(), Memory>
    requires { IsTag tag }
    ensures ok { OnOk result (out.new ≡ out.old ++ tag_octets tag) }
    ensures err { OnErr result (take (length out.old) out.new ≡ out.old) }
{
    let lead = 64 * tag.class + if tag.constructed { 32 } else { 0 };
    if tag.number < 31 {
        return out.push(lead + tag.number as u8);
    }
    out.push(lead + 31)?;
    put_septets(out, u64::from(tag.number))
}

/// Length octets (8.1.3), the fewest (10.1).
#[tactic(auto, using(crate::proofs::FrontStays::kept_on), unfolding(crate::specs::Written::length_octets))]
fn put_length(out: &mut Text, len: usize) -> Result<(), Memory>
    ensures ok { OnOk result (out.new ≡ out.old ++ length_octets len) }
    ensures err { OnErr result (take (length out.old) out.new ≡ out.old) }
{
    if len < 128 {
        return out.push(len as u8);
    }
    out.push(128 + count_digits(256, len as u64) as u8)?;
    put_digits(out, len as u64)
}

/// Identifier octets and the length octets of contents of this length (8.1.1).
#[tactic(auto, using(crate::proofs::FrontStays::kept_on))]
pub fn put_header(out: &mut Text, tag: Tag, len: usize) -> Result<(), Memory>
    requires { IsTag tag }
    ensures ok { OnOk result (out.new ≡ out.old ++ tag_octets tag ++ length_octets len) }
    ensures err { OnErr result (take (length out.old) out.new ≡ out.old) }
{
    put_tag(out, tag)?;
    put_length(out, len)
}

/// How many identifier octets a tag takes.
#[tactic(auto, unfolding(crate::specs::Written::tag_octets))]
fn tag_len(tag: Tag) -> usize
    requires { IsTag tag }
    ensures value { result ≡ length (tag_octets tag) }
    ensures small { result ≤ 66 }
{
    if tag.number < 31 {
        1
    } else {
        1 + septets_len(u64::from(tag.number))
    }
}

/// How many length octets contents of this length take.
#[tactic(auto, unfolding(crate::specs::Written::length_octets))]
fn length_len(len: usize) -> usize
    ensures value { result ≡ length (length_octets len) }
    ensures small { result ≤ 65 }
{
    if len < 128 {
        1
    } else {
        1 + count_digits(256, len as u64)
    }
}

/// How many identifier and length octets an element takes whose contents have this length (8.1.1).
pub fn header_len(tag: Tag, len: usize) -> usize
    requires { IsTag tag }
    ensures value { result ≡ length (tag_octets tag) + length (length_octets len) }
    ensures small { result ≤ 131 }
{
    tag_len(tag) + length_len(len)
}

/// How many octets a natural number takes with a sign bit of 0.
#[tactic(auto, unfolding(crate::specs::Written::natural_octets))]
fn natural_len(number: u64) -> usize
    ensures { result ≡ length (natural_octets number) }
{
    let digits = count_digits(256, number);
    if first_digit(number) < 128 {
        digits
    } else {
        digits + 1
    }
}

/// A natural number with a sign bit of 0.
#[tactic(auto, using(crate::proofs::FrontStays::kept_on), unfolding(crate::specs::Written::natural_octets))]
fn put_natural(out: &mut Text, number: u64) -> Result<(), Memory>
    ensures ok { OnOk result (out.new ≡ out.old ++ natural_octets number) }
    ensures err { OnErr result (take (length out.old) out.new ≡ out.old) }
{
    if first_digit(number) >= 128 {
        out.push(0)?;
    }
    put_digits(out, number)
}

/// The same with each bit turned, which is -1 less that number.
#[tactic(auto, using(crate::proofs::FrontStays::kept_on), unfolding(crate::specs::Written::natural_octets))]
fn put_turned_natural(out: &mut Text, number: u64) -> Result<(), Memory>
    ensures ok { OnOk result (out.new ≡ out.old ++ turned (natural_octets number)) }
    ensures err { OnErr result (take (length out.old) out.new ≡ out.old) }
{
    if first_digit(number) >= 128 {
        out.push(255)?;
    }
    put_turned_digits(out, number)
}

/// The natural number that is written for an integer.
fn magnitude(value: i64) -> u64
    ensures { result ≡ magnitude value }
{
    if value >= 0 {
        value as u64
    } else {
        (-1 - value) as u64
    }
}

/// How many octets an INTEGER takes.
pub fn int_len(value: i64) -> usize
    ensures { result ≡ length (int_octets value) }
{
    natural_len(magnitude(value))
}

/// The contents of an INTEGER (8.3).
pub fn put_int_octets(out: &mut Text, value: i64) -> Result<(), Memory>
    ensures ok { OnOk result (out.new ≡ out.old ++ int_octets value) }
    ensures err { OnErr result (take (length out.old) out.new ≡ out.old) }
{
    if value >= 0 {
        put_natural(out, magnitude(value))
    } else {
        put_turned_natural(out, magnitude(value))
    }
}

/// How many octets a BIT STRING takes.
#[tactic(auto, unfolding(crate::specs::Written::bits_octets))]
pub fn bits_len(value: u32) -> usize
    ensures { result ≡ length (bits_octets value) }
{
    count_digits(256, u64::from(value)) + 1
}

/// The count of unused bits (8.6.2.2).
#[tactic(auto, unfolding(crate::specs::Written::unused_bits))]
pub fn unused_bits(value: u32) -> u8
    ensures { result ≡ unused_bits value }
{
    ((8 - count_digits(2, u64::from(value)) % 8) % 8) as u8
}

/// The contents of a BIT STRING (8.6.2).
#[tactic(auto, using(crate::proofs::FrontStays::kept_on), unfolding(crate::specs::Written::bits_octets))]
pub fn put_bits_octets(out: &mut Text, value: u32) -> Result<(), Memory>
    ensures ok { OnOk result (out.new ≡ out.old ++ bits_octets value) }
    ensures err { OnErr result (take (length out.old) out.new ≡ out.old) }
{
    out.push(unused_bits(value))?;
    put_mirrored_digits(out, u64::from(value))
}

/// How many octets these numbers take.
fn arcs_len(arcs: &[u32]) -> usize
    requires { length arcs.now ≤ 32 }
    ensures value { result ≡ length (flat_map septets arcs.now) }
    ensures small { result ≤ 65 * length arcs.now }
{
    let mut len = 0;
    for arc in arcs {
        len += septets_len(u64::from(*arc));
    }
    len
}

/// These numbers, one after another.
fn put_arcs(out: &mut Text, arcs: &[u32]) -> Result<(), Memory>
    ensures ok { OnOk result (out.new ≡ out.old ++ flat_map septets arcs.now) }
    ensures err { OnErr result (take (length out.old) out.new ≡ out.old) }
{
    for arc in arcs {
        put_septets(out, u64::from(*arc))?;
    }
    Ok(())
}

/// How many octets an OBJECT IDENTIFIER takes.
#[tactic(auto, unfolding(crate::specs::Written::oid_octets))]
pub fn oid_len(arcs: &[u32]) -> usize
    requires { length arcs.now ≤ 32 }
    ensures { result ≡ length (oid_octets arcs.now) }
{
    match arcs {
        [first, second, rest @ ..] => {
            septets_len(40 * u64::from(*first) + u64::from(*second)) + arcs_len(rest)
        }
        _ => 0,
    }
}

/// The contents of an OBJECT IDENTIFIER (8.19.4).
#[tactic(auto, using(crate::proofs::FrontStays::kept_on), unfolding(crate::specs::Written::oid_octets))]
pub fn put_oid_octets(out: &mut Text, arcs: &[u32]) -> Result<(), Memory>
    ensures ok { OnOk result (out.new ≡ out.old ++ oid_octets arcs.now) }
    ensures err { OnErr result (take (length out.old) out.new ≡ out.old) }
{
    match arcs {
        [first, second, rest @ ..] => {
            put_septets(out, 40 * u64::from(*first) + u64::from(*second))?;
            put_arcs(out, rest)
        }
        _ => Ok(()),
    }
}
