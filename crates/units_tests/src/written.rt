//! Values, each written as the element of X.690:2021 that it has behind other octets.

use case_files::{Answer, NoAnswer, octets_of_hex, oid_of_words};
use std::alloc::Global;
use z_ber::{Tag, put_bits, put_bool, put_bytes, put_int, put_oid, put_tree};
use z_types::Text;

/// Whether a call is one of these. Its answer is put at the end.
pub(crate) fn is_answered(
    alloc: Global,
    call: &str,
    words: &str,
    out: &mut Answer,
) -> Result<bool, NoAnswer> {
    let mut unit = Text::copy_of(alloc, b"x")?;
    match call {
        "put_bool" => put_bool(&mut unit, Tag::universal(1), bool_of(words)?)?,
        "put_int" => put_int(&mut unit, Tag::universal(2), int_of(words)?)?,
        "put_bits" => put_bits(&mut unit, Tag::universal(3), bits_of(words)?)?,
        "put_bytes" => put_octets(alloc, &mut unit, words)?,
        "put_oid" => put_numbers(alloc, &mut unit, words)?,
        "put_tree" => put_elements(alloc, &mut unit, words)?,
        _ => return Ok(false),
    }
    put_behind(out, unit.as_slice());
    Ok(true)
}

/// A truth value.
fn bool_of(words: &str) -> Result<bool, NoAnswer> {
    match words {
        "true" => Ok(true),
        "false" => Ok(false),
        _ => Err(NoAnswer::Misspelt),
    }
}

/// A number.
fn int_of(words: &str) -> Result<i64, NoAnswer> {
    words.parse().or(Err(NoAnswer::Misspelt))
}

/// Bits in hexadecimal digits, bit 0 last.
fn bits_of(words: &str) -> Result<u32, NoAnswer> {
    u32::from_str_radix(words, 16).or(Err(NoAnswer::Misspelt))
}

/// Octets under the tag of a database's name.
fn put_octets(alloc: Global, unit: &mut Text, words: &str) -> Result<(), NoAnswer> {
    let octets = octets_of_hex(alloc, words)?;
    Ok(put_bytes(unit, Tag::context(105), octets.as_slice())?)
}

/// An object identifier.
fn put_numbers(alloc: Global, unit: &mut Text, words: &str) -> Result<(), NoAnswer> {
    let Some(oid) = oid_of_words(alloc, words)? else {
        return Err(NoAnswer::Misspelt);
    };
    Ok(put_oid(unit, Tag::universal(6), &oid)?)
}

/// Elements within another.
fn put_elements(alloc: Global, unit: &mut Text, words: &str) -> Result<(), NoAnswer> {
    let octets = octets_of_hex(alloc, words)?;
    Ok(put_tree(unit, Tag::constructed_context(1), octets.as_slice())?)
}

/// What was put behind the octet `x`.
fn put_behind(out: &mut Answer, unit: &[u8]) {
    match unit.strip_prefix(b"x") {
        Some(behind) => out.put_hex(behind),
        None => out.put("not behind other octets"),
    }
}
