//! Contents of X.690:2021, and the values that they are the written form of.

use case_files::{Answer, NoAnswer};
use std::alloc::Global;
use std::fmt::Display;
use z_ber::{bits_of, bool_of, int_of, oid_of};
use z_types::Memory;

/// Whether a call is one of these. Its answer is put at the end.
pub(crate) fn is_answered(
    alloc: Global,
    call: &str,
    octets: &[u8],
    out: &mut Answer,
) -> Result<bool, NoAnswer> {
    match call {
        "int" => put_value(out, int_of(octets)),
        "bits" => put_bits(out, bits_of(octets)),
        "bool" => put_value(out, bool_of(octets)),
        "oid" => put_oid(alloc, out, octets)?,
        _ => return Ok(false),
    }
    Ok(true)
}

/// A value, if there is one.
fn put_value<T: Display + Drop>(out: &mut Answer, value: Option<T>) {
    match value {
        Some(value) => out.print(&value),
        None => out.put("none"),
    }
}

/// Bits in hexadecimal digits, bit 0 last, if there are any.
fn put_bits(out: &mut Answer, value: Option<u32>) {
    match value {
        Some(value) => out.put_bits(value),
        None => out.put("none"),
    }
}

/// An object identifier, if there is one.
fn put_oid(alloc: Global, out: &mut Answer, octets: &[u8]) -> Result<(), Memory> {
    match oid_of(alloc, octets)? {
        Some(oid) => out.put_numbers(".", oid.arcs()),
        None => out.put("none"),
    }
    Ok(())
}
