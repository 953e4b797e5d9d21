//! One whole element at the end of a text, in its written form (X.690:2021, 8.1, 10.1).

ghost use Rattle.std.specs.Prelude.{◌≡◌, ◌≤◌, ◌++◌, length, take, true, false, OnOk, OnErr};
ghost use Rattle.z_ber.specs.Written.{IsTag, element, bool_octets, int_octets, bits_octets, oid_octets};

use crate::Tag;
use crate::spell::{
    bits_len, int_len, oid_len, put_bits_octets, put_header, put_int_octets, put_oid_octets,
};
use z_types::{Memory, Oid, Text};

/// What was written; where memory failed, the text is cut to what stood there before.
fn cut_on_error(out: &mut Text, start: usize, written: Result<(), Memory>) -> Result<(), Memory>
    ensures value { result ≡ written }
    ensures ok { OnOk written (out.new ≡ out.old) }
    ensures err { OnErr written (out.new ≡ take start out.old) }
{
    if written.is_err() {
        out.truncate(start);
    }
    written
}

/// An element of these contents, or a part of it.
#[tactic(auto, using(crate::proofs::FrontStays::kept_on), unfolding(crate::specs::Written::element))]
fn put_bytes_element(out: &mut Text, tag: Tag, value: &[u8]) -> Result<(), Memory>
    requires { IsTag tag }
    ensures ok { OnOk result (out.new ≡ out.old ++ element tag value.now) }
    ensures err { OnErr result (take (length out.old) out.new ≡ out.old) }
{
    put_header(out, tag, value.len())?;
    out.append(value)
}

/// An element of an INTEGER, or a part of it.
#[tactic(auto, using(crate::proofs::FrontStays::kept_on), unfolding(crate::specs::Written::element))]
fn put_int_element(out: &mut Text, tag: Tag, value: i64) -> Result<(), Memory>
    requires { IsTag tag }
    ensures ok { OnOk result (out.new ≡ out.old ++ element tag (int_octets value)) }
    ensures err { OnErr result (take (length out.old) out.new ≡ out.old) }
{
    put_header(out, tag, int_len(value))?;
    put_int_octets(out, value)
}

/// An element of a BIT STRING, or a part of it.
#[tactic(auto, using(crate::proofs::FrontStays::kept_on), unfolding(crate::specs::Written::element))]
fn put_bits_element(out: &mut Text, tag: Tag, value: u32) -> Result<(), Memory>
    requires { IsTag tag }
    ensures ok { OnOk result (out.new ≡ out.old ++ element tag (bits_octets value)) }
    ensures err { OnErr result (take (length out.old) out.new ≡ out.old) }
{
    put_header(out, tag, bits_len(value))?;
    put_bits_octets(out, value)
}

/// An element of an OBJECT IDENTIFIER, or a part of it.
#[tactic(auto, using(crate::proofs::FrontStays::kept_on), unfolding(crate::specs::Written::element))]
fn put_oid_element(out: &mut Text, tag: Tag, arcs: &[u32]) -> Result<(), Memory>
    requires valid { IsTag tag }
    requires short { length arcs.now ≤ 32 }
    ensures ok { OnOk result (out.new ≡ out.old ++ element tag (oid_octets arcs.now)) }
    ensures err { OnErr result (take (length out.old) out.new ≡ out.old) }
{
    put_header(out, tag, oid_len(arcs))?;
    put_oid_octets(out, arcs)
}

/// Appends one INTEGER (8.3), in the fewest octets; without memory nothing is changed.
pub fn put_int(out: &mut Text, tag: Tag, value: i64) -> Result<(), Memory>
    requires valid { IsTag tag }
    requires primitive { tag.constructed ≡ false }
    ensures ok { OnOk result (out.new ≡ out.old ++ element tag (int_octets value)) }
    ensures err { OnErr result (out.new ≡ out.old) }
{
    let start = out.len();
    let written = put_int_element(out, tag, value);
    cut_on_error(out, start, written)
}

/// Appends one BOOLEAN (8.2), `ff` for true; without memory nothing is changed.
#[tactic(auto, unfolding(crate::specs::Written::bool_octets))]
pub fn put_bool(out: &mut Text, tag: Tag, value: bool) -> Result<(), Memory>
    requires valid { IsTag tag }
    requires primitive { tag.constructed ≡ false }
    ensures ok { OnOk result (out.new ≡ out.old ++ element tag (bool_octets value)) }
    ensures err { OnErr result (out.new ≡ out.old) }
{
    put_bytes(out, tag, &[if value { 255 } else { 0 }])
}

/// Appends one element of these contents, as of an OCTET STRING (8.7); without memory nothing is
/// changed.
pub fn put_bytes(out: &mut Text, tag: Tag, value: &[u8]) -> Result<(), Memory>
    requires valid { IsTag tag }
    requires primitive { tag.constructed ≡ false }
    ensures ok { OnOk result (out.new ≡ out.old ++ element tag value.now) }
    ensures err { OnErr result (out.new ≡ out.old) }
{
    let start = out.len();
    let written = put_bytes_element(out, tag, value);
    cut_on_error(out, start, written)
}

/// Appends one BIT STRING (8.6), whose bit k is bit k of the number; without memory nothing is
/// changed.
pub fn put_bits(out: &mut Text, tag: Tag, value: u32) -> Result<(), Memory>
    requires valid { IsTag tag }
    requires primitive { tag.constructed ≡ false }
    ensures ok { OnOk result (out.new ≡ out.old ++ element tag (bits_octets value)) }
    ensures err { OnErr result (out.new ≡ out.old) }
{
    let start = out.len();
    let written = put_bits_element(out, tag, value);
    cut_on_error(out, start, written)
}

/// Appends one OBJECT IDENTIFIER (8.19); without memory nothing is changed.
pub fn put_oid(out: &mut Text, tag: Tag, value: &Oid) -> Result<(), Memory>
    requires valid { IsTag tag }
    requires primitive { tag.constructed ≡ false }
    ensures ok { OnOk result (out.new ≡ out.old ++ element tag (oid_octets value.now)) }
    ensures err { OnErr result (out.new ≡ out.old) }
{
    let start = out.len();
    let written = put_oid_element(out, tag, value.arcs());
    cut_on_error(out, start, written)
}

/// Appends one constructed element whose contents, elements one after another, stand as they are;
/// without memory nothing is changed.
pub fn put_tree(out: &mut Text, tag: Tag, value: &[u8]) -> Result<(), Memory>
    requires valid { IsTag tag }
    requires constructed { tag.constructed ≡ true }
    ensures ok { OnOk result (out.new ≡ out.old ++ element tag value.now) }
    ensures err { OnErr result (out.new ≡ out.old) }
{
    let start = out.len();
    let written = put_bytes_element(out, tag, value);
    cut_on_error(out, start, written)
}
