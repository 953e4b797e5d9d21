//! Fields that several units share, with their lengths.

ghost use Rattle.std.specs.Prelude.{◌≡◌, ◌++◌, ◌<◌, ◌^◌, length, IfOk, OnOk, OnErr};
ghost use Rattle.z_ber.specs.Written.{IsTag, tag_octets, length_octets};
ghost use Rattle.unit_forms.specs.Fields.{octets_field, tree_field, integer_field, number_field, boolean_field, bits_field, identifier_field, object_identifier, general_string, integer, optional, ref_id_field};
ghost use Rattle.z_write.specs.Kept.{StillBegins};
ghost use Rattle.z_write.specs.Opened.{Opens};

use crate::lengths::element_len;
use unit_forms::tags;
use z_ber::{Tag, int_len, oid_len, put_bool, put_bytes, put_int, put_oid};
use z_types::{Memory, Oid, Text};

/// SEQUENCE (X.690:2021, 8.9).
pub(crate) const SEQUENCE: Tag = Tag {
    class: 0,
    constructed: true,
    number: tags::SEQUENCE,
};

/// EXTERNAL (X.690:2021, 8.18).
pub(crate) const EXTERNAL: Tag = Tag {
    class: 0,
    constructed: true,
    number: tags::EXTERNAL,
};

/// OBJECT IDENTIFIER (X.690:2021, 8.19).
pub(crate) const OBJECT_IDENTIFIER: Tag = Tag {
    class: 0,
    constructed: false,
    number: tags::OBJECT_IDENTIFIER,
};

/// INTEGER (X.690:2021, 8.3).
pub(crate) const INTEGER: Tag = Tag {
    class: 0,
    constructed: false,
    number: tags::INTEGER,
};

/// GeneralString (X.690:2021, 8.23).
pub(crate) const GENERAL_STRING: Tag = Tag {
    class: 0,
    constructed: false,
    number: tags::GENERAL_STRING,
};

/// Puts the identifier and length octets of an element whose contents, of this length, follow.
#[tactic(auto, unfolding(z_ber::specs::Written::element))]
pub(crate) fn put_header(out: &mut Text, tag: Tag, len: usize) -> Result<(), Memory>
    requires { IsTag tag }
    ensures ok { OnOk result (Opens out.old tag len out.new) }
    ensures header { OnOk result (out.new ≡ out.old ++ (tag_octets tag ++ length_octets len)) }
    ensures err { OnErr result (StillBegins out.old out.new) }
{
    z_ber::put_header(out, tag, len)
}

/// A field of octets.
pub(crate) fn put_octets(out: &mut Text, number: u32, octets: &[u8]) -> Result<(), Memory>
    requires { number < 2 ^ 31 }
    ensures ok { OnOk result (out.new ≡ out.old ++ octets_field number octets.now) }
    ensures err { OnErr result (StillBegins out.old out.new) }
{
    put_bytes(out, Tag::context(number), octets)
}

pub(crate) fn octets_len(number: u32, octets: &[u8]) -> Result<usize, Memory>
    requires { number < 2 ^ 31 }
    ensures { IfOk result (λ len. len ≡ length (octets_field number octets.now)) }
{
    element_len(Tag::context(number), octets.len())
}

/// A field of elements, which stand as they are.
pub(crate) fn put_elements(out: &mut Text, number: u32, elements: &[u8]) -> Result<(), Memory>
    requires { number < 2 ^ 31 }
    ensures ok { OnOk result (out.new ≡ out.old ++ tree_field number elements.now) }
    ensures err { OnErr result (StillBegins out.old out.new) }
{
    z_ber::put_tree(out, Tag::constructed_context(number), elements)
}

/// A field of an integer.
pub(crate) fn put_integer(out: &mut Text, number: u32, value: i64) -> Result<(), Memory>
    requires { number < 2 ^ 31 }
    ensures ok { OnOk result (out.new ≡ out.old ++ integer_field number value) }
    ensures err { OnErr result (StillBegins out.old out.new) }
{
    put_int(out, Tag::context(number), value)
}

pub(crate) fn integer_len(number: u32, value: i64) -> Result<usize, Memory>
    requires { number < 2 ^ 31 }
    ensures { IfOk result (λ len. len ≡ length (integer_field number value)) }
{
    element_len(Tag::context(number), int_len(value))
}

/// A field of a number that is not negative.
pub(crate) fn put_number(out: &mut Text, number: u32, value: u32) -> Result<(), Memory>
    requires { number < 2 ^ 31 }
    ensures ok { OnOk result (out.new ≡ out.old ++ number_field number value) }
    ensures err { OnErr result (StillBegins out.old out.new) }
{
    put_integer(out, number, i64::from(value))
}

pub(crate) fn number_len(number: u32, value: u32) -> Result<usize, Memory>
    requires { number < 2 ^ 31 }
    ensures { IfOk result (λ len. len ≡ length (number_field number value)) }
{
    integer_len(number, i64::from(value))
}

/// A field of a truth value.
pub(crate) fn put_boolean(out: &mut Text, number: u32, value: bool) -> Result<(), Memory>
    requires { number < 2 ^ 31 }
    ensures ok { OnOk result (out.new ≡ out.old ++ boolean_field number value) }
    ensures err { OnErr result (StillBegins out.old out.new) }
{
    put_bool(out, Tag::context(number), value)
}

#[tactic(auto, unfolding(z_ber::specs::Written::bool_octets))]
pub(crate) fn boolean_len(number: u32, value: bool) -> Result<usize, Memory>
    requires { number < 2 ^ 31 }
    ensures { IfOk result (λ len. len ≡ length (boolean_field number value)) }
{
    element_len(Tag::context(number), 1)
}

/// A field of bits.
pub(crate) fn put_bits(out: &mut Text, number: u32, value: u32) -> Result<(), Memory>
    requires { number < 2 ^ 31 }
    ensures ok { OnOk result (out.new ≡ out.old ++ bits_field number value) }
    ensures err { OnErr result (StillBegins out.old out.new) }
{
    z_ber::put_bits(out, Tag::context(number), value)
}

pub(crate) fn bits_len(number: u32, value: u32) -> Result<usize, Memory>
    requires { number < 2 ^ 31 }
    ensures { IfOk result (λ len. len ≡ length (bits_field number value)) }
{
    element_len(Tag::context(number), z_ber::bits_len(value))
}

/// A field of an object identifier.
fn put_identifier(out: &mut Text, number: u32, value: &Oid) -> Result<(), Memory>
    requires { number < 2 ^ 31 }
    ensures ok { OnOk result (out.new ≡ out.old ++ identifier_field number value.now) }
    ensures err { OnErr result (StillBegins out.old out.new) }
{
    put_oid(out, Tag::context(number), value)
}

fn identifier_len(number: u32, value: &Oid) -> Result<usize, Memory>
    requires { number < 2 ^ 31 }
    ensures { IfOk result (λ len. len ≡ length (identifier_field number value.now)) }
{
    element_len(Tag::context(number), oid_len(value.arcs()))
}

/// An OBJECT IDENTIFIER (X.690:2021, 8.19).
pub(crate) fn put_object_identifier(out: &mut Text, value: &Oid) -> Result<(), Memory>
    ensures ok { OnOk result (out.new ≡ out.old ++ object_identifier value.now) }
    ensures err { OnErr result (StillBegins out.old out.new) }
{
    put_oid(out, OBJECT_IDENTIFIER, value)
}

pub(crate) fn object_identifier_len(value: &Oid) -> Result<usize, Memory>
    ensures { IfOk result (λ len. len ≡ length (object_identifier value.now)) }
{
    element_len(OBJECT_IDENTIFIER, oid_len(value.arcs()))
}

/// An INTEGER (X.690:2021, 8.3).
pub(crate) fn put_plain_integer(out: &mut Text, value: u32) -> Result<(), Memory>
    ensures ok { OnOk result (out.new ≡ out.old ++ integer value) }
    ensures err { OnErr result (StillBegins out.old out.new) }
{
    put_int(out, INTEGER, i64::from(value))
}

pub(crate) fn plain_integer_len(value: u32) -> Result<usize, Memory>
    ensures { IfOk result (λ len. len ≡ length (integer value)) }
{
    element_len(INTEGER, int_len(i64::from(value)))
}

/// A GeneralString (X.690:2021, 8.23).
pub(crate) fn put_general_string(out: &mut Text, octets: &[u8]) -> Result<(), Memory>
    ensures ok { OnOk result (out.new ≡ out.old ++ general_string octets.now) }
    ensures err { OnErr result (StillBegins out.old out.new) }
{
    put_bytes(out, GENERAL_STRING, octets)
}

pub(crate) fn general_string_len(octets: &[u8]) -> Result<usize, Memory>
    ensures { IfOk result (λ len. len ≡ length (general_string octets.now)) }
{
    element_len(GENERAL_STRING, octets.len())
}

/// A field of octets that may be absent.
pub(crate) fn put_optional_octets(
    out: &mut Text,
    number: u32,
    value: &Option<Text>,
) -> Result<(), Memory>
    requires { number < 2 ^ 31 }
    ensures ok { OnOk result (out.new ≡ out.old ++ optional (octets_field number) value.now) }
    ensures err { OnErr result (StillBegins out.old out.new) }
{
    match value {
        Some(value) => put_octets(out, number, value.as_slice()),
        None => Ok(()),
    }
}

pub(crate) fn optional_octets_len(number: u32, value: &Option<Text>) -> Result<usize, Memory>
    requires { number < 2 ^ 31 }
    ensures { IfOk result (λ len. len ≡ length (optional (octets_field number) value.now)) }
{
    match value {
        Some(value) => octets_len(number, value.as_slice()),
        None => Ok(0),
    }
}

/// A field of a number that may be absent.
pub(crate) fn put_optional_number(
    out: &mut Text,
    number: u32,
    value: Option<u32>,
) -> Result<(), Memory>
    requires { number < 2 ^ 31 }
    ensures ok { OnOk result (out.new ≡ out.old ++ optional (number_field number) value) }
    ensures err { OnErr result (StillBegins out.old out.new) }
{
    match value {
        Some(value) => put_number(out, number, value),
        None => Ok(()),
    }
}

pub(crate) fn optional_number_len(number: u32, value: Option<u32>) -> Result<usize, Memory>
    requires { number < 2 ^ 31 }
    ensures { IfOk result (λ len. len ≡ length (optional (number_field number) value)) }
{
    match value {
        Some(value) => number_len(number, value),
        None => Ok(0),
    }
}

/// A field of an object identifier that may be absent.
pub(crate) fn put_optional_identifier(
    out: &mut Text,
    number: u32,
    value: &Option<Oid>,
) -> Result<(), Memory>
    requires { number < 2 ^ 31 }
    ensures ok { OnOk result (out.new ≡ out.old ++ optional (identifier_field number) value.now) }
    ensures err { OnErr result (StillBegins out.old out.new) }
{
    match value {
        Some(value) => put_identifier(out, number, value),
        None => Ok(()),
    }
}

pub(crate) fn optional_identifier_len(number: u32, value: &Option<Oid>) -> Result<usize, Memory>
    requires { number < 2 ^ 31 }
    ensures { IfOk result (λ len. len ≡ length (optional (identifier_field number) value.now)) }
{
    match value {
        Some(value) => identifier_len(number, value),
        None => Ok(0),
    }
}

/// An OBJECT IDENTIFIER that may be absent.
pub(crate) fn put_optional_object_identifier(
    out: &mut Text,
    value: &Option<Oid>,
) -> Result<(), Memory>
    ensures ok { OnOk result (out.new ≡ out.old ++ optional object_identifier value.now) }
    ensures err { OnErr result (StillBegins out.old out.new) }
{
    match value {
        Some(value) => put_object_identifier(out, value),
        None => Ok(()),
    }
}

pub(crate) fn optional_object_identifier_len(value: &Option<Oid>) -> Result<usize, Memory>
    ensures { IfOk result (λ len. len ≡ length (optional object_identifier value.now)) }
{
    match value {
        Some(value) => object_identifier_len(value),
        None => Ok(0),
    }
}

/// The referenceId, where it is there.
pub(crate) fn put_ref_id(out: &mut Text, ref_id: &Option<Text>) -> Result<(), Memory>
    ensures ok { OnOk result (out.new ≡ out.old ++ ref_id_field ref_id.now) }
    ensures err { OnErr result (StillBegins out.old out.new) }
{
    put_optional_octets(out, tags::REFERENCE_ID, ref_id)
}

pub(crate) fn ref_id_len(ref_id: &Option<Text>) -> Result<usize, Memory>
    ensures { IfOk result (λ len. len ≡ length (ref_id_field ref_id.now)) }
{
    optional_octets_len(tags::REFERENCE_ID, ref_id)
}
