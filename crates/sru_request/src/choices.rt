//! What the values of parameters choose.

ghost use Rattle.std.specs.Prelude.{◌≡◌, ◌<◌, length, IfSome};
ghost use Rattle.sru_request.specs.Choices.{maximum_in, packing_in, is_of, schema_in};

use crate::number::number_in;
use z_types::Schema;

/// The most records of a reply.
const MOST_MAXIMUM_RECORDS: u32 = 100;

/// How many records at most.
pub(crate) fn maximum_in(value: &[u8]) -> Option<u32>
    ensures { result ≡ maximum_in value.now }
{
    match number_in(0, 10, value) {
        Some(number) => Some(number.min(MOST_MAXIMUM_RECORDS)),
        None => None,
    }
}

/// Whether records are escaped.
pub(crate) fn packing_in(value: &[u8]) -> Option<bool>
    ensures { result ≡ packing_in value.now }
{
    if value.is_empty() || value == b"xml".as_slice() {
        return Some(false);
    }
    if value == b"string".as_slice() {
        Some(true)
    } else {
        None
    }
}

/// Whether a value is the name or the identifier of a schema, or absent.
fn is_of(value: &[u8], schema: &Schema) -> bool
    ensures { result ≡ is_of value.now schema.now }
{
    value.is_empty() || (schema.name.as_slice() == value || schema.uri.as_slice() == value)
}

/// The place of the schema that a value is of, and of the first where it is absent.
pub(crate) fn schema_in(schemas: &[Schema], value: &[u8]) -> Option<usize>
    ensures value { result ≡ schema_in schemas.now value.now }
    ensures within { IfSome result (λ place. place < length schemas.now) }
{
    schemas.iter().position(|schema| is_of(value, schema))
}
