//! The parameters of a query.

ghost use Rattle.std.specs.Prelude.{◌≡◌, IfOk};
ghost use Rattle.sru_request.specs.Parameters.{text_of, parameter_of, parameters_of, value_of};

use form_urlencoded::{decode, raw_pairs};
use std::alloc::Global;
use z_types::{List, Memory, Text};

/// A name and its value, as text.
#[derive(Drop)]
pub(crate) struct Parameter {
    /// Its name.
    pub name: Text,
    /// Its value.
    pub value: Text,
}

/// An encoded name or value as text: `+` is a space, escapes are decoded, and what is not UTF-8
/// becomes U+FFFD.
fn text_of(alloc: Global, octets: &[u8]) -> Result<Text, Memory>
    ensures { IfOk result (λ text. text ≡ text_of octets.now) }
{
    let text = decode(alloc, octets)?;
    Text::copy_of(alloc, text.as_str().as_bytes())
}

/// A pair as text.
fn parameter_of(alloc: Global, name: &[u8], value: &[u8]) -> Result<Parameter, Memory>
    ensures { IfOk result (λ p. p ≡ parameter_of (name.now, value.now)) }
{
    Ok(Parameter {
        name: text_of(alloc, name)?,
        value: text_of(alloc, value)?,
    })
}

/// The pairs of a query in order.
pub(crate) fn parameters_of(alloc: Global, query: &[u8]) -> Result<List<Parameter>, Memory>
    ensures { IfOk result (λ given. given ≡ parameters_of query.now) }
{
    let mut given = List::new(alloc);
    for (name, value) in raw_pairs(query) {
        given.push(parameter_of(alloc, name, value)?)?;
    }
    Ok(given)
}

/// The value of a name: that of its first pair, and empty where there is none.
pub(crate) fn value_of<'a>(given: &'a [Parameter], name: &[u8]) -> &'a [u8]
    ensures { result.now ≡ value_of name.now given.now }
{
    for parameter in given {
        if parameter.name.as_slice() == name {
            return parameter.value.as_slice();
        }
    }
    &[]
}
