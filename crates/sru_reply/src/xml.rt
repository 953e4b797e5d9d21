//! Elements with their tags.

ghost use Rattle.std.specs.Prelude.{◌≡◌, ◌++◌, [], OnOk};
ghost use Rattle.std.specs.Fmt.{decimal};
ghost use Rattle.sru_reply.specs.Xml.{attribute, start_tag, end_tag, element};

use std::alloc::Global;
use z_types::{Memory, Text};

/// A start tag without attributes.
#[tactic(auto, unfolding(crate::specs::Xml::start_tag))]
pub(crate) fn put_start(out: &mut Text, name: &[u8]) -> Result<(), Memory>
    ensures { OnOk result (out.new ≡ out.old ++ start_tag name.now []) }
{
    out.push(b'<')?;
    out.append(name)?;
    out.push(b'>')
}

/// A start tag with one attribute.
#[tactic(auto, unfolding(crate::specs::Xml::start_tag))]
pub(crate) fn put_start_with(
    out: &mut Text,
    name: &[u8],
    key: &[u8],
    value: &[u8],
) -> Result<(), Memory>
    ensures { OnOk result (out.new ≡ out.old ++ start_tag name.now (attribute key.now value.now)) }
{
    out.push(b'<')?;
    out.append(name)?;
    put_attribute(out, key, value)?;
    out.push(b'>')
}

/// An attribute.
fn put_attribute(out: &mut Text, key: &[u8], value: &[u8]) -> Result<(), Memory>
    ensures { OnOk result (out.new ≡ out.old ++ attribute key.now value.now) }
{
    out.push(b' ')?;
    out.append(key)?;
    out.append(b"=\"")?;
    out.append(value)?;
    out.push(b'"')
}

/// An end tag.
#[tactic(auto, unfolding(crate::specs::Xml::end_tag))]
pub(crate) fn put_end(out: &mut Text, name: &[u8]) -> Result<(), Memory>
    ensures { OnOk result (out.new ≡ out.old ++ end_tag name.now) }
{
    out.append(b"</")?;
    out.append(name)?;
    out.push(b'>')
}

/// An element with this content, which stands as it is.
#[tactic(auto, unfolding(crate::specs::Xml::element))]
pub(crate) fn put_element(out: &mut Text, name: &[u8], content: &[u8]) -> Result<(), Memory>
    ensures { OnOk result (out.new ≡ out.old ++ element name.now content.now) }
{
    put_start(out, name)?;
    out.append(content)?;
    put_end(out, name)
}

/// A number in decimal.
pub(crate) fn put_number(alloc: Global, out: &mut Text, number: u128) -> Result<(), Memory>
    ensures { OnOk result (out.new ≡ out.old ++ decimal number) }
{
    let text = format!(in alloc; "{number}")?;
    out.append(text.as_bytes())
}

/// An element with a number.
#[tactic(auto, unfolding(crate::specs::Xml::element))]
pub(crate) fn put_number_element(
    alloc: Global,
    out: &mut Text,
    name: &[u8],
    number: u128,
) -> Result<(), Memory>
    ensures { OnOk result (out.new ≡ out.old ++ element name.now (decimal number)) }
{
    put_start(out, name)?;
    put_number(alloc, out, number)?;
    put_end(out, name)
}
