//! How a key of the configuration is named.

ghost use Rattle.std.specs.Prelude.{◌≡◌, IfOk};
ghost use Rattle.route_text.specs.Path.{key_path, item_path};

use std::alloc::Global;
use z_types::{Memory, Text};

/// The path of a key of the table at a path.
pub fn key_path(alloc: Global, path: &[u8], key: &[u8]) -> Result<Text, Memory>
    ensures { IfOk result (λ text. text ≡ key_path path.now key.now) }
{
    let mut text = Text::copy_of(alloc, path)?;
    if !path.is_empty() {
        text.push(b'.')?;
    }
    text.append(key)?;
    Ok(text)
}

/// The path of an item of the array at a path.
pub fn item_path(alloc: Global, path: &[u8], place: usize) -> Result<Text, Memory>
    ensures { IfOk result (λ text. text ≡ item_path path.now place) }
{
    let number = format!(in alloc; "{place}")?;
    let mut text = Text::copy_of(alloc, path)?;
    text.push(b'[')?;
    text.append(number.as_bytes())?;
    text.push(b']')?;
    Ok(text)
}
