//! Octets as words: hexadecimal digits, or the name of a setting whose value is such digits.

use hex::FromHexError;
use std::alloc::Global;
use test_cases::Case;
use z_types::{Memory, Text};

/// The octets of words, one behind another; none where a word is neither digits nor the name of such.
pub(crate) fn octets_of(
    alloc: Global,
    case: &Case<'_>,
    words: &[&str],
) -> Result<Option<Text>, Memory> {
    let mut octets = Text::new(alloc);
    for word in words {
        match octets_of_word(alloc, case, word)? {
            Some(more) => octets.append(more.as_slice())?,
            None => return Ok(None),
        }
    }
    Ok(Some(octets))
}

/// The same in hexadecimal digits, with these octets behind those of each word.
pub(crate) fn digits_of(
    alloc: Global,
    case: &Case<'_>,
    words: &[&str],
    behind: &[u8],
) -> Result<Option<Text>, Memory> {
    let mut digits = Text::new(alloc);
    for word in words {
        match octets_of_word(alloc, case, word)? {
            Some(octets) => put_digits(alloc, &mut digits, octets.as_slice())?,
            None => return Ok(None),
        }
        digits.append(behind)?;
    }
    Ok(Some(digits))
}

/// The octets of a word; none where it is neither digits nor the name of such.
fn octets_of_word(alloc: Global, case: &Case<'_>, word: &str) -> Result<Option<Text>, Memory> {
    let word = if word == "it" { case.it } else { word };
    match hex::decode(alloc, case.setting(word).unwrap_or(word)) {
        Ok(octets) => Ok(Some(Text::from_vec(octets))),
        Err(FromHexError::OutOfMemory) => Err(Memory),
        Err(_) => Ok(None),
    }
}

/// Puts octets in hexadecimal digits behind a line.
pub(crate) fn put_digits(alloc: Global, line: &mut Text, octets: &[u8]) -> Result<(), Memory> {
    line.append(hex::encode(alloc, octets)?.as_bytes())
}
