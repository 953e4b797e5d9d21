//! Numbers, object identifiers as numbers with dots between them, and diagnostics.

use crate::NoAnswer;
use std::alloc::Global;
use z_types::{Diag, Oid, Text};

/// The object identifier of numbers with dots between them, if they are one.
pub fn oid_of_words(alloc: Global, words: &str) -> Result<Option<Oid>, NoAnswer> {
    let mut arcs = Vec::new(alloc);
    for word in words.split('.') {
        if !word.is_empty() {
            arcs.push(number_of(word)?)?;
        }
    }
    Ok(Oid::from_vec(arcs))
}

/// A number.
pub fn number_of(word: &str) -> Result<u32, NoAnswer> {
    word.parse().or(Err(NoAnswer::Misspelt))
}

/// The diagnostic of a set and a condition, which tells no more.
pub fn diag_of_words(alloc: Global, words: &str) -> Result<Diag, NoAnswer> {
    let Some((set, condition)) = words.split_once(' ') else {
        return Err(NoAnswer::Misspelt);
    };
    let condition = number_of(condition)?;
    match oid_of_words(alloc, set)? {
        Some(set) => Ok(Diag {
            set,
            condition,
            addinfo: Text::new(alloc),
        }),
        None => Err(NoAnswer::Misspelt),
    }
}
