//! Numbers as words.

use case_files::{NoAnswer, number_of};
use std::alloc::Global;
use z_types::List;

/// Numbers, a space between each two.
pub(crate) fn numbers_of(alloc: Global, words: &str) -> Result<List<u32>, NoAnswer> {
    let mut numbers = List::new(alloc);
    for word in words.split_ascii_whitespace() {
        numbers.push(number_of(word)?)?;
    }
    Ok(numbers)
}

/// Numbers of calls, likewise.
pub(crate) fn calls_of(alloc: Global, words: &str) -> Result<List<u64>, NoAnswer> {
    let mut numbers = List::new(alloc);
    for word in words.split_ascii_whitespace() {
        numbers.push(u64::from(number_of(word)?))?;
    }
    Ok(numbers)
}
