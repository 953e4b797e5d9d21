//! The words after the program's name, each as it stands: a word need not be UTF-8.

use std::alloc::Global;
use std::env::FillError;
use std::rt::Env;
use z_types::{Memory, Text};

/// All words behind the first, which is the program's name.
pub(crate) fn words<E: Env>(alloc: Global, environment: &E) -> Result<Vec<Text>, Memory> {
    let mut words = Vec::new(alloc);
    for place in 1..usize::MAX {
        match word_at(alloc, environment, place)? {
            Some(word) => words.push(word)?,
            None => break,
        }
    }
    Ok(words)
}

/// The word at a place, or `None` behind the last one.
fn word_at<E: Env>(alloc: Global, environment: &E, place: usize) -> Result<Option<Text>, Memory> {
    let mut room = 256usize;
    for _ in 0..usize::BITS {
        let mut octets = Vec::new(alloc);
        octets.resize(room, 0u8)?;
        match environment.arg(place, octets.as_mut_slice()) {
            Ok(count) => {
                octets.truncate(count);
                return Ok(Some(Text::from_vec(octets)));
            }
            Err(FillError::NotPresent) => return Ok(None),
            Err(FillError::TooLong) => room = room.saturating_mul(2),
        }
    }
    Err(Memory)
}
