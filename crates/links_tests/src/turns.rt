//! What happens at a wire, turn by turn.

use crate::addresses::address_of;
use crate::octets::octets_of;
use std::alloc::Global;
use test_cases::Case;
use z_types::{Address, Memory, Text};

/// What happens at a wire. A link is named by its place among those that were made.
#[derive(Drop)]
pub(crate) enum Turn {
    /// `dial ADDRESS`: a link is made, where the address is inside no login.
    Dial(Address),
    /// `send PLACE OCTETS`: a unit is sent.
    Send(usize, Text),
    /// `look PLACE`: a look, and a reply is read.
    Look(usize),
    /// `gone N`: this number of Presents finds all sets gone.
    Gone(u32),
    /// `slow N`: replies arrive after this number of looks.
    Slow(u32),
    /// `cut`: all links are cut.
    Cut,
    /// Another line.
    Unknown,
}

/// The turn of words.
pub(crate) fn turn_of(alloc: Global, case: &Case<'_>, words: &[&str]) -> Result<Turn, Memory> {
    match *words {
        ["dial", address] => Ok(Turn::Dial(address_of(alloc, case, address)?)),
        ["send", place, unit] => match (place.parse::<usize>(), octets_of(alloc, case, &[unit])?) {
            (Ok(place), Some(unit)) => Ok(Turn::Send(place, unit)),
            _ => Ok(Turn::Unknown),
        },
        ["cut"] => Ok(Turn::Cut),
        [word, number] => Ok(counted_turn(word, number.parse().ok())),
        _ => Ok(Turn::Unknown),
    }
}

/// The turn of a word with a number.
fn counted_turn(word: &str, number: Option<u32>) -> Turn {
    match (word, number) {
        ("look", Some(place)) => Turn::Look(place as usize),
        ("gone", Some(presents)) => Turn::Gone(presents),
        ("slow", Some(looks)) => Turn::Slow(looks),
        _ => Turn::Unknown,
    }
}
