//! Loads, by the octets of units that were worked out by hand.

use crate::make;
use hex::FromHexError;
use script::Event;
use std::alloc::Global;
use std::test::Fail;
use z_types::{List, Memory, Text};

/// An Init.
const INIT: &str = "b413830205e0840301fffe85031000008603100000";

/// A Search, up to its last octet, which is the letter.
const SEARCH: &str =
    "b63e8d01008e01018f01009001ff910131b20a9f690744656661756c74b521a11f06072a8648ce130301a014bf6611bf2c0a30089f7801019f7901049f2d01";

/// A Present.
const PRESENT: &str = "b8159f1f01319e01019d01019f68082a8648ce13056d0a";

/// A Close.
const CLOSE: &str = "bf30059f81530100";

/// The letters of the clients 1 to 12.
const LETTERS: &[u8; 12] = b"abcdeabcdeab";

/// Puts octets behind others, by their hexadecimal digits.
fn put(alloc: Global, out: &mut Text, digits: &str) -> Result<(), Memory> {
    match hex::decode(alloc, digits.as_bytes()) {
        Ok(octets) => out.append(octets.as_slice()),
        Err(FromHexError::OutOfMemory) => Err(Memory),
        Err(_) => Ok(()),
    }
}

/// What a client is fed that searches for a letter.
fn fed(alloc: Global, letter: u8) -> Result<Text, Memory> {
    let mut octets = Text::new(alloc);
    put(alloc, &mut octets, INIT)?;
    put(alloc, &mut octets, SEARCH)?;
    octets.push(letter)?;
    put(alloc, &mut octets, PRESENT)?;
    put(alloc, &mut octets, CLOSE)?;
    Ok(octets)
}

/// The events of the clients 1 to 12.
fn events_of_twelve(alloc: Global) -> Result<List<Event>, Memory> {
    let mut events = List::new(alloc);
    for (place, letter) in LETTERS.iter().enumerate() {
        let client = place as u32 + 1;
        events.push(Event::Feed(client, fed(alloc, *letter)?))?;
        events.push(Event::Run(client))?;
    }
    Ok(events)
}

#[test]
fn clients_are_fed_and_run_in_turn_with_five_letters(rt: HostRuntime) -> Result<(), Fail> {
    let alloc = rt.alloc();
    assert!(rt; make(alloc, 12)? == events_of_twelve(alloc)?);
    assert!(rt; make(alloc, 0)?.is_empty());
    assert_eq!(rt; make(alloc, 10000)?.len(), 20000);
    Ok(())
}
