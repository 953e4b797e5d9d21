//! The routes of the stories.

use route_config::Route;
use route_text::read_route;
use std::alloc::Global;
use z_types::{Memory, Text};

/// A database of three legs, at the test targets 0, 2 and 1.
pub(crate) const THREE_LEGS: &[&[u8]] = &[
    b"[[target]]\nname = \"a\"\naddress = \"test:0\"\n\
[[target]]\nname = \"b\"\naddress = \"test:2\"\n\
[[target]]\nname = \"c\"\naddress = \"test:1\"\n\
[[database]]\nname = \"Default\"\n\
[[database.leg]]\nvia = \"a\"\ndatabases = [\"Default\"]\n\
[[database.leg]]\nvia = \"b\"\ndatabases = [\"Empty\"]\n\
[[database.leg]]\nvia = \"c\"\ndatabases = [\"Small\"]\n",
];

/// A patience of two looks.
pub(crate) const TWO_LOOKS: &[u8] = b"[pool]\npatience = 2\n";

/// In which database the leg of each place asks, in a request of 16 legs.
pub(crate) const SIXTEEN: &[&[u8]] = &[
    b"Default", b"Small", b"Empty", b"Small", b"Default", b"Empty", b"Small", b"Default",
    b"Default", b"Small", b"Small", b"Default", b"Empty", b"Default", b"Small", b"Default",
];

/// Appends the leg of a place, in this database.
fn append_leg(alloc: Global, text: &mut Text, place: usize, name: &[u8]) -> Result<(), Memory> {
    let via = format!(in alloc; "[[database.leg]]\nvia = \"t{place}\"\ndatabases = [\"")?;
    text.append(via.as_bytes())?;
    text.append(name)?;
    text.append(b"\"]\n")
}

/// A database of 16 legs, each at the test target of its place.
pub(crate) fn sixteen_legs(alloc: Global) -> Result<Text, Memory> {
    let mut text = Text::new(alloc);
    for place in 0..SIXTEEN.len() {
        let target = format!(in alloc;
            "[[target]]\nname = \"t{place}\"\naddress = \"test:{place}\"\n"
        )?;
        text.append(target.as_bytes())?;
    }
    text.append(b"[[database]]\nname = \"Default\"\n")?;
    for (place, name) in SIXTEEN.iter().enumerate() {
        append_leg(alloc, &mut text, place, name)?;
    }
    Ok(text)
}

/// The route of a configuration in parts.
pub(crate) fn route_of(alloc: Global, parts: &[&[u8]]) -> Result<Route, Memory> {
    let mut text = Text::new(alloc);
    for part in parts {
        text.append(part)?;
    }
    match read_route(alloc, text.as_slice()) {
        Ok(route) => Ok(route),
        Err(_) => Err(Memory),
    }
}
