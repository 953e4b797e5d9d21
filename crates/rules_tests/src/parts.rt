//! The smallest route, and parts that make no route.

use crate::databases::put_address;
use crate::words::numbers_of;
use case_files::{Answer, NoAnswer, number_of};
use route_config::{Group, Route, RouteParts, database_named, first_address};
use std::alloc::Global;
use z_types::{List, Memory, Text};

/// Whether a call is one of these. Its answer is put at the end.
pub(crate) fn is_answered(
    alloc: Global,
    call: &str,
    words: &str,
    out: &mut Answer,
) -> Result<bool, NoAnswer> {
    match call {
        "database_named" => put_database(alloc, out, words)?,
        "first_address" => put_first_address(alloc, out, words)?,
        "numbers" => put_numbers(alloc, out)?,
        "with_group" => put_soundness(out, &with_group(alloc, words)?),
        "with_times" => put_soundness(out, &with_times(alloc, words)?),
        "without_classes" => put_soundness(out, &without_classes(alloc)?),
        _ => return Ok(false),
    }
    Ok(true)
}

/// Whether errors of a database of the smallest route are hidden, if there is one of this name.
fn put_database(alloc: Global, out: &mut Answer, name: &str) -> Result<(), NoAnswer> {
    match database_named(&Route::smallest(alloc)?, name.as_bytes()) {
        Some(database) => {
            out.put("hide_errors ");
            out.print(&database.hide_errors);
        }
        None => out.put("none"),
    }
    Ok(())
}

/// The first address of a class of the smallest route, if there is one.
fn put_first_address(alloc: Global, out: &mut Answer, words: &str) -> Result<(), NoAnswer> {
    match first_address(&Route::smallest(alloc)?, number_of(words)?) {
        Some(address) => put_address(out, address),
        None => out.put("none"),
    }
    Ok(())
}

/// Two numbers of the smallest route.
fn put_numbers(alloc: Global, out: &mut Answer) -> Result<(), NoAnswer> {
    let route = Route::smallest(alloc)?;
    out.put("session_ttl ");
    out.print(&route.parts().pool.session_ttl);
    out.put(" sets ");
    out.print(&route.parts().limits.sets);
    Ok(())
}

/// Whether parts make a route.
pub(crate) fn put_soundness(out: &mut Answer, parts: &RouteParts) {
    out.put(if parts.are_sound() {
        "sound"
    } else {
        "unsound"
    });
}

/// The parts of the smallest route with a group of a name and of targets at places.
fn with_group(alloc: Global, words: &str) -> Result<RouteParts, NoAnswer> {
    let Some((places, name)) = words.split_once(" named ") else {
        return Err(NoAnswer::Misspelt);
    };
    let Some(places) = places.strip_prefix("of") else {
        return Err(NoAnswer::Misspelt);
    };
    let targets = numbers_of(alloc, places)?;
    let mut parts = RouteParts::smallest(alloc)?;
    parts.groups.push(Group {
        name: Text::copy_of(alloc, name.trim_matches('\'').as_bytes())?,
        targets,
    })?;
    Ok(parts)
}

/// The parts of the smallest route with other times: of sets, and of sessions.
fn with_times(alloc: Global, words: &str) -> Result<RouteParts, NoAnswer> {
    let Some((sets, sessions)) = words.split_once(' ') else {
        return Err(NoAnswer::Misspelt);
    };
    let mut parts = RouteParts::smallest(alloc)?;
    parts.pool.set_ttl = u64::from(number_of(sets)?);
    parts.pool.session_ttl = u64::from(number_of(sessions)?);
    Ok(parts)
}

/// The parts of the smallest route whose leg has no class.
fn without_classes(alloc: Global) -> Result<RouteParts, Memory> {
    let mut parts = RouteParts::smallest(alloc)?;
    parts.classes = List::new(alloc);
    Ok(parts)
}
