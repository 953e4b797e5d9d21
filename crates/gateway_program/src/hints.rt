//! What helps beside a line that refuses: on the standard error, where in a configuration the fault is, which
//! key may be meant by one that is missing, or why the system does not give a file.

use gateway_config::Status;
use route_config::Route;
use route_text::{RouteFault, read_route};
use std::alloc::Global;
use std::rt;
use strsim::levenshtein;
use tcp_edge::SystemFiles;
use toml::{Table, Value};
use z_types::{Schema, Text};

/// From how many edits on a name is not taken for another.
const FAR: usize = 3;

/// Says what helps where a command ended so over these files.
pub(crate) fn help<R: rt::Files + Eprint>(
    runtime: &R,
    alloc: Global,
    files: &SystemFiles<'_, R>,
    status: Status,
) {
    match status {
        Status::Config => help_config(runtime, alloc, files.first_text().unwrap_or(b"")),
        Status::ReadFault => {
            if let Some(reason) = files.reason() {
                let _ = eprintln!(runtime; "gateway: {reason}");
            }
        }
        _ => {}
    }
}

/// Says what helps with a configuration that is refused: where it is no TOML, or which of its keys may be
/// meant by one that is missing.
fn help_config<R: Eprint>(runtime: &R, alloc: Global, text: &[u8]) {
    match toml::table_from_slice(alloc, text) {
        Ok(table) => {
            if let Err(RouteFault::Missing(path)) = read_route(alloc, text) {
                tell_nearest(runtime, alloc, &Value::Table(table), &path);
            }
        }
        Err(error) => {
            if let Some(span) = error.span() {
                let (line, column) = place_behind(text.get(..span.start).unwrap_or(text));
                let why = error.message();
                let _ = eprintln!(runtime; "gateway: line {line}, column {column}: {why}");
            }
        }
    }
}

/// The line and the column, counted from 1 and in characters, behind these octets.
fn place_behind(before: &[u8]) -> (u64, u64) {
    let mut place = (1u64, 1u64);
    for octet in before {
        if *octet == b'\n' {
            place = (place.0.saturating_add(1), 1);
        } else if *octet & 0xc0 != 0x80 {
            place.1 = place.1.saturating_add(1);
        }
    }
    place
}

/// Names the key that stands in the table of a missing one and is spelled nearly so.
fn tell_nearest<R: Eprint>(runtime: &R, alloc: Global, tree: &Value, path: &Text) {
    let Ok(path) = std::str::from_utf8(path.as_slice()) else {
        return;
    };
    let (table, key) = path.rsplit_once('.').unwrap_or(("", path));
    if let Some(Value::Table(table)) = value_at(tree, table)
        && let Some(name) = nearest(alloc, table, key)
    {
        let _ = eprintln!(runtime; "gateway: there is a key `{name}`: is `{key}` meant?");
    }
}

/// The value at a path, as `database[0].leg[1]`.
fn value_at<'a>(tree: &'a Value, path: &str) -> Option<&'a Value> {
    let mut value = tree;
    for step in path.split('.') {
        value = match step.split_once('[') {
            None if step.is_empty() => value,
            None => value.get(step)?,
            Some((name, rest)) => {
                let place: usize = rest.strip_suffix(']')?.parse().ok()?;
                value.get(name)?.get(place)?
            }
        };
    }
    Some(value)
}

/// The key of a table from which the fewest edits lead to this one, where they are few.
fn nearest<'a>(alloc: Global, table: &'a Table, key: &str) -> Option<&'a str> {
    let mut found = None;
    let mut least = FAR;
    for name in table.keys() {
        let edits = levenshtein(alloc, name.as_str(), key).ok()?;
        if edits < least {
            least = edits;
            found = Some(name.as_str());
        }
    }
    found
}

/// Warns of each schema of a configuration whose uri would make a reply of SRU that is no XML.
pub(crate) fn warn_of_schemas<R: rt::Files + Eprint>(
    runtime: &R,
    alloc: Global,
    files: &SystemFiles<'_, R>,
) {
    if let Some(text) = files.first_text()
        && let Ok(route) = read_route(alloc, text)
    {
        tell_schemas(runtime, &route);
    }
}

/// Tells them, by their places.
fn tell_schemas<R: Eprint>(runtime: &R, route: &Route) {
    for (place, schema) in route.parts().schemas.as_slice().iter().enumerate() {
        if breaks_xml(schema) {
            let _ = eprintln!(runtime;
                "gateway: schema[{place}].uri has `<`, `&` or a control character: \
                 replies of SRU that name it are no XML"
            );
        }
    }
}

/// Whether the uri of a schema has what may not stand in XML as it is.
fn breaks_xml(schema: &Schema) -> bool {
    for octet in schema.uri.as_slice() {
        if matches!(*octet, b'<' | b'&') || octet.is_ascii_control() {
            return true;
        }
    }
    false
}
