//! Configurations, and what is told of each: `ok`, or the number of the refusal and its text.

use case_files::{Answer, NoAnswer};
use route_config::{Class, Route, SMALLEST_TEXT};
use route_text::{RouteFault, read_route};
use std::alloc::Global;
use z_types::Text;

/// Whether a call is one of these. Its answer is put at the end.
pub(crate) fn is_answered(
    alloc: Global,
    call: &str,
    text: &[u8],
    out: &mut Answer,
) -> Result<bool, NoAnswer> {
    match call {
        "route" => put_told(alloc, out, text)?,
        "behind_the_smallest" => {
            let mut whole = Text::copy_of(alloc, SMALLEST_TEXT)?;
            whole.append(text)?;
            put_told(alloc, out, whole.as_slice())?;
        }
        "parts" => put_parts_of(alloc, out, text)?,
        _ => return Ok(false),
    }
    Ok(true)
}

/// What is told of a configuration.
fn put_told(alloc: Global, out: &mut Answer, text: &[u8]) -> Result<(), NoAnswer> {
    match read_route(alloc, text) {
        Ok(_route) => {
            out.put("ok");
            Ok(())
        }
        Err(fault) => put_fault(alloc, out, &fault),
    }
}

/// The number of a refusal and its text.
fn put_fault(alloc: Global, out: &mut Answer, fault: &RouteFault) -> Result<(), NoAnswer> {
    if let RouteFault::Memory = fault {
        return Err(NoAnswer::Memory);
    }
    out.print(&fault.number());
    out.put(" ");
    out.put_quoted(fault.what(alloc)?.as_slice());
    Ok(())
}

/// The parts of the route of a configuration.
fn put_parts_of(alloc: Global, out: &mut Answer, text: &[u8]) -> Result<(), NoAnswer> {
    match read_route(alloc, text) {
        Ok(route) => {
            put_parts(out, &route);
            Ok(())
        }
        Err(_) => Err(NoAnswer::Misspelt),
    }
}

/// The classes of a route, each with its members; its legs, each with the places of its database and its class;
/// how many indexes it has, and its patience.
fn put_parts(out: &mut Answer, route: &Route) {
    for class in route.parts().classes.as_slice() {
        put_class(out, class);
    }
    for leg in route.parts().legs.as_slice() {
        out.put("leg ");
        out.put_numbers(" ", &[leg.database, leg.class]);
        out.put(", ");
    }
    out.put("indexes ");
    out.print(&route.parts().indexes.len());
    out.put(", patience ");
    out.print(&route.parts().pool.patience);
}

/// A class, with its members.
fn put_class(out: &mut Answer, class: &Class) {
    out.put("class ");
    out.put_text(class.name.as_slice());
    out.put(" of ");
    out.print(&class.addresses.as_slice().len());
    out.put(", ");
}
