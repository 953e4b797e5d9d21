//! A configuration from its octets.

ghost use Rattle.toml.specs.View.{view};
ghost use Rattle.route_text.specs.Values.{values_in};
ghost use Rattle.route_text.specs.RouteOf.{route_of};
ghost use Rattle.route_text.specs.Reads.{Reads, IsTree};
ghost use Rattle.route_text.specs.Configuration.{first_fault, IsConfiguration};

use crate::file::values_in;
use crate::whole::check_whole;
use crate::whole_route::route_of;
use crate::{RouteFault, Values};
use route_config::Route;
use std::alloc::Global;
use toml::Value;

/// The route of a configuration's octets, or the first refusal: that they are no TOML, then of the
/// keys in the table's order, then of the whole.
pub fn read_route(alloc: Global, text: &[u8]) -> Result<Route, RouteFault>
    ensures { IsConfiguration text.now result }
{
    match read_tree(alloc, text) {
        Ok(tree) => read_tree_route(alloc, &tree),
        Err(fault) => Err(fault),
    }
}

/// The route of a tree, or its first refusal.
fn read_tree_route(alloc: Global, tree: &Value) -> Result<Route, RouteFault>
    ensures { Reads (first_fault (view tree.now)) (route_of (values_in (view tree.now))) result }
{
    let values = read_values(alloc, tree)?;
    Ok(Route::new(alloc, route_of(alloc, values)?)?)
}

/// The values of a tree, or its first refusal.
fn read_values(alloc: Global, tree: &Value) -> Result<Values, RouteFault>
    ensures { Reads (first_fault (view tree.now)) (values_in (view tree.now)) result }
{
    let values = values_in(alloc, tree)?;
    check_whole(alloc, &values)?;
    Ok(values)
}

/// The tree of a configuration's octets.
fn read_tree(alloc: Global, text: &[u8]) -> Result<Value, RouteFault>
    ensures { IsTree text.now result }
{
    match toml::table_from_slice(alloc, text) {
        Ok(table) => Ok(Value::Table(table)),
        Err(error) => {
            if error.is_memory() {
                Err(RouteFault::Memory)
            } else {
                Err(RouteFault::Toml)
            }
        }
    }
}
