//! The configuration file: a route, read from the tree of its TOML by the table of keys.
#![tactic(auto)]

mod access;
mod address;
mod class;
mod database;
mod entry;
mod fault;
mod file;
mod group;
mod key;
mod kind;
mod leg;
mod names;
mod numbers;
mod others;
mod path;
mod read;
mod route;
mod rule;
mod search;
mod target;
mod values;
mod whole;
mod whole_route;

pub use fault::RouteFault;
pub use read::read_route;
pub use rule::TextRule;
pub use values::{CacheNumbers, DatabaseValues, GroupValues, LegValues, Values};
