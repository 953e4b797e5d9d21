//! The route: which databases there are, where their searches go, and who may search them. How a
//! configuration is read is left to others.
#![tactic(auto)]

mod defaults;
mod items;
mod lookup;
mod members;
mod names;
mod route;
mod rules;
mod smallest;
mod sound;

pub use defaults::{default_indexes, default_schemas};
pub use lookup::{database_named, first_address, target_names};
pub use members::Members;
pub use names::{is_database_name, is_from, is_index_name, is_name, is_user_name};
pub use route::{
    Class, Database, Group, Index, PoolNumbers, Route, RouteLeg, RouteParts, Rule, Target, User,
};
pub use rules::{ANONYMOUS, EVERY, is_for_database, is_for_user};
pub use smallest::SMALLEST_TEXT;
