//! Bounds that hold everywhere (this project's own). Definitions have them under the same names.

/// The most octets of a unit, its header included.
pub const MOST_UNIT_OCTETS: u32 = 1_048_576;

/// The most levels of elements in a unit, of which the unit is the first.
pub const MOST_LEVELS: u32 = 64;

/// The most levels of nodes in a query of either language.
pub const MOST_QUERY_DEPTH: u32 = 48;

/// The most nodes of a query of type 1.
pub const MOST_QUERY_NODES: u64 = 4096;

/// The most that a query of type 1 may cost.
pub const MOST_QUERY_COST: u64 = 900_000;

/// The greatest count of hits, and the greatest INTEGER of which nothing else is said: 2^31 - 1.
pub const MOST_NUMBER: u32 = 2_147_483_647;

/// The most numbers of an object identifier.
pub const MOST_ARCS: usize = 32;

/// The most octets of a name that is asked for: of a set, a database or an element set.
pub const MOST_NAME_OCTETS: usize = 4096;

/// The most octets of a login.
pub const MOST_LOGIN_OCTETS: usize = 4096;

/// The most databases of a request.
pub const MOST_DATABASES: usize = 16;

/// The most legs of a request.
pub const MOST_LEGS: usize = 16;
