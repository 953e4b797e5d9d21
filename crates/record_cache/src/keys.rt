//! What a record is found by.

ghost use Rattle.record_cache.specs.Exactly.{record_key};

use z_types::{Address, Exact, Oid, SetKey, Text};

/// What a record is found by: the target's address, with the login that it is asked under; the databases
/// and the query of its result set, and its position there; and the form that it was asked for in.
#[derive(PartialEq, Eq, Clone, Drop)]
pub struct RecordKey {
    /// The address of the target.
    pub address: Address,
    /// The databases and the query of the result set.
    pub key: SetKey,
    /// The position of the record in the result set, counted from 1.
    pub position: u32,
    /// The record syntax, where one was named.
    pub syntax: Option<Oid>,
    /// The element set name, where one was named.
    pub element: Option<Text>,
}

impl Exact for RecordKey {
    ghost exact_eq = { record_key.eq_is_exact };

    ghost exact_clone = { record_key.clone_is_exact };
}
