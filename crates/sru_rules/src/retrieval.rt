//! What a GET asks the targets for.

use sru_request::SruQuery;
use z_types::{List, RpnQuery};

/// A searchRetrieve request whose query is one of type 1, at the legs of its virtual database.
#[derive(Drop)]
pub struct Retrieval {
    /// The legs, by their places in the route.
    pub legs: List<u32>,
    /// What its parameters ask for.
    pub asked: SruQuery,
    /// Its query.
    pub query: RpnQuery,
}
