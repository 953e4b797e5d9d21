//! Record schemas of SRU (SRU 1.2, recordSchema).

ghost use Rattle.z_types.specs.equality.Schemas.{schema};

use crate::{Exact, Text};

/// A schema that an SRU client can ask for. Its texts have 1 to 128 octets.
#[derive(PartialEq, Eq, Clone, Drop)]
pub struct Schema {
    /// Its short name.
    pub name: Text,
    /// Its identifier.
    pub uri: Text,
    /// The element set name that targets give its records under.
    pub element: Text,
}

impl Exact for Schema {
    ghost exact_eq = { schema.eq_is_exact };

    ghost exact_clone = { schema.clone_is_exact };
}
