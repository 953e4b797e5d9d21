//! The indexes and the schemas of a configuration that has none.

ghost use Rattle.std.specs.Prelude.{◌≡◌, IfOk};
ghost use Rattle.route_config.specs.Smallest.{smallest_route};

use crate::Index;
use std::alloc::Global;
use z_types::{List, Memory, Schema, Text};

/// The indexes where the configuration has none.
pub fn default_indexes(alloc: Global) -> Result<List<Index>, Memory>
    ensures { IfOk result (λ indexes. indexes ≡ smallest_route.indexes) }
{
    let mut indexes = List::new(alloc);
    indexes.push(index(alloc, b"dc.title", 4)?)?;
    indexes.push(index(alloc, b"dc.creator", 1003)?)?;
    indexes.push(index(alloc, b"dc.subject", 21)?)?;
    indexes.push(index(alloc, b"bath.isbn", 7)?)?;
    indexes.push(index(alloc, b"bath.issn", 8)?)?;
    indexes.push(index(alloc, b"cql.anywhere", 1016)?)?;
    Ok(indexes)
}

fn index(alloc: Global, name: &[u8], value: u32) -> Result<Index, Memory>
    ensures { IfOk result (λ index. index ≡ record { name = name.now; value = value }) }
{
    Ok(Index {
        name: Text::copy_of(alloc, name)?,
        value,
    })
}

/// The schemas where the configuration has none: one.
pub fn default_schemas(alloc: Global) -> Result<List<Schema>, Memory>
    ensures { IfOk result (λ schemas. schemas ≡ smallest_route.schemas) }
{
    let mut schemas = List::new(alloc);
    schemas.push(Schema {
        name: Text::copy_of(alloc, b"dc")?,
        uri: Text::copy_of(alloc, b"info:srw/schema/1/dc-v1.1")?,
        element: Text::copy_of(alloc, b"dc")?,
    })?;
    Ok(schemas)
}
