//! What a term is searched in and how: an index and a relation without modifiers (CQL 1.2).

ghost use Rattle.std.specs.Prelude.{◌≡◌, [], IfOk, IfErr, OnOk, Some};
ghost use Rattle.cql_map.specs.Indexes.{use_of};
ghost use Rattle.cql_map.specs.Relations.{row_of};
ghost use Rattle.cql_map.specs.Faults.{relation_faults, relation_modifier_faults, boolean_modifier_faults, head_faults, IsRefusal};

use crate::MapFault;
use crate::index::read_index;
use crate::relation::{Row, row_of};
use cql_parse::{Head, Modifier};
use route_config::Index;
use std::alloc::Global;
use z_types::{List, Text};

/// The row of a relation, or why there is none.
fn read_relation(alloc: Global, relation: &Text) -> Result<Row, MapFault>
    ensures value { IfOk result (λ row. row_of relation.now ≡ Some row) }
    ensures refused { IfErr result (IsRefusal (relation_faults relation.now)) }
{
    match row_of(relation.as_slice()) {
        Some(row) => Ok(row),
        None => Err(MapFault::Relation(Text::copy_of(alloc, relation.as_slice())?)),
    }
}

/// Refuses modifiers of a relation.
fn refuse_modifiers(alloc: Global, modifiers: &List<Modifier>) -> Result<(), MapFault>
    ensures taken { OnOk result (relation_modifier_faults modifiers.now ≡ []) }
    ensures refused { IfErr result (IsRefusal (relation_modifier_faults modifiers.now)) }
{
    match modifiers.as_slice() {
        [] => Ok(()),
        [first, ..] => {
            let name = Text::copy_of(alloc, first.name.as_slice())?;
            Err(MapFault::Modifier(name))
        }
    }
}

/// Refuses modifiers of a boolean.
pub fn refuse_boolean_modifiers(alloc: Global, modifiers: &List<Modifier>) -> Result<(), MapFault>
    ensures taken { OnOk result (boolean_modifier_faults modifiers.now ≡ []) }
    ensures refused { IfErr result (IsRefusal (boolean_modifier_faults modifiers.now)) }
{
    match modifiers.as_slice() {
        [] => Ok(()),
        [first, ..] => {
            let name = Text::copy_of(alloc, first.name.as_slice())?;
            Err(MapFault::BooleanModifier(name))
        }
    }
}

/// The Use attribute and the row that a term is searched by.
#[tactic(auto, using(crate::proofs::FaultLemmas::head_steps))]
pub fn read_head(alloc: Global, head: &Head, indexes: &[Index]) -> Result<(u32, Row), MapFault>
    ensures taken { OnOk result (head_faults indexes.now head.now ≡ []) }
    ensures value { IfOk result (λ found. use_of indexes.now head.now.index ≡ Some found.0) }
    ensures row { IfOk result (λ found. row_of head.now.relation ≡ Some found.1) }
    ensures refused { IfErr result (IsRefusal (head_faults indexes.now head.now)) }
{
    let value = read_index(alloc, indexes, head.index.as_slice())?;
    let row = read_relation(alloc, &head.relation)?;
    refuse_modifiers(alloc, &head.modifiers)?;
    Ok((value, row))
}
