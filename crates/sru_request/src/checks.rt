//! The checks of a request's parameters, each with its diagnostic.

ghost use Rattle.std.specs.Prelude.{◌≡◌, ◌<◌, [], length, codes, Some, IfOk, OnOk, IfErr};
ghost use Rattle.sru_request.specs.declared.faults.QueryFault.TheVariants.{Diag, Memory as no_memory};
ghost use Rattle.sru_request.specs.Parameters.{value_of};
ghost use Rattle.sru_request.specs.Choices.{start_in, maximum_in, packing_in, schema_in};
ghost use Rattle.sru_request.specs.Checks.{diagnostic, version_of, operation_faults, version_faults, query_faults, start_faults, maximum_faults, packing_faults, schema_faults, sort_faults, other_faults, IsRefusal};

use crate::QueryFault;
use crate::choices::{maximum_in, packing_in, schema_in};
use crate::number::number_in;
use crate::others::first_other;
use crate::parameter::{Parameter, value_of};
use std::alloc::Global;
use z_types::{Memory, Schema, SruDiag, Text};

/// The version in which is told that none was asked for.
const NEWEST: &[u8] = b"1.2";

/// The refusal by a diagnostic.
fn refusal(alloc: Global, version: &[u8], number: u32, details: &[u8]) -> Result<QueryFault, Memory>
    ensures { IfOk result (λ fault. fault ≡ Diag (diagnostic version.now number details.now)) }
{
    Ok(QueryFault::Diag(SruDiag {
        version: Text::copy_of(alloc, version)?,
        number,
        details: Text::copy_of(alloc, details)?,
    }))
}

/// The version that is asked for.
fn version_of(given: &[Parameter]) -> &[u8]
    ensures { result.now ≡ version_of given.now }
{
    value_of(given, b"version")
}

/// The operation is there, and is searchRetrieve.
#[tactic(auto, unfolding(crate::specs::Checks::operation_faults))]
pub(crate) fn check_operation(alloc: Global, given: &[Parameter]) -> Result<(), QueryFault>
    ensures taken { OnOk result (operation_faults given.now ≡ []) }
    ensures refused { IfErr result (IsRefusal (operation_faults given.now)) }
{
    let operation = value_of(given, b"operation");
    if operation.is_empty() {
        return Err(refusal(alloc, NEWEST, 7, b"operation")?);
    }
    if operation == b"searchRetrieve".as_slice() {
        Ok(())
    } else {
        Err(refusal(alloc, NEWEST, 4, operation)?)
    }
}

/// The version is there, and is 1.1 or 1.2.
#[tactic(auto, unfolding(crate::specs::Checks::version_faults))]
pub(crate) fn check_version(alloc: Global, given: &[Parameter]) -> Result<(), QueryFault>
    ensures taken { OnOk result (version_faults given.now ≡ []) }
    ensures refused { IfErr result (IsRefusal (version_faults given.now)) }
{
    let version = version_of(given);
    if version.is_empty() {
        return Err(refusal(alloc, NEWEST, 7, b"version")?);
    }
    if version == b"1.1".as_slice() || version == NEWEST {
        Ok(())
    } else {
        Err(refusal(alloc, NEWEST, 5, NEWEST)?)
    }
}

/// The query is there.
#[tactic(auto, unfolding(crate::specs::Checks::query_faults))]
pub(crate) fn check_query(alloc: Global, given: &[Parameter]) -> Result<(), QueryFault>
    ensures taken { OnOk result (query_faults given.now ≡ []) }
    ensures refused { IfErr result (IsRefusal (query_faults given.now)) }
{
    if value_of(given, b"query").is_empty() {
        Err(refusal(alloc, version_of(given), 7, b"query")?)
    } else {
        Ok(())
    }
}

/// The position of the first record.
#[tactic(auto, unfolding(crate::specs::Checks::start_faults))]
pub(crate) fn read_start(alloc: Global, given: &[Parameter]) -> Result<u32, QueryFault>
    ensures value { IfOk result (λ n.
        start_in (value_of (codes "startRecord") given.now) ≡ Some n) }
    ensures taken { OnOk result (start_faults given.now ≡ []) }
    ensures refused { IfErr result (IsRefusal (start_faults given.now)) }
{
    match number_in(1, 1, value_of(given, b"startRecord")) {
        Some(number) => Ok(number),
        None => Err(refusal(alloc, version_of(given), 6, b"startRecord")?),
    }
}

/// How many records at most.
#[tactic(auto, unfolding(crate::specs::Checks::maximum_faults))]
pub(crate) fn read_maximum(alloc: Global, given: &[Parameter]) -> Result<u32, QueryFault>
    ensures value { IfOk result (λ n.
        maximum_in (value_of (codes "maximumRecords") given.now) ≡ Some n) }
    ensures taken { OnOk result (maximum_faults given.now ≡ []) }
    ensures refused { IfErr result (IsRefusal (maximum_faults given.now)) }
{
    match maximum_in(value_of(given, b"maximumRecords")) {
        Some(number) => Ok(number),
        None => Err(refusal(alloc, version_of(given), 6, b"maximumRecords")?),
    }
}

/// Whether records are escaped.
#[tactic(auto, unfolding(crate::specs::Checks::packing_faults))]
pub(crate) fn read_packing(alloc: Global, given: &[Parameter]) -> Result<bool, QueryFault>
    ensures value { IfOk result (λ escaped.
        packing_in (value_of (codes "recordPacking") given.now) ≡ Some escaped) }
    ensures taken { OnOk result (packing_faults given.now ≡ []) }
    ensures refused { IfErr result (IsRefusal (packing_faults given.now)) }
{
    let packing = value_of(given, b"recordPacking");
    match packing_in(packing) {
        Some(escaped) => Ok(escaped),
        None => Err(refusal(alloc, version_of(given), 71, packing)?),
    }
}

/// The place of a schema, which a number of 32 bits tells. There is no memory for more schemas.
fn place_of(place: usize) -> Result<u32, QueryFault>
    ensures value { IfOk result (λ n. n ≡ place) }
    ensures refused { IfErr result (λ fault. fault ≡ no_memory) }
{
    if place > u32::MAX as usize {
        return Err(QueryFault::Memory);
    }
    Ok(place as u32)
}

/// The place of the schema.
#[tactic(auto, unfolding(crate::specs::Checks::schema_faults))]
pub(crate) fn read_schema(
    alloc: Global,
    given: &[Parameter],
    schemas: &[Schema],
) -> Result<u32, QueryFault>
    ensures value { IfOk result (λ place.
        schema_in schemas.now (value_of (codes "recordSchema") given.now) ≡ Some place) }
    ensures within { IfOk result (λ place. place < length schemas.now) }
    ensures taken { OnOk result (schema_faults schemas.now given.now ≡ []) }
    ensures refused { IfErr result (IsRefusal (schema_faults schemas.now given.now)) }
{
    let schema = value_of(given, b"recordSchema");
    match schema_in(schemas, schema) {
        Some(place) => place_of(place),
        None => Err(refusal(alloc, version_of(given), 66, schema)?),
    }
}

/// No sort is asked for.
#[tactic(auto, unfolding(crate::specs::Checks::sort_faults))]
pub(crate) fn check_sort(alloc: Global, given: &[Parameter]) -> Result<(), QueryFault>
    ensures taken { OnOk result (sort_faults given.now ≡ []) }
    ensures refused { IfErr result (IsRefusal (sort_faults given.now)) }
{
    if value_of(given, b"sortKeys").is_empty() {
        Ok(())
    } else {
        Err(refusal(alloc, version_of(given), 80, b"")?)
    }
}

/// No other name is given.
#[tactic(auto, unfolding(crate::specs::Checks::other_faults))]
pub(crate) fn check_others(alloc: Global, given: &[Parameter]) -> Result<(), QueryFault>
    ensures taken { OnOk result (other_faults given.now ≡ []) }
    ensures refused { IfErr result (IsRefusal (other_faults given.now)) }
{
    match first_other(alloc, given)? {
        None => Ok(()),
        Some(name) => Err(refusal(alloc, version_of(given), 8, name)?),
    }
}
