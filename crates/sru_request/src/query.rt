//! What a request asks for.

ghost use Rattle.std.specs.Prelude.{◌≡◌, ◌<◌, [], length, codes, Some, IfOk, OnOk, IfErr};
ghost use Rattle.sru_request.specs.Parameters.{parameters_of, value_of};
ghost use Rattle.sru_request.specs.Choices.{start_in, maximum_in, packing_in, schema_in};
ghost use Rattle.sru_request.specs.Checks.{version_of, form_faults, window_faults, layout_faults, rest_faults, faults, IsRefusal, IsAsked};

use crate::checks::{
    check_operation, check_others, check_query, check_sort, check_version, read_maximum,
    read_packing, read_schema, read_start,
};
use crate::parameter::{Parameter, parameters_of, value_of};
use crate::{Get, QueryFault};
use std::alloc::Global;
use z_types::{List, Memory, Schema, Text};

/// A searchRetrieve request whose parameters are taken; what its query of CQL says is not known.
#[derive(PartialEq, Eq, Drop)]
pub struct SruQuery {
    /// The version, `1.1` or `1.2`.
    pub version: Text,
    /// The query, of at least one octet.
    pub query: Text,
    /// The position of the first record, 1 to 2147483647.
    pub start: u32,
    /// How many records at most, 0 to 100.
    pub maximum: u32,
    /// Whether records are packed as `string`, and so escaped.
    pub escaped: bool,
    /// The place of the schema, counted from 0.
    pub schema: u32,
}

/// Which records are asked for.
#[derive(Clone, Copy)]
struct Window {
    /// The position of the first.
    start: u32,
    /// How many at most.
    maximum: u32,
}

/// How records are given.
#[derive(Clone, Copy)]
struct Layout {
    /// Whether they are escaped.
    escaped: bool,
    /// The place of their schema.
    schema: u32,
}

/// The operation, the version and the query are there.
#[tactic(auto, using(crate::proofs::CheckLemmas::check_steps), unfolding(crate::specs::Checks::form_faults))]
fn check_form(alloc: Global, given: &[Parameter]) -> Result<(), QueryFault>
    ensures taken { OnOk result (form_faults given.now ≡ []) }
    ensures refused { IfErr result (IsRefusal (form_faults given.now)) }
{
    check_operation(alloc, given)?;
    check_version(alloc, given)?;
    check_query(alloc, given)
}

/// Which records are asked for.
#[tactic(auto, using(crate::proofs::CheckLemmas::check_steps), unfolding(crate::specs::Checks::window_faults))]
fn read_window(alloc: Global, given: &[Parameter]) -> Result<Window, QueryFault>
    ensures start { IfOk result (λ w.
        start_in (value_of (codes "startRecord") given.now) ≡ Some w.start) }
    ensures maximum { IfOk result (λ w.
        maximum_in (value_of (codes "maximumRecords") given.now) ≡ Some w.maximum) }
    ensures taken { OnOk result (window_faults given.now ≡ []) }
    ensures refused { IfErr result (IsRefusal (window_faults given.now)) }
{
    let start = read_start(alloc, given)?;
    let maximum = read_maximum(alloc, given)?;
    Ok(Window { start, maximum })
}

/// How records are given.
#[tactic(auto, using(crate::proofs::CheckLemmas::check_steps), unfolding(crate::specs::Checks::layout_faults))]
fn read_layout(alloc: Global, given: &[Parameter], schemas: &[Schema]) -> Result<Layout, QueryFault>
    ensures escaped { IfOk result (λ w.
        packing_in (value_of (codes "recordPacking") given.now) ≡ Some w.escaped) }
    ensures schema { IfOk result (λ w.
        schema_in schemas.now (value_of (codes "recordSchema") given.now) ≡ Some w.schema) }
    ensures within { IfOk result (λ w. w.schema < length schemas.now) }
    ensures taken { OnOk result (layout_faults schemas.now given.now ≡ []) }
    ensures refused { IfErr result (IsRefusal (layout_faults schemas.now given.now)) }
{
    let escaped = read_packing(alloc, given)?;
    let schema = read_schema(alloc, given, schemas)?;
    Ok(Layout { escaped, schema })
}

/// Nothing else is asked for.
#[tactic(auto, using(crate::proofs::CheckLemmas::check_steps), unfolding(crate::specs::Checks::rest_faults))]
fn check_rest(alloc: Global, given: &[Parameter]) -> Result<(), QueryFault>
    ensures taken { OnOk result (rest_faults given.now ≡ []) }
    ensures refused { IfErr result (IsRefusal (rest_faults given.now)) }
{
    check_sort(alloc, given)?;
    check_others(alloc, given)
}

/// What is asked for, with the version and the query of its own.
fn make_query(
    alloc: Global,
    given: &[Parameter],
    window: Window,
    layout: Layout,
) -> Result<SruQuery, Memory>
    ensures version { IfOk result (λ q. q.version ≡ version_of given.now) }
    ensures query { IfOk result (λ q. q.query ≡ value_of (codes "query") given.now) }
    ensures start { IfOk result (λ q. q.start ≡ window.start) }
    ensures maximum { IfOk result (λ q. q.maximum ≡ window.maximum) }
    ensures escaped { IfOk result (λ q. q.escaped ≡ layout.escaped) }
    ensures schema { IfOk result (λ q. q.schema ≡ layout.schema) }
{
    Ok(SruQuery {
        version: Text::copy_of(alloc, value_of(given, b"version"))?,
        query: Text::copy_of(alloc, value_of(given, b"query"))?,
        start: window.start,
        maximum: window.maximum,
        escaped: layout.escaped,
        schema: layout.schema,
    })
}

/// What parameters ask for.
#[tactic(auto, using(crate::proofs::CheckLemmas::check_steps), unfolding(crate::specs::Checks::faults))]
fn read_query(
    alloc: Global,
    given: &[Parameter],
    schemas: &[Schema],
) -> Result<SruQuery, QueryFault>
    ensures asked { IfOk result (IsAsked schemas.now given.now) }
    ensures within { IfOk result (λ q. q.schema < length schemas.now) }
    ensures taken { OnOk result (faults schemas.now given.now ≡ []) }
    ensures refused { IfErr result (IsRefusal (faults schemas.now given.now)) }
{
    check_form(alloc, given)?;
    let window = read_window(alloc, given)?;
    let layout = read_layout(alloc, given, schemas)?;
    check_rest(alloc, given)?;
    Ok(make_query(alloc, given, window, layout)?)
}

/// What a request asks for, by the parameters of its query: of a repeated one the first counts, and
/// an empty value counts as absent. The first check that fails refuses it with its diagnostic: the
/// operation is there (7) and searchRetrieve (4), the version is there (7) and 1.1 or 1.2 (5), the
/// query is there (7), startRecord is 1 to 2147483647 (6, default 1), maximumRecords 0 to 2147483647
/// (6, default 10, more than 100 is 100), recordPacking `xml` or `string` (71, default `xml`),
/// recordSchema a name or identifier among the schemas (66, default the first), there are no sortKeys
/// (80) and no other names but those that begin with `x-` (8). The first four are told in version 1.2,
/// the others in that asked for.
pub fn query_of(alloc: Global, get: &Get, schemas: &List<Schema>) -> Result<SruQuery, QueryFault>
    ensures asked { IfOk result (IsAsked schemas.now (parameters_of get.now.query)) }
    ensures within { IfOk result (λ q. q.schema < length schemas.now) }
    ensures taken { OnOk result (faults schemas.now (parameters_of get.now.query) ≡ []) }
    ensures refused { IfErr result
        (IsRefusal (faults schemas.now (parameters_of get.now.query))) }
{
    let given = parameters_of(alloc, get.query.as_slice())?;
    read_query(alloc, given.as_slice(), schemas.as_slice())
}
