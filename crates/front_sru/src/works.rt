//! The two works of a GET.

ghost use Rattle.std.specs.Prelude.{◌≡◌, IfOk};
ghost use Rattle.z_types.specs.Same.{is_same};
ghost use Rattle.sru_rules.specs.Asking as asking;
ghost use Rattle.sru_rules.specs.Settling as settling;

use multi_merge::total;
use sru_request::SruQuery;
use sru_rules::Retrieval;
use std::alloc::Global;
use z_types::{List, Memory, Oid, Schema, Text, Work, copy};

/// The search of a retrieval: it asks for hits, and shows no record.
pub(crate) fn search_work(retrieval: &Retrieval) -> Result<Work, Memory>
    ensures { IfOk result (λ work. work ≡ asking.search_work retrieval.now) }
{
    Ok(Work::Search {
        login: None,
        legs: copy(&retrieval.legs)?,
        query: copy(&retrieval.query)?,
        small: 0,
        large: 1,
        medium: 0,
        small_element: None,
        medium_element: None,
        syntax: None,
        room: 0,
    })
}

/// The fetch of a retrieval, from a result set with these hits.
pub(crate) fn fetch_work(
    alloc: Global,
    schemas: &List<Schema>,
    retrieval: &Retrieval,
    hits: &List<u32>,
) -> Result<Work, Memory>
    ensures { IfOk result (λ work. work
        ≡ asking.fetch_work schemas.now retrieval.now hits.now) }
{
    Ok(Work::Fetch {
        login: None,
        legs: copy(&retrieval.legs)?,
        query: copy(&retrieval.query)?,
        hits: copy(hits)?,
        first: retrieval.asked.start,
        count: fetched_count(&retrieval.asked, total(hits.as_slice())),
        syntax: Some(xml(alloc)?),
        element: element_of(schemas, &retrieval.asked)?,
    })
}

/// How many records are fetched of so many.
pub(crate) fn fetched_count(asked: &SruQuery, count: u32) -> u32
    ensures { result ≡ asking.fetched_count asked.now count }
{
    let from_start = (u64::from(count) + 1).saturating_sub(u64::from(asked.start));
    u64::from(asked.maximum).min(from_start) as u32
}

/// Whether the first record that is asked for lies behind the last, and behind the first.
pub(crate) fn is_out_of_range(asked: &SruQuery, count: u32) -> bool
    ensures { result ≡ settling.is_out_of_range asked.now count }
{
    asked.start > count.max(1)
}

/// The record syntax XML.
fn xml(alloc: Global) -> Result<Oid, Memory>
    ensures { IfOk result (λ oid. oid ≡ asking.xml) }
{
    Oid::copy_of(alloc, &[1, 2, 840, 10003, 5, 109, 10])
}

/// Whether a record syntax is XML.
pub(crate) fn is_xml(syntax: &Oid) -> bool
    ensures { result ≡ is_same syntax.now asking.xml }
{
    syntax.arcs() == [1, 2, 840, 10003, 5, 109, 10].as_slice()
}

/// The element set name of the schema that is asked for.
fn element_of(schemas: &List<Schema>, asked: &SruQuery) -> Result<Option<Text>, Memory>
    ensures { IfOk result (λ element. element ≡ asking.element_of schemas.now asked.now) }
{
    match schemas.get(asked.schema as usize) {
        Some(schema) => Ok(Some(copy(&schema.element)?)),
        None => Ok(None),
    }
}
