//! The answer to a GET (SRU 1.2, Response Parameters), and its octets.

ghost use Rattle.std.specs.Prelude.{◌≡◌, None, Some, IfOk, slice_get};
ghost use Rattle.z_types.specs.declared.marks.End.TheVariants.{Closed};
ghost use Rattle.sru_reply.specs.declared.bare.Refusal.TheVariants.{NotFound};
ghost use Rattle.sru_reply.specs.Bare.{bare};
ghost use Rattle.sru_rules.specs.Diagnostics as diagnostics;
ghost use Rattle.sru_rules.specs.Settling as settling;
ghost use Rattle.front_sru.specs.Gets.{IsAnswerPut, IsMessagePut, IsPut, IsRefusalPut};

use crate::Begun;
use crate::diagnostics::of_target;
use crate::items::items_of;
use crate::outcomes::{Came, came_of};
use sru_reply::{Refusal, bare_text, reply_text};
use sru_request::SruQuery;
use std::alloc::Global;
use z_types::{
    Diag, End, Fetched, List, Mark, Memory, Outcome, Schema, SruAnswer, SruDiag, SruItem, Text,
    copy,
};

/// A diagnostic in the place of records.
pub(crate) fn refusal(alloc: Global, diag: SruDiag) -> Result<SruAnswer, Memory>
    ensures { IfOk result (λ answer. answer ≡ settling.refusal diag) }
{
    Ok(SruAnswer {
        version: copy(&diag.version)?,
        escaped: false,
        count: 0,
        start: 1,
        uri: Text::new(alloc),
        items: List::new(alloc),
        refused: Some(diag),
    })
}

/// A diagnostic of a target or of a mark in the place of records.
pub(crate) fn failure(alloc: Global, version: &Text, diag: Diag) -> Result<SruAnswer, Memory>
    ensures { IfOk result (λ answer. answer
        ≡ settling.refusal (diagnostics.of_target version.now diag)) }
{
    refusal(alloc, of_target(version, diag)?)
}

/// So many records are found, and these are given.
pub(crate) fn given(
    alloc: Global,
    schemas: &List<Schema>,
    asked: &SruQuery,
    count: u32,
    items: List<SruItem>,
) -> Result<SruAnswer, Memory>
    ensures { IfOk result (λ answer. answer ≡ settling.given schemas.now asked.now count items) }
{
    Ok(SruAnswer {
        version: copy(&asked.version)?,
        escaped: asked.escaped,
        count,
        start: asked.start,
        uri: uri_of(alloc, schemas, asked.schema)?,
        items,
        refused: None,
    })
}

/// The identifier of the schema at a place.
fn uri_of(alloc: Global, schemas: &List<Schema>, place: u32) -> Result<Text, Memory>
    ensures { IfOk result (λ uri. uri ≡ settling.uri_in (slice_get schemas.now place)) }
{
    match schemas.get(place as usize) {
        Some(schema) => copy(&schema.uri),
        None => Ok(Text::new(alloc)),
    }
}

/// The answer by what came of the fetch.
pub(crate) fn fetch_answer(
    alloc: Global,
    schemas: &List<Schema>,
    asked: &SruQuery,
    count: u32,
    outcome: Outcome,
) -> Result<SruAnswer, Memory>
    ensures { IfOk result (λ answer. answer
        ≡ settling.fetch_answer schemas.now asked.now count outcome) }
{
    match came_of(alloc, outcome)? {
        Came::Failed(diag) => failure(alloc, &asked.version, diag),
        Came::Good(_, fetched) => with_records(alloc, schemas, asked, count, fetched),
    }
}

/// The records that were fetched, or a diagnostic of all of them.
fn with_records(
    alloc: Global,
    schemas: &List<Schema>,
    asked: &SruQuery,
    count: u32,
    fetched: Fetched,
) -> Result<SruAnswer, Memory>
    ensures { IfOk result (λ answer. answer
        ≡ settling.with_records schemas.now asked.now count fetched) }
{
    match fetched {
        Fetched::None => given(alloc, schemas, asked, count, List::new(alloc)),
        Fetched::Records(records) => {
            let items = items_of(alloc, &asked.version, records)?;
            given(alloc, schemas, asked, count, items)
        }
        Fetched::Whole(diag) => failure(alloc, &asked.version, diag),
    }
}

/// Writes an answer of SRU under a mark, if there is one. Without memory nothing is written.
pub(crate) fn put_answer(
    alloc: Global,
    answer: Result<SruAnswer, Memory>,
    mark: Mark,
    out: &mut Text,
) -> Begun
    ensures { IsAnswerPut answer mark out.old out.new result }
{
    match answer {
        Ok(answer) => put(reply_text(alloc, &answer), Some(mark), out),
        Err(_) => Begun::Memory,
    }
}

/// Writes a diagnostic in the place of records, if there is one.
pub(crate) fn put_refusal(
    alloc: Global,
    diag: Result<SruDiag, Memory>,
    mark: Mark,
    out: &mut Text,
) -> Begun
    ensures { IsRefusalPut diag mark out.old out.new result }
{
    match diag {
        Ok(diag) => put_answer(alloc, refusal(alloc, diag), mark, out),
        Err(_) => Begun::Memory,
    }
}

/// Writes that there is no such database.
pub(crate) fn put_not_found(alloc: Global, out: &mut Text) -> Begun
    ensures { IsPut (bare NotFound) None out.old out.new result }
{
    put(bare_text(alloc, Refusal::NotFound), None, out)
}

/// Writes a message, if there is one, which ends the connection.
fn put(message: Result<Text, Memory>, mark: Option<Mark>, out: &mut Text) -> Begun
    ensures { IsMessagePut message mark out.old out.new result }
{
    let Ok(message) = message else {
        return Begun::Memory;
    };
    match out.append(message.as_slice()) {
        Ok(()) => Begun::Write(mark, Some(End::Closed)),
        Err(_) => Begun::Memory,
    }
}
