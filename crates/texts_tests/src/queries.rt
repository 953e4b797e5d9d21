//! Parameters of requests, over two schemas: dc and brief.

use case_files::{Answer, NoAnswer};
use sru_request::{Get, QueryFault, SruQuery, query_of};
use std::alloc::Global;
use z_types::{List, Memory, Schema, SruDiag, Text};

/// Whether a call is one of these. Its answer is put at the end.
pub(crate) fn is_answered(
    alloc: Global,
    call: &str,
    text: &[u8],
    out: &mut Answer,
) -> Result<bool, NoAnswer> {
    match call {
        "query" | "chosen" | "escaped" => put_answer(alloc, call, out, text)?,
        _ => return Ok(false),
    }
    Ok(true)
}

/// What is chosen by parameters, or the diagnostic by which they are refused.
fn put_answer(alloc: Global, call: &str, out: &mut Answer, text: &[u8]) -> Result<(), NoAnswer> {
    let get = Get {
        path: Text::new(alloc),
        query: Text::copy_of(alloc, text)?,
    };
    match query_of(alloc, &get, &schemas(alloc)?) {
        Ok(query) => put_query(out, call, &query),
        Err(QueryFault::Diag(diag)) => put_diag(out, &diag),
        Err(QueryFault::Memory) => return Err(NoAnswer::Memory),
    }
    Ok(())
}

/// What a call tells of a request that is taken.
fn put_query(out: &mut Answer, call: &str, query: &SruQuery) {
    match call {
        "query" => out.put_quoted(query.query.as_slice()),
        "escaped" => out.print(&query.escaped),
        _ => put_chosen(out, query),
    }
}

/// The query of a request, the first position, the most records, and the place of the schema.
fn put_chosen(out: &mut Answer, query: &SruQuery) {
    out.put_quoted(query.query.as_slice());
    put_number(out, " start ", query.start);
    put_number(out, " maximum ", query.maximum);
    put_number(out, " schema ", query.schema);
}

/// A number behind its name.
fn put_number(out: &mut Answer, name: &str, number: u32) {
    out.put(name);
    out.print(&number);
}

/// The version, the number and the details of a diagnostic.
fn put_diag(out: &mut Answer, diag: &SruDiag) {
    out.put("refused ");
    out.put_quoted(diag.version.as_slice());
    put_number(out, " ", diag.number);
    out.put(" ");
    out.put_quoted(diag.details.as_slice());
}

/// Two schemas.
fn schemas(alloc: Global) -> Result<List<Schema>, Memory> {
    let mut schemas = List::new(alloc);
    schemas.push(schema(alloc, b"dc", b"info:srw/schema/1/dc-v1.1")?)?;
    schemas.push(schema(alloc, b"brief", b"urn:b")?)?;
    Ok(schemas)
}

/// A schema.
fn schema(alloc: Global, name: &[u8], uri: &[u8]) -> Result<Schema, Memory> {
    Ok(Schema {
        name: Text::copy_of(alloc, name)?,
        uri: Text::copy_of(alloc, uri)?,
        element: Text::copy_of(alloc, b"F")?,
    })
}
