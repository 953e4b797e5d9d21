//! Queries of CQL and what they are mapped to, by the indexes of a route that names none of its own, and by
//! those of another.

use crate::trees::tokens_of;
use case_files::{Answer, NoAnswer};
use cql_map::{MapFault, to_rpn};
use cql_parse::{ParseFault, parse};
use route_config::Index;
use std::alloc::Global;
use z_types::{List, Memory, Node, Rpn, RpnQuery, Text};

/// The indexes of a route that names none of its own.
const DEFAULT: [(&[u8], u32); 6] = [
    (b"dc.title", 4),
    (b"dc.creator", 1003),
    (b"dc.subject", 21),
    (b"bath.isbn", 7),
    (b"bath.issn", 8),
    (b"cql.anywhere", 1016),
];

/// The indexes of another route.
const OTHERS: [(&[u8], u32); 4] = [
    (b"rec.id", 12),
    (b"cql.id", 13),
    (b"dc.id", 14),
    (b"cql.serverChoice", 15),
];

/// Whether a call is one of these. Its answer is put at the end.
pub(crate) fn is_answered(
    alloc: Global,
    call: &str,
    text: &[u8],
    out: &mut Answer,
) -> Result<bool, NoAnswer> {
    match call {
        "map" => put_mapped(out, mapped(alloc, text, &DEFAULT)?)?,
        "map_by_others" => put_mapped(out, mapped(alloc, text, &OTHERS)?)?,
        "map_fault" => put_fault(out, mapped(alloc, text, &DEFAULT)?)?,
        "map_operands" => put_operands(out, text.len(), mapped(alloc, text, &DEFAULT)?)?,
        _ => return Ok(false),
    }
    Ok(true)
}

/// What a text that is a query is mapped to, or why it is not.
fn mapped(
    alloc: Global,
    text: &[u8],
    names: &[(&[u8], u32)],
) -> Result<Result<RpnQuery, MapFault>, NoAnswer> {
    let found = tokens_of(alloc, text)?;
    let indexes = indexes_of(alloc, names)?;
    match parse(alloc, text, &found) {
        Ok(query) => Ok(to_rpn(alloc, &query, &indexes)),
        Err(ParseFault::Memory) => Err(NoAnswer::Memory),
        Err(_) => Err(NoAnswer::Misspelt),
    }
}

/// Indexes of these names and values.
fn indexes_of(alloc: Global, names: &[(&[u8], u32)]) -> Result<List<Index>, Memory> {
    let mut found = List::new(alloc);
    for (name, value) in names {
        found.push(Index {
            name: Text::copy_of(alloc, name)?,
            value: *value,
        })?;
    }
    Ok(found)
}

/// A query in prefix notation; or the number of why there is none, that of its diagnostic (SRU 1.2), and its
/// detail.
fn put_mapped(out: &mut Answer, query: Result<RpnQuery, MapFault>) -> Result<(), NoAnswer> {
    match query {
        Ok(query) => put_in_bib1(out, &query),
        Err(MapFault::Memory) => return Err(NoAnswer::Memory),
        Err(fault) => put_numbers(out, &fault),
    }
    Ok(())
}

/// The number of a fault, that of its diagnostic, and its detail.
fn put_numbers(out: &mut Answer, fault: &MapFault) {
    out.print(&fault.number());
    out.put(" ");
    out.print(&fault.diagnostic());
    out.put(" ");
    out.put_quoted(fault.detail());
}

/// A query in prefix notation, where its attribute set is bib-1.
fn put_in_bib1(out: &mut Answer, query: &RpnQuery) {
    if query.attr_set.arcs() != [1, 2, 840, 10003, 3, 1].as_slice() {
        out.put("another set ");
    }
    out.put_query(&query.root);
}

/// What is printed where a query is not mapped.
fn put_fault(out: &mut Answer, query: Result<RpnQuery, MapFault>) -> Result<(), NoAnswer> {
    match query {
        Ok(_) => Err(NoAnswer::Misspelt),
        Err(fault) => {
            out.print(&fault);
            Ok(())
        }
    }
}

/// How many octets a text has, and how many operands the `or` that it is mapped to.
fn put_operands(
    out: &mut Answer,
    octets: usize,
    query: Result<RpnQuery, MapFault>,
) -> Result<(), NoAnswer> {
    match query {
        Ok(query) => {
            out.print(&octets);
            out.put(" octets ");
            out.print(&operands(&query.root));
            out.put(" operands");
            Ok(())
        }
        Err(_) => Err(NoAnswer::Misspelt),
    }
}

/// How many operands an `or` that groups to the left has.
fn operands(query: &Rpn) -> usize {
    let mut query = query;
    let mut found = 1usize;
    while let Node::Or(left, _) = &query.node {
        found = found.saturating_add(1);
        query = left;
    }
    found
}
