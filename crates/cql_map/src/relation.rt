//! The table of relations (CQL 1.2, context set cql).

ghost use Rattle.std.specs.Prelude.{◌≡◌};
ghost use Rattle.cql_map.specs.Relations.{symbols, words, row_in, bare_name, row_of};

use crate::bib1::{EQUAL, GREATER, GREATER_OR_EQUAL, LESS, LESS_OR_EQUAL, NOT_EQUAL};
use crate::index::is_same_name;

/// How the words of a term are joined.
#[derive(Clone, Copy, Debug, PartialEq, Eq)]
pub enum Joint {
    /// All of them are found.
    All,
    /// Some of them are found.
    Any,
}

/// What a relation asks of a term.
#[derive(Clone, Copy, Debug, PartialEq, Eq)]
pub enum Row {
    /// This relation of bib-1, to a phrase or a word.
    Compared(u32),
    /// The whole field is the term.
    Whole,
    /// The term's words stand beside one another.
    Adjacent,
    /// The term's words, each by itself.
    Words(Joint),
}

/// The row of a symbol.
fn symbol_row(name: &[u8]) -> Option<Row>
    ensures { result ≡ row_in symbols name.now }
{
    if is_same_name(name, b"=") {
        return Some(Row::Compared(EQUAL));
    }
    if is_same_name(name, b"==") {
        return Some(Row::Whole);
    }
    if is_same_name(name, b"<") {
        return Some(Row::Compared(LESS));
    }
    if is_same_name(name, b"<=") {
        return Some(Row::Compared(LESS_OR_EQUAL));
    }
    if is_same_name(name, b">=") {
        return Some(Row::Compared(GREATER_OR_EQUAL));
    }
    if is_same_name(name, b">") {
        return Some(Row::Compared(GREATER));
    }
    if is_same_name(name, b"<>") {
        return Some(Row::Compared(NOT_EQUAL));
    }
    None
}

/// The row of a word.
fn word_row(name: &[u8]) -> Option<Row>
    ensures { result ≡ row_in words name.now }
{
    if is_same_name(name, b"scr") {
        return Some(Row::Compared(EQUAL));
    }
    if is_same_name(name, b"exact") {
        return Some(Row::Whole);
    }
    if is_same_name(name, b"adj") {
        return Some(Row::Adjacent);
    }
    if is_same_name(name, b"all") {
        return Some(Row::Words(Joint::All));
    }
    if is_same_name(name, b"any") {
        return Some(Row::Words(Joint::Any));
    }
    None
}

/// A word without the prefix `cql.`.
fn bare_name(name: &[u8]) -> &[u8]
    ensures { result.now ≡ bare_name name.now }
{
    if name.len() < 4 {
        return name;
    }
    if is_same_name(&name[..4], b"cql.") {
        &name[4..]
    } else {
        name
    }
}

/// The row of a relation: a symbol, or a word with or without `cql.`.
pub fn row_of(relation: &[u8]) -> Option<Row>
    ensures { result ≡ row_of relation.now }
{
    match symbol_row(relation) {
        None => word_row(bare_name(relation)),
        Some(row) => Some(row),
    }
}
