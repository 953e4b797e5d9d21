//! Texts of CQL, their tokens and their trees.

use case_files::{Answer, NoAnswer};
use cql_lex::{LexFault, Token, tokens};
use cql_parse::{Cql, Node, ParseFault, parse, write};
use std::alloc::Global;
use z_types::List;

/// Whether a call is one of these. Its answer is put at the end.
pub(crate) fn is_answered(
    alloc: Global,
    call: &str,
    text: &[u8],
    out: &mut Answer,
) -> Result<bool, NoAnswer> {
    match call {
        "tokens" => put_tokens(alloc, out, text)?,
        "cut" => put_cut(alloc, out, text)?,
        "lex_fault" => out.print(&lex_fault_of(alloc, text)?),
        "lex_number" => out.print(&lex_fault_of(alloc, text)?.number()),
        "parse" => put_parsed(alloc, out, text)?,
        "write" => put_written(alloc, out, text)?,
        "parse_fault" => out.print(&parse_fault_of(alloc, text)?),
        "parse_number" => out.print(&parse_fault_of(alloc, text)?.number()),
        _ => return Ok(false),
    }
    Ok(true)
}

/// The kinds and places of tokens, or why there are none.
fn put_tokens(alloc: Global, out: &mut Answer, text: &[u8]) -> Result<(), NoAnswer> {
    match tokens(alloc, text) {
        Ok(found) => put_each(out, found.as_slice()),
        Err(LexFault::Memory) => return Err(NoAnswer::Memory),
        Err(fault) => out.spell(&fault),
    }
    Ok(())
}

/// The kinds and places of tokens, with a comma between each two.
fn put_each(out: &mut Answer, tokens: &[Token]) {
    for (place, token) in tokens.iter().enumerate() {
        out.put(if place == 0 { "" } else { ", " });
        put_token(out, token);
    }
}

/// The kind of a token, where it begins and where it ends.
fn put_token(out: &mut Answer, token: &Token) {
    out.spell(&token.kind);
    out.put(" ");
    out.print(&token.start);
    out.put(" ");
    out.print(&token.end);
}

/// The octets of each token, in brackets.
fn put_cut(alloc: Global, out: &mut Answer, text: &[u8]) -> Result<(), NoAnswer> {
    let found = tokens_of(alloc, text)?;
    for token in found.as_slice() {
        out.put("[");
        out.put_text(text.get(token.start..token.end).unwrap_or(b""));
        out.put("]");
    }
    Ok(())
}

/// The tokens of a text that has some.
pub(crate) fn tokens_of(alloc: Global, text: &[u8]) -> Result<List<Token>, NoAnswer> {
    match tokens(alloc, text) {
        Ok(found) => Ok(found),
        Err(LexFault::Memory) => Err(NoAnswer::Memory),
        Err(_) => Err(NoAnswer::Misspelt),
    }
}

/// Why a text has no tokens.
fn lex_fault_of(alloc: Global, text: &[u8]) -> Result<LexFault, NoAnswer> {
    match tokens(alloc, text) {
        Ok(_) => Err(NoAnswer::Misspelt),
        Err(fault) => Ok(fault),
    }
}

/// Of which nodes the tree of a text is, or why there is none.
fn put_parsed(alloc: Global, out: &mut Answer, text: &[u8]) -> Result<(), NoAnswer> {
    let found = tokens_of(alloc, text)?;
    match parse(alloc, text, &found) {
        Ok(query) => put_nodes(out, &query),
        Err(ParseFault::Memory) => return Err(NoAnswer::Memory),
        Err(fault) => out.spell(&fault),
    }
    Ok(())
}

/// The boolean of a tree and the kinds of its two sides, or its own kind.
fn put_nodes(out: &mut Answer, query: &Cql) {
    match &query.node {
        Node::Joined(boolean, _, left, right) => {
            out.put_text(boolean.as_slice());
            out.put(" of ");
            out.put(kind_of(left));
            out.put(" and ");
            out.put(kind_of(right));
        }
        _ => out.put(kind_of(query)),
    }
}

/// The kind of a tree.
fn kind_of(query: &Cql) -> &'static str {
    match &query.node {
        Node::Joined(..) => "operator",
        Node::Clause(..) => "clause",
        _ => "another",
    }
}

/// How the query of a text is written, or why there is none.
fn put_written(alloc: Global, out: &mut Answer, text: &[u8]) -> Result<(), NoAnswer> {
    let found = tokens_of(alloc, text)?;
    match parse(alloc, text, &found) {
        Ok(query) => out.put_text(write(alloc, &query)?.as_slice()),
        Err(ParseFault::Memory) => return Err(NoAnswer::Memory),
        Err(fault) => out.spell(&fault),
    }
    Ok(())
}

/// Why a text has no tree.
fn parse_fault_of(alloc: Global, text: &[u8]) -> Result<ParseFault, NoAnswer> {
    let found = tokens_of(alloc, text)?;
    match parse(alloc, text, &found) {
        Ok(_) => Err(NoAnswer::Misspelt),
        Err(fault) => Ok(fault),
    }
}
