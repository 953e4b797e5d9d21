//! The query of a GET (CQL 1.2) as one of type 1 (ANSI/NISO Z39.50-2003, RPNQuery).

ghost use Rattle.std.specs.Prelude.{◌≡◌, ◌≤◌, IfOk};
ghost use Rattle.z_types.specs.Bounds.{most_query_depth};
ghost use Rattle.cql_parse.specs.Tree.{depth};
ghost use Rattle.sru_rules.specs.Asking as asking;
ghost use Rattle.sru_rules.specs.Reading.{IsLexed, parsed};
ghost use Rattle.front_sru.specs.Queries.{IsOrMemory, IsReadQuery, limited, mapping_fault, tokens_fault, as_fault, tree_fault};

use crate::diagnostics::{not_mapped, query_feature_unsupported, query_syntax_error};
use cql_lex::{LexFault, Token, tokens};
use cql_map::{MapFault, check, to_rpn};
use cql_parse::{Cql, ParseFault, parse};
use route_config::Index;
use sru_request::QueryFault;
use std::alloc::Global;
use z_types::{
    List, MOST_QUERY_COST, MOST_QUERY_DEPTH, MOST_QUERY_NODES, Measures, Memory, Rpn, RpnQuery,
    Text,
};

/// The query of type 1 that a text is, or the diagnostic in this version that refuses it: first what is
/// no query of CQL, then what has no mapping, then what is too large.
pub(crate) fn rpn_of(
    alloc: Global,
    version: &Text,
    indexes: &List<Index>,
    text: &Text,
) -> Result<RpnQuery, QueryFault>
    ensures { IsReadQuery version.now indexes.now text.now result }
{
    match tokens(alloc, text.as_slice()) {
        Ok(tokens) => rpn_of_tokens(alloc, version, indexes, text, &tokens),
        Err(fault) => Err(no_tokens(alloc, version, fault)?),
    }
}

/// A text has no tokens.
fn no_tokens(alloc: Global, version: &Text, fault: LexFault) -> Result<QueryFault, Memory>
    ensures { IfOk result (λ told. told ≡ tokens_fault version.now fault) }
{
    match fault {
        LexFault::OpenQuote(place) | LexFault::NotUtf8(place) => {
            Ok(QueryFault::Diag(query_syntax_error(alloc, version, place)?))
        }
        LexFault::Memory => Ok(QueryFault::Memory),
    }
}

/// The query of type 1 that the tokens of a text are.
fn rpn_of_tokens(
    alloc: Global,
    version: &Text,
    indexes: &List<Index>,
    text: &Text,
    tokens: &List<Token>,
) -> Result<RpnQuery, QueryFault>
    requires { IsLexed text.now tokens.now }
    ensures { IsReadQuery version.now indexes.now text.now result }
{
    match parse(alloc, text.as_slice(), tokens) {
        Ok(tree) => rpn_of_tree(alloc, version, indexes, &tree),
        Err(fault) => Err(no_tree(alloc, version, fault)?),
    }
}

/// Tokens are no query that is taken.
fn no_tree(alloc: Global, version: &Text, fault: ParseFault) -> Result<QueryFault, Memory>
    ensures { IfOk result (λ told. told ≡ tree_fault version.now fault) }
{
    match fault {
        ParseFault::Syntax(place) => {
            Ok(QueryFault::Diag(query_syntax_error(alloc, version, place)?))
        }
        ParseFault::TooDeep => Ok(QueryFault::Diag(query_feature_unsupported(alloc, version)?)),
        ParseFault::Memory => Ok(QueryFault::Memory),
    }
}

/// The query of type 1 that a query of CQL is mapped to. What is too deep by the words of one term is
/// told so before a query is made of them.
#[tactic(auto, using(crate::proofs::Limits::long_refused))]
fn rpn_of_tree(
    alloc: Global,
    version: &Text,
    indexes: &List<Index>,
    tree: &Cql,
) -> Result<RpnQuery, QueryFault>
    requires { depth tree.now ≤ most_query_depth }
    ensures { IsOrMemory
        (as_fault (asking.rpn_of version.now indexes.now (parsed tree.now))) result }
{
    match check(alloc, tree, indexes) {
        Ok(true) => Err(QueryFault::Diag(query_feature_unsupported(alloc, version)?)),
        Ok(false) => rpn_of_checked(alloc, version, indexes, tree),
        Err(fault) => Err(no_mapping(alloc, version, fault)?),
    }
}

/// The same of a query that has no term of too many words.
fn rpn_of_checked(
    alloc: Global,
    version: &Text,
    indexes: &List<Index>,
    tree: &Cql,
) -> Result<RpnQuery, QueryFault>
    requires { depth tree.now ≤ most_query_depth }
    ensures { IsOrMemory
        (as_fault (asking.rpn_of version.now indexes.now (parsed tree.now))) result }
{
    match to_rpn(alloc, tree, indexes) {
        Ok(query) => within_limits(alloc, version, query),
        Err(fault) => Err(no_mapping(alloc, version, fault)?),
    }
}

/// A part of a query has no mapping.
fn no_mapping(alloc: Global, version: &Text, fault: MapFault) -> Result<QueryFault, Memory>
    ensures { IfOk result (λ told. told ≡ mapping_fault version.now fault) }
{
    match fault {
        MapFault::Memory => Ok(QueryFault::Memory),
        fault => Ok(QueryFault::Diag(not_mapped(alloc, version, &fault)?)),
    }
}

/// A query of type 1 within the limits.
fn within_limits(alloc: Global, version: &Text, query: RpnQuery) -> Result<RpnQuery, QueryFault>
    ensures { IsOrMemory (as_fault (limited version.now query)) result }
{
    if is_too_large(&query.root) {
        return Err(QueryFault::Diag(query_feature_unsupported(alloc, version)?));
    }
    Ok(query)
}

/// Whether a query of type 1 has too many nodes or levels, or costs too much.
#[tactic(auto, using(crate::proofs::Limits::too_large_measured))]
fn is_too_large(root: &Rpn) -> bool
    ensures { result ≡ asking.is_too_large root.now }
{
    let measures = Measures::of(root);
    measures.nodes > MOST_QUERY_NODES
        || (measures.levels > MOST_QUERY_DEPTH || measures.cost > MOST_QUERY_COST)
}
