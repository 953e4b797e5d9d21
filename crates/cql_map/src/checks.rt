//! Whether a query has a mapping, without making it: a term may have thousands of words.

ghost use Rattle.std.specs.Prelude.{◌≡◌, ◌≤◌, ◌+◌, false, [], Some, length, IfOk, IfErr, OnOk};
ghost use Rattle.cql_parse.specs.Tree.{clause, depth};
ghost use Rattle.z_types.specs.Bounds.{most_query_depth};
ghost use Rattle.cql_map.specs.Terms.{characters, words};
ghost use Rattle.cql_map.specs.Faults.{row_faults, clause_faults, faults, all_faults, more_words_faults, words_faults, IsRefusal};
ghost use Rattle.cql_map.specs.Long.{has_long_term, is_long};

use crate::MapFault;
use crate::bib1::EQUAL;
use crate::head::{read_head, refuse_boolean_modifiers};
use crate::map::has_sort;
use crate::operator::read_operator;
use crate::relation::Row;
use crate::term::{Character, characters, core, next_word, refuse_core};
use cql_parse::{Cql, Head, Node};
use route_config::Index;
use std::alloc::Global;
use z_types::{List, MOST_QUERY_DEPTH, Text};

/// Refuses a query by the first of its faults, as `to_rpn` does, and tells of one that has none
/// whether a term has more words, each of them searched, than a query of type 1 may have levels. No
/// query is made, so that it goes no deeper by recursion than the query of CQL is.
#[tactic(auto, using(crate::proofs::FaultLemmas::all_steps))]
pub fn check(alloc: Global, query: &Cql, indexes: &List<Index>) -> Result<bool, MapFault>
    requires { depth query.now ≤ most_query_depth }
    ensures long { IfOk result (λ long. long ≡ has_long_term query.now) }
    ensures taken { OnOk result (all_faults indexes.now query.now ≡ []) }
    ensures refused { IfErr result (IsRefusal (all_faults indexes.now query.now)) }
{
    let long = check_query(alloc, query, indexes.as_slice())?;
    if has_sort(query) {
        return Err(MapFault::Sort(Text::new(alloc)));
    }
    Ok(long)
}

/// A query, of which a sort is passed over.
#[cycle(check)]
#[tactic(auto, using(crate::proofs::FaultLemmas::joined_steps))]
fn check_query(alloc: Global, query: &Cql, indexes: &[Index]) -> Result<bool, MapFault>
    ensures long { IfOk result (λ long. long ≡ has_long_term query.now) }
    ensures taken { OnOk result (faults indexes.now query.now ≡ []) }
    ensures refused { IfErr result (IsRefusal (faults indexes.now query.now)) }
{
    match &query.node {
        Node::Clause(head, term) => check_clause(alloc, head, term, indexes),
        Node::Joined(boolean, modifiers, left, right) => {
            let left = check_query(alloc, left, indexes)?;
            let _operator = read_operator(alloc, boolean)?;
            refuse_boolean_modifiers(alloc, modifiers)?;
            let right = check_query(alloc, right, indexes)?;
            Ok(left || right)
        }
        Node::Prefix(_, uri, _) => {
            let uri = Text::copy_of(alloc, uri.as_slice())?;
            Err(MapFault::ContextSet(uri))
        }
        Node::Sorted(inner, _) => check_query(alloc, inner, indexes),
    }
}

/// A clause.
#[tactic(auto, using(crate::proofs::FaultLemmas::clause_head))]
fn check_clause(
    alloc: Global,
    head: &Option<Head>,
    term: &Text,
    indexes: &[Index],
) -> Result<bool, MapFault>
    ensures long { IfOk result (λ long. long ≡ has_long_term (clause head.now term.now)) }
    ensures taken { OnOk result (clause_faults indexes.now head.now term.now ≡ []) }
    ensures refused { IfErr result (IsRefusal (clause_faults indexes.now head.now term.now)) }
{
    match head {
        None => check_term(alloc, Row::Compared(EQUAL), term),
        Some(head) => {
            let (_, row) = read_head(alloc, head, indexes)?;
            check_term(alloc, row, term)
        }
    }
}

/// A term, by the row of its relation.
fn check_term(alloc: Global, row: Row, term: &Text) -> Result<bool, MapFault>
    ensures long { IfOk result (λ long. long ≡ is_long (Some row) (characters false term.now)) }
    ensures taken { OnOk result (row_faults row (characters false term.now) ≡ []) }
    ensures refused { IfErr result (IsRefusal (row_faults row (characters false term.now))) }
{
    let characters = characters(alloc, term.as_slice())?;
    match row {
        Row::Words(_) => {
            let count = check_words(alloc, characters.as_slice())?;
            Ok(count > MOST_QUERY_DEPTH as usize)
        }
        _ => {
            refuse_core(alloc, core(characters.as_slice()))?;
            Ok(false)
        }
    }
}

/// The words of a term: how many they are.
fn check_words(alloc: Global, term: &[Character]) -> Result<usize, MapFault>
    ensures count { IfOk result (λ count. count ≡ length (words term.now)) }
    ensures taken { OnOk result (words_faults (words term.now) ≡ []) }
    ensures refused { IfErr result (IsRefusal (words_faults (words term.now))) }
{
    let Some((word, rest)) = next_word(term) else {
        return Err(MapFault::EmptyTerm(Text::new(alloc)));
    };
    refuse_core(alloc, core(word))?;
    Ok(check_more(alloc, rest)? + 1)
}

/// The words behind the first: how many they are.
fn check_more(alloc: Global, term: &[Character]) -> Result<usize, MapFault>
    ensures count { IfOk result (λ count. count ≡ length (words term.now)) }
    ensures few { IfOk result (λ count. count ≤ length term.now) }
    ensures taken { OnOk result (more_words_faults (words term.now) ≡ []) }
    ensures refused { IfErr result (IsRefusal (more_words_faults (words term.now))) }
{
    let mut count = 0;
    let mut rest = term;
    'words: while let Some((word, behind)) = next_word(rest) {
        refuse_core(alloc, core(word))?;
        count += 1;
        rest = behind;
    }
    Ok(count)
}
