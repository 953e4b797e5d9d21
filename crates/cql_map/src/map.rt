//! A CQL query as one of type 1.

ghost use Rattle.std.specs.Prelude.{◌≡◌, ◌≤◌, false, [], Some, IfOk, IfErr, OnOk};
ghost use Rattle.cql_parse.specs.Tree.{depth};
ghost use Rattle.z_types.specs.Bounds.{most_query_depth};
ghost use Rattle.cql_map.specs.Bib1.{bib1_attributes};
ghost use Rattle.cql_map.specs.Terms.{characters};
ghost use Rattle.cql_map.specs.Meaning.{HasMeaningOf};
ghost use Rattle.cql_map.specs.Mapped.{row_mapped, clause_mapped, mapped};
ghost use Rattle.cql_map.specs.Faults.{row_faults, clause_faults, faults, has_sort, all_faults, IsRefusal};

use crate::MapFault;
use crate::bib1::{ANYWHERE, EQUAL, bib1_attributes};
use crate::head::{read_head, refuse_boolean_modifiers};
use crate::leaf::leaf;
use crate::operator::{read_operator, under};
use crate::relation::Row;
use crate::term::characters;
use crate::words::map_words;
use cql_parse::{Cql, Head, Node};
use route_config::Index;
use std::alloc::Global;
use z_types::{List, Rpn, RpnQuery, Text};

/// The query of type 1 that finds what a query of CQL finds, whatever targets find for its operands:
/// with the attribute set bib-1, and attributes in the order of the table of relations. Of what is not
/// mapped the first is told, from the left, and a sort behind all else. It is for the trees that
/// `cql_parse::parse` gives, of at most 48 levels, since it goes down the tree by recursion, and takes
/// time linear in the query's octets.
#[tactic(auto, using(crate::proofs::FaultLemmas::all_steps))]
pub fn to_rpn(alloc: Global, query: &Cql, indexes: &List<Index>) -> Result<RpnQuery, MapFault>
    requires { depth query.now ≤ most_query_depth }
    ensures kept { IfOk result (λ q. HasMeaningOf indexes.now query.now q.root) }
    ensures exact { IfOk result (λ q. mapped indexes.now query.now ≡ Some q.root) }
    ensures attribute_set { IfOk result (λ q. q.attr_set ≡ bib1_attributes) }
    ensures taken { IfOk result (λ q. all_faults indexes.now query.now ≡ []) }
    ensures refused { IfErr result (IsRefusal (all_faults indexes.now query.now)) }
{
    let root = map_query(alloc, query, indexes.as_slice())?;
    if has_sort(query) {
        return Err(MapFault::Sort(Text::new(alloc)));
    }
    Ok(RpnQuery {
        attr_set: bib1_attributes(alloc)?,
        root,
    })
}

/// A query, of which a sort is passed over.
#[cycle(map)]
#[tactic(auto, using(crate::proofs::FaultLemmas::joined_steps))]
fn map_query(alloc: Global, query: &Cql, indexes: &[Index]) -> Result<Rpn, MapFault>
    ensures taken { OnOk result (faults indexes.now query.now ≡ []) }
    ensures exact { IfOk result (λ root. mapped indexes.now query.now ≡ Some root) }
    ensures refused { IfErr result (IsRefusal (faults indexes.now query.now)) }
{
    match &query.node {
        Node::Clause(head, term) => map_clause(alloc, head, term, indexes),
        Node::Joined(boolean, modifiers, left, right) => {
            let left = map_query(alloc, left, indexes)?;
            let operator = read_operator(alloc, boolean)?;
            refuse_boolean_modifiers(alloc, modifiers)?;
            let right = map_query(alloc, right, indexes)?;
            Ok(under(alloc, operator, left, right)?)
        }
        Node::Prefix(_, uri, _) => {
            let uri = Text::copy_of(alloc, uri.as_slice())?;
            Err(MapFault::ContextSet(uri))
        }
        Node::Sorted(inner, _) => map_query(alloc, inner, indexes),
    }
}

/// A clause.
#[tactic(auto, using(crate::proofs::FaultLemmas::clause_head))]
fn map_clause(
    alloc: Global,
    head: &Option<Head>,
    term: &Text,
    indexes: &[Index],
) -> Result<Rpn, MapFault>
    ensures taken { OnOk result (clause_faults indexes.now head.now term.now ≡ []) }
    ensures exact { IfOk result (λ r. clause_mapped indexes.now head.now term.now ≡ Some r) }
    ensures refused { IfErr result (IsRefusal (clause_faults indexes.now head.now term.now)) }
{
    match head {
        None => map_term(alloc, ANYWHERE, Row::Compared(EQUAL), term),
        Some(head) => {
            let (value, row) = read_head(alloc, head, indexes)?;
            map_term(alloc, value, row, term)
        }
    }
}

/// A term in an index, by the row of its relation.
fn map_term(alloc: Global, value: u32, row: Row, term: &Text) -> Result<Rpn, MapFault>
    ensures taken { OnOk result (row_faults row (characters false term.now) ≡ []) }
    ensures exact { IfOk result (λ r. row_mapped value row (characters false term.now) ≡ Some r) }
    ensures refused { IfErr result (IsRefusal (row_faults row (characters false term.now))) }
{
    let characters = characters(alloc, term.as_slice())?;
    match row {
        Row::Words(joint) => map_words(alloc, joint, value, characters.as_slice()),
        _ => leaf(alloc, value, row, characters.as_slice()),
    }
}

/// Whether there is a sort.
pub(crate) fn has_sort(query: &Cql) -> bool
    ensures { result ≡ has_sort query.now }
{
    match &query.node {
        Node::Clause(_, _) => false,
        Node::Joined(_, _, left, right) => has_sort(left) || has_sort(right),
        Node::Prefix(_, _, inner) => has_sort(inner),
        Node::Sorted(_, _) => true,
    }
}
