//! The text of a query.

ghost use Rattle.std.specs.Prelude.{◌≡◌, ◌≤◌, ◌++◌, IfOk, OnOk};
ghost use Rattle.cql_parse.specs.Tree.{depth};
ghost use Rattle.cql_parse.specs.WellFormed.{IsWellFormed};
ghost use Rattle.cql_parse.specs.Again.{IsTextOf, IsNoDeeper};
ghost use Rattle.cql_parse.specs.Written.{quoted, bracketed, index_text, value_text, modifiers_text, keys_text, head_text, prefix_text, reaches_on, groups, written};
ghost use Rattle.z_types.specs.Bounds.{most_query_depth};

use crate::{Cql, Head, Modifier, Node, SortKey};
use cql_lex::is_word;
use std::alloc::Global;
use z_types::{List, Memory, Text};

/// The text of a query: one space round relations, booleans and `sortby` and between sort keys,
/// every term quoted, and brackets where the tree needs them. What is written of a well-formed tree,
/// as each is that `parse` gives, is a text of that tree, with brackets nested no deeper than the tree
/// has levels. It is for trees of at most 48 levels, since it goes down the tree by recursion.
pub fn write(alloc: Global, query: &Cql) -> Result<Text, Memory>
    requires { depth query.now ≤ most_query_depth }
    ensures layout { IfOk result (λ text. text ≡ written query.now) }
    ensures again { IfOk result (λ text. IsWellFormed query.now → IsTextOf text query.now) }
    ensures shallow { IfOk result (λ text. IsWellFormed query.now → IsNoDeeper text query.now) }
{
    let mut out = Text::new(alloc);
    query_to(&mut out, query)?;
    Ok(out)
}

/// Octets between quotes.
fn quoted_to(out: &mut Text, text: &Text) -> Result<(), Memory>
    ensures { OnOk result (out.new ≡ out.old ++ quoted text.now) }
{
    out.push(b'"')?;
    out.append(text.as_slice())?;
    out.push(b'"')
}

/// An index or a sort key.
fn index_to(out: &mut Text, name: &Text) -> Result<(), Memory>
    ensures { OnOk result (out.new ≡ out.old ++ index_text name.now) }
{
    if is_word(name.as_slice()) {
        out.append(name.as_slice())
    } else {
        quoted_to(out, name)
    }
}

/// A modifier's symbol and term.
fn value_to(out: &mut Text, value: &Option<(Text, Text)>) -> Result<(), Memory>
    ensures { OnOk result (out.new ≡ out.old ++ value_text value.now) }
{
    match value {
        None => Ok(()),
        Some((symbol, term)) => {
            out.append(symbol.as_slice())?;
            quoted_to(out, term)
        }
    }
}

/// Modifiers.
fn modifiers_to(out: &mut Text, modifiers: &List<Modifier>) -> Result<(), Memory>
    ensures { OnOk result (out.new ≡ out.old ++ modifiers_text modifiers.now) }
{
    for modifier in modifiers.as_slice() {
        out.push(b'/')?;
        out.append(modifier.name.as_slice())?;
        value_to(out, &modifier.value)?;
    }
    Ok(())
}

/// Sort keys, each behind a space.
fn keys_to(out: &mut Text, keys: &List<SortKey>) -> Result<(), Memory>
    ensures { OnOk result (out.new ≡ out.old ++ keys_text keys.now) }
{
    for key in keys.as_slice() {
        out.push(b' ')?;
        index_to(out, &key.index)?;
        modifiers_to(out, &key.modifiers)?;
    }
    Ok(())
}

/// What a term is searched in and how.
fn head_to(out: &mut Text, head: &Option<Head>) -> Result<(), Memory>
    ensures { OnOk result (out.new ≡ out.old ++ head_text head.now) }
{
    let Some(head) = head else {
        return Ok(());
    };
    index_to(out, &head.index)?;
    out.push(b' ')?;
    out.append(head.relation.as_slice())?;
    modifiers_to(out, &head.modifiers)?;
    out.push(b' ')
}

/// The sign of a prefix assignment, and the prefix where one is named.
fn prefix_to(out: &mut Text, name: &Option<Text>) -> Result<(), Memory>
    ensures { OnOk result (out.new ≡ out.old ++ prefix_text name.now) }
{
    out.append(b"> ")?;
    let Some(name) = name else {
        return Ok(());
    };
    out.append(name.as_slice())?;
    out.append(b" = ")
}

/// Whether a query as part of a larger one stands in brackets wherever it is.
fn reaches_on(query: &Cql) -> bool
    ensures { result ≡ reaches_on query.now }
{
    matches!(query.node, Node::Prefix(..) | Node::Sorted(..))
}

/// Whether a query stands in brackets as a right operand.
fn groups(query: &Cql) -> bool
    ensures { result ≡ groups query.now }
{
    !matches!(query.node, Node::Clause(..))
}

/// A part of a query, in brackets where they are needed.
#[cycle(writer)]
fn part_to(out: &mut Text, query: &Cql, brackets: bool) -> Result<(), Memory>
    ensures { OnOk result (out.new ≡ out.old ++ bracketed brackets (written query.now)) }
{
    if !brackets {
        return query_to(out, query);
    }
    out.push(b'(')?;
    query_to(out, query)?;
    out.push(b')')
}

/// A query.
#[cycle(writer)]
fn query_to(out: &mut Text, query: &Cql) -> Result<(), Memory>
    ensures { OnOk result (out.new ≡ out.old ++ written query.now) }
{
    match &query.node {
        Node::Clause(head, term) => {
            head_to(out, head)?;
            quoted_to(out, term)
        }
        Node::Joined(boolean, modifiers, left, right) => {
            part_to(out, left, reaches_on(left))?;
            out.push(b' ')?;
            out.append(boolean.as_slice())?;
            modifiers_to(out, modifiers)?;
            out.push(b' ')?;
            part_to(out, right, groups(right))
        }
        Node::Prefix(name, uri, inner) => {
            prefix_to(out, name)?;
            quoted_to(out, uri)?;
            out.push(b' ')?;
            part_to(out, inner, reaches_on(inner))
        }
        Node::Sorted(inner, keys) => {
            part_to(out, inner, reaches_on(inner))?;
            out.append(b" sortby")?;
            keys_to(out, keys)
        }
    }
}
