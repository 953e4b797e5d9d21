//! The parts of a query that hold no query: modifiers, sort keys, clauses and prefixes (CQL 1.2, BNF).

ghost use Rattle.std.specs.Prelude.{◌<◌, ◌≤◌, IfOk, length, Some, None};
ghost use Rattle.cql_parse.specs.Lexemes.{lexemes};
ghost use Rattle.cql_parse.specs.Grammar.{IsName, MayHaveValue, IsModifier, AreModifiers, IsKey, AreKeys, AreDueKeys, IsClause, IsPrefix};
ghost use Rattle.cql_parse.specs.ParserAnswers.{Finds, IsComparisonOf, IsNamedPrefixOf};

use crate::fault::Stop;
use crate::lexeme::{equal, greater, relation, slash, symbol, term, word};
use crate::{Head, Modifier, SortKey};
use cql_lex::Token;
use std::alloc::Global;
use z_types::{List, Text};

/// A slash and a bare word.
fn name<'a>(alloc: Global, text: &'a [u8], tokens: &'a [Token]) -> Result<(Text, &'a [Token]), Stop>
    ensures found { Finds text.now (IsName (lexemes text.now tokens.now)) result }
    ensures shorter { IfOk result (λ r. length r.1.now < length tokens.now) }
{
    let Some(slash) = slash(text, tokens) else {
        return Err(Stop::NoQuery);
    };
    let Some(word) = word(text, slash.rest) else {
        return Err(Stop::NoQuery);
    };
    Ok((Text::copy_of(alloc, word.text)?, word.rest))
}

/// A symbol and a term, where a symbol comes.
fn value<'a>(
    alloc: Global,
    text: &'a [u8],
    tokens: &'a [Token],
) -> Result<(Option<(Text, Text)>, &'a [Token]), Stop>
    ensures found { Finds text.now (MayHaveValue (lexemes text.now tokens.now)) result }
    ensures shorter { IfOk result (λ r. length r.1.now ≤ length tokens.now) }
{
    let Some(symbol) = symbol(text, tokens) else {
        return Ok((None, tokens));
    };
    let Some(term) = term(text, symbol.rest) else {
        return Err(Stop::NoQuery);
    };
    let symbol = Text::copy_of(alloc, symbol.text)?;
    Ok((Some((symbol, Text::copy_of(alloc, term.text)?)), term.rest))
}

/// One modifier.
fn modifier<'a>(
    alloc: Global,
    text: &'a [u8],
    tokens: &'a [Token],
) -> Result<(Modifier, &'a [Token]), Stop>
    ensures found { Finds text.now (IsModifier (lexemes text.now tokens.now)) result }
    ensures shorter { IfOk result (λ r. length r.1.now < length tokens.now) }
{
    let (name, rest) = name(alloc, text, tokens)?;
    let (value, rest) = value(alloc, text, rest)?;
    Ok((Modifier { name, value }, rest))
}

/// Modifiers, as long as a slash comes.
pub fn modifiers<'a>(
    alloc: Global,
    text: &'a [u8],
    tokens: &'a [Token],
) -> Result<(List<Modifier>, &'a [Token]), Stop>
    ensures found { Finds text.now (AreModifiers (lexemes text.now tokens.now)) result }
    ensures shorter { IfOk result (λ r. length r.1.now ≤ length tokens.now) }
{
    let mut found = List::new(alloc);
    let mut rest = tokens;
    'items: while slash(text, rest).is_some() {
        let (item, behind) = modifier(alloc, text, rest)?;
        rest = behind;
        found.push(item)?;
    }
    Ok((found, rest))
}

/// One sort key.
fn key<'a>(
    alloc: Global,
    text: &'a [u8],
    tokens: &'a [Token],
) -> Result<(SortKey, &'a [Token]), Stop>
    ensures found { Finds text.now (IsKey (lexemes text.now tokens.now)) result }
    ensures shorter { IfOk result (λ r. length r.1.now < length tokens.now) }
{
    let Some(term) = term(text, tokens) else {
        return Err(Stop::NoQuery);
    };
    let index = Text::copy_of(alloc, term.text)?;
    let (modifiers, rest) = modifiers(alloc, text, term.rest)?;
    Ok((SortKey { index, modifiers }, rest))
}

/// Sort keys, as long as a term comes.
fn due_keys<'a>(
    alloc: Global,
    text: &'a [u8],
    tokens: &'a [Token],
) -> Result<(List<SortKey>, &'a [Token]), Stop>
    ensures found { Finds text.now (AreDueKeys (lexemes text.now tokens.now)) result }
    ensures shorter { IfOk result (λ r. length r.1.now ≤ length tokens.now) }
{
    let mut found = List::new(alloc);
    let mut rest = tokens;
    'items: while term(text, rest).is_some() {
        let (item, behind) = key(alloc, text, rest)?;
        rest = behind;
        found.push(item)?;
    }
    Ok((found, rest))
}

/// Sort keys, as long as a term comes; at least one.
pub fn keys<'a>(
    alloc: Global,
    text: &'a [u8],
    tokens: &'a [Token],
) -> Result<(List<SortKey>, &'a [Token]), Stop>
    ensures found { Finds text.now (AreKeys (lexemes text.now tokens.now)) result }
    ensures shorter { IfOk result (λ r. length r.1.now ≤ length tokens.now) }
{
    if term(text, tokens).is_some() {
        due_keys(alloc, text, tokens)
    } else {
        Err(Stop::NoQuery)
    }
}

/// A term that is compared.
fn comparison<'a>(
    alloc: Global,
    text: &'a [u8],
    tokens: &'a [Token],
) -> Result<((Head, Text), &'a [Token]), Stop>
    ensures found { Finds text.now (IsComparisonOf (lexemes text.now tokens.now)) result }
    ensures shorter { IfOk result (λ r. length r.1.now < length tokens.now) }
{
    let Some(index) = term(text, tokens) else {
        return Err(Stop::NoQuery);
    };
    let Some(relation) = relation(text, index.rest) else {
        return Err(Stop::NoQuery);
    };
    let (modifiers, rest) = modifiers(alloc, text, relation.rest)?;
    let Some(last) = term(text, rest) else {
        return Err(Stop::NoQuery);
    };
    let index = Text::copy_of(alloc, index.text)?;
    let relation = Text::copy_of(alloc, relation.text)?;
    let term = Text::copy_of(alloc, last.text)?;
    let head = Head {
        index,
        relation,
        modifiers,
    };
    Ok(((head, term), last.rest))
}

/// A term, compared where a relation follows it.
pub fn clause<'a>(
    alloc: Global,
    text: &'a [u8],
    tokens: &'a [Token],
) -> Result<((Option<Head>, Text), &'a [Token]), Stop>
    ensures found { Finds text.now (λ c. IsClause (lexemes text.now tokens.now) c.0 c.1) result }
    ensures shorter { IfOk result (λ r. length r.1.now < length tokens.now) }
{
    let Some(first) = term(text, tokens) else {
        return Err(Stop::NoQuery);
    };
    if relation(text, first.rest).is_some() {
        let ((head, term), rest) = comparison(alloc, text, tokens)?;
        return Ok(((Some(head), term), rest));
    }
    Ok(((None, Text::copy_of(alloc, first.text)?), first.rest))
}

/// The sign, the name and the uri of a prefix assignment that names a prefix.
fn named_prefix<'a>(
    alloc: Global,
    text: &'a [u8],
    tokens: &'a [Token],
) -> Result<((Text, Text), &'a [Token]), Stop>
    ensures found { Finds text.now (IsNamedPrefixOf (lexemes text.now tokens.now)) result }
    ensures shorter { IfOk result (λ r. length r.1.now < length tokens.now) }
{
    let Some(sign) = greater(text, tokens) else {
        return Err(Stop::NoQuery);
    };
    let Some(word) = word(text, sign.rest) else {
        return Err(Stop::NoQuery);
    };
    let Some(equal) = equal(text, word.rest) else {
        return Err(Stop::NoQuery);
    };
    let Some(last) = term(text, equal.rest) else {
        return Err(Stop::NoQuery);
    };
    let name = Text::copy_of(alloc, word.text)?;
    Ok(((name, Text::copy_of(alloc, last.text)?), last.rest))
}

/// What stands before the query of a prefix assignment: a word that `=` follows is the prefix.
pub fn prefix<'a>(
    alloc: Global,
    text: &'a [u8],
    tokens: &'a [Token],
) -> Result<((Option<Text>, Text), &'a [Token]), Stop>
    ensures found { Finds text.now (λ p. IsPrefix (lexemes text.now tokens.now) p.0 p.1) result }
    ensures shorter { IfOk result (λ r. length r.1.now < length tokens.now) }
{
    let Some(sign) = greater(text, tokens) else {
        return Err(Stop::NoQuery);
    };
    let Some(first) = term(text, sign.rest) else {
        return Err(Stop::NoQuery);
    };
    if equal(text, first.rest).is_some() {
        let ((name, uri), rest) = named_prefix(alloc, text, tokens)?;
        return Ok(((Some(name), uri), rest));
    }
    Ok(((None, Text::copy_of(alloc, first.text)?), first.rest))
}
