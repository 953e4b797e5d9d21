//! The tree of tokens, in one pass over them, with a stack of what the query is within.

ghost use Rattle.std.specs.Prelude.{◌≡◌, ◌+◌, ◌<◌, ◌≤◌, length, true, false, IfOk};
ghost use Rattle.cql_parse.specs.Classes.{is_open, is_boolean, is_sortby, is_close, is_greater, lower};
ghost use Rattle.cql_parse.specs.Lexemes.{lexemes, starts};
ghost use Rattle.cql_parse.specs.Grammar.{after};
ghost use Rattle.cql_parse.specs.ParserState.{due_of, Unwinds, Finishes, Builds, Shallow, closed_in};
ghost use Rattle.cql_parse.specs.ParserSteps.{operand_of, GoesOnFront, GoesOnTokens};
ghost use Rattle.cql_parse.specs.ParserSteps.{NestsOnFront, NestsOnTokens, KeepsNestingFront, KeepsNestingTokens};

use crate::clauses::{clause, keys, modifiers, prefix};
use crate::fault::Stop;
use crate::frame::{Ended, Frame, LeftOperand, State};
use crate::grow;
use crate::grown::Grown;
use crate::lexeme::{Class, Front, first};
use crate::stack::Stack;
use cql_lex::Token;
use std::alloc::Global;
use z_types::{Memory, Text};

/// A text in lower case.
fn lower(alloc: Global, text: &[u8]) -> Result<Text, Memory>
    ensures { IfOk result (λ t. t ≡ lower text.now) }
{
    let bytes = text
        .iter()
        .map(|octet| octet.to_ascii_lowercase())
        .collect(alloc)?;
    Ok(Text::from_vec(bytes))
}

/// Opens brackets where a clause is due.
fn open_bracket<'a>(
    text: &'a [u8],
    left: Option<LeftOperand>,
    stack: &mut Stack,
    front: Front<'a>,
) -> Result<(State, &'a [Token]), Stop>
    requires { is_open front.class ≡ true }
    ensures goes { GoesOnFront text.now (operand_of left) stack.old front.entry stack.new result }
    ensures nested { NestsOnFront text.now stack.old front.entry stack.new result }
    ensures shorter { IfOk result (λ next. length next.1.now ≤ length front.entry.rest.now) }
{
    stack.push_bracket(left)?;
    Ok((State::Operand(None), front.rest))
}

/// Reads what stands before the query of a prefix assignment, where a clause is due.
fn assign_prefix<'a>(
    alloc: Global,
    text: &'a [u8],
    left: Option<LeftOperand>,
    stack: &mut Stack,
    tokens: &'a [Token],
) -> Result<(State, &'a [Token]), Stop>
    requires { starts is_greater (lexemes text.now tokens.now) ≡ true }
    ensures goes { GoesOnTokens text.now (operand_of left) stack.old tokens.now stack.new result }
    ensures nested { NestsOnTokens text.now stack.old tokens.now stack.new result }
    ensures shorter { IfOk result (λ next. length next.1.now < length tokens.now) }
{
    let ((name, uri), rest) = prefix(alloc, text, tokens)?;
    stack.push_prefix(left, name, uri)?;
    Ok((State::Operand(None), rest))
}

/// Reads a clause.
fn read_clause<'a>(
    alloc: Global,
    text: &'a [u8],
    left: Option<LeftOperand>,
    stack: &Stack,
    tokens: &'a [Token],
) -> Result<(State, &'a [Token]), Stop>
    requires open { starts is_open (lexemes text.now tokens.now) ≡ false }
    requires sign { starts is_greater (lexemes text.now tokens.now) ≡ false }
    ensures goes { GoesOnTokens text.now (operand_of left) stack.now tokens.now stack.now result }
    ensures nested { KeepsNestingTokens text.now stack.now tokens.now result }
    ensures shorter { IfOk result (λ next. length next.1.now < length tokens.now) }
{
    let ((head, term), rest) = clause(alloc, text, tokens)?;
    let query = grow::join(alloc, left, grow::clause(head, term))?;
    Ok((State::After(query), rest))
}

/// Reads a boolean and its modifiers.
fn read_boolean<'a>(
    alloc: Global,
    text: &'a [u8],
    query: Grown,
    stack: &Stack,
    front: Front<'a>,
) -> Result<(State, &'a [Token]), Stop>
    requires { is_boolean front.class ≡ true }
    ensures goes { GoesOnFront text.now (after query.tree) stack.now front.entry stack.now result }
    ensures nested { KeepsNestingFront text.now stack.now front.entry result }
    ensures shorter { IfOk result (λ next. length next.1.now ≤ length front.entry.rest.now) }
{
    let (modifiers, rest) = modifiers(alloc, text, front.rest)?;
    let boolean = lower(alloc, front.text)?;
    let left = LeftOperand {
        query,
        boolean,
        modifiers,
    };
    Ok((State::Operand(Some(left)), rest))
}

/// Reads sort keys.
fn read_sort<'a>(
    alloc: Global,
    text: &'a [u8],
    query: Grown,
    stack: &Stack,
    front: Front<'a>,
) -> Result<(State, &'a [Token]), Stop>
    requires { is_sortby front.class ≡ true }
    ensures goes { GoesOnFront text.now (after query.tree) stack.now front.entry stack.now result }
    ensures nested { KeepsNestingFront text.now stack.now front.entry result }
    ensures shorter { IfOk result (λ next. length next.1.now ≤ length front.entry.rest.now) }
{
    let (keys, rest) = keys(alloc, text, front.rest)?;
    let query = grow::sort(alloc, query, keys)?;
    Ok((State::After(query), rest))
}

/// Puts the prefix assignments that end with a query around it, up to the brackets that it is in.
fn unwind(alloc: Global, stack: &mut Stack, query: Grown) -> Result<Ended, Stop>
    ensures unwinds { Unwinds query.tree stack.old.frames stack.new.frames result }
    ensures brackets { IfOk result (λ e. stack.old.brackets ≡ stack.new.brackets + closed_in e) }
{
    let mut query = query;
    'frames: while let Some(frame) = stack.pop() {
        match frame {
            Frame::Bracket(left) => return Ok(Ended::Inner(left, query)),
            Frame::Prefix(left, name, uri) => {
                let inner = grow::assign(alloc, name, uri, query)?;
                query = grow::join(alloc, left, inner)?;
            }
        }
    }
    Ok(Ended::Whole(query))
}

/// Ends a query at a closing bracket.
fn close_bracket<'a>(
    alloc: Global,
    text: &'a [u8],
    query: Grown,
    stack: &mut Stack,
    front: Front<'a>,
) -> Result<(State, &'a [Token]), Stop>
    requires { is_close front.class ≡ true }
    ensures goes { GoesOnFront text.now (after query.tree) stack.old front.entry stack.new result }
    ensures nested { NestsOnFront text.now stack.old front.entry stack.new result }
    ensures shorter { IfOk result (λ next. length next.1.now ≤ length front.entry.rest.now) }
{
    stack.are_few();
    match unwind(alloc, stack, query)? {
        Ended::Inner(left, query) => {
            let query = grow::join(alloc, left, query)?;
            Ok((State::After(query), front.rest))
        }
        Ended::Whole(_) => Err(Stop::NoQuery),
    }
}

/// Reads one part where a clause is due.
fn operand<'a>(
    alloc: Global,
    text: &'a [u8],
    left: Option<LeftOperand>,
    stack: &mut Stack,
    tokens: &'a [Token],
) -> Result<(State, &'a [Token]), Stop>
    ensures goes { GoesOnTokens text.now (operand_of left) stack.old tokens.now stack.new result }
    ensures nested { NestsOnTokens text.now stack.old tokens.now stack.new result }
    ensures shorter { IfOk result (λ next. length next.1.now < length tokens.now) }
{
    let Some(front) = first(text, tokens) else {
        return Err(Stop::NoQuery);
    };
    match front.class {
        Class::Open => open_bracket(text, left, stack, front),
        Class::Greater => assign_prefix(alloc, text, left, stack, tokens),
        _ => read_clause(alloc, text, left, stack, tokens),
    }
}

/// Reads one part behind a clause.
fn behind<'a>(
    alloc: Global,
    text: &'a [u8],
    query: Grown,
    stack: &mut Stack,
    tokens: &'a [Token],
) -> Result<(State, &'a [Token]), Stop>
    requires { 0 < length tokens.now }
    ensures goes { GoesOnTokens text.now (after query.tree) stack.old tokens.now stack.new result }
    ensures nested { NestsOnTokens text.now stack.old tokens.now stack.new result }
    ensures shorter { IfOk result (λ next. length next.1.now < length tokens.now) }
{
    let Some(front) = first(text, tokens) else {
        return Err(Stop::NoQuery);
    };
    match front.class {
        Class::Boolean => read_boolean(alloc, text, query, stack, front),
        Class::SortBy => read_sort(alloc, text, query, stack, front),
        Class::Close => close_bracket(alloc, text, query, stack, front),
        _ => Err(Stop::NoQuery),
    }
}

/// Reads one part of a query.
fn step<'a>(
    alloc: Global,
    text: &'a [u8],
    state: State,
    stack: &mut Stack,
    tokens: &'a [Token],
) -> Result<(State, &'a [Token]), Stop>
    requires { 0 < length tokens.now }
    ensures goes { GoesOnTokens text.now (due_of state) stack.old tokens.now stack.new result }
    ensures nested { NestsOnTokens text.now stack.old tokens.now stack.new result }
    ensures shorter { IfOk result (λ next. length next.1.now < length tokens.now) }
{
    match state {
        State::Operand(left) => operand(alloc, text, left, stack, tokens),
        State::After(query) => behind(alloc, text, query, stack, tokens),
    }
}

/// Ends a query where the tokens end.
fn finish(alloc: Global, state: State, stack: &mut Stack) -> Result<Grown, Stop>
    ensures finishes { Finishes (due_of state) stack.old.frames result }
    ensures shallow { Shallow result }
{
    let State::After(query) = state else {
        return Err(Stop::NoQuery);
    };
    match unwind(alloc, stack, query)? {
        Ended::Whole(query) => Ok(query),
        Ended::Inner(_, _) => Err(Stop::NoQuery),
    }
}

/// The tree of tokens. Takes time linear in the tokens, and no recursion.
pub fn build(alloc: Global, text: &[u8], tokens: &[Token]) -> Result<Grown, Stop>
    ensures { Builds (lexemes text.now tokens.now) result }
{
    let mut stack = Stack::new(alloc);
    let mut state = State::Operand(None);
    let mut rest = tokens;
    'parts: while !rest.is_empty() {
        let (next, left) = step(alloc, text, state, &mut stack, rest)?;
        state = next;
        rest = left;
    }
    stack.are_few();
    finish(alloc, state, &mut stack)
}
