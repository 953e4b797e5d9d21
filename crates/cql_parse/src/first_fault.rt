//! Where tokens stop being the beginning of a query. The grammar is LL(1) with a counter of open
//! brackets, so one token and what came before it, as one of these phases, decide.

ghost use Rattle.std.specs.Prelude.{◌≡◌, ◌+◌, ◌^◌, ◌<◌, ◌≤◌, IfSome, Some, None, if◌then◌else◌};
ghost use Rattle.cql_parse.specs.ParserPhases.{spot, closed, step_of, after_step, clause_step, modified_step, ends_so, fault_at};
ghost use Rattle.cql_parse.specs.Lexemes.{lexemes};
ghost use Rattle.cql_parse.specs.Classes.{is_term};

use crate::lexeme::{Class, first};
use cql_lex::Token;

/// What modifiers belong to.
#[derive(Clone, Copy, PartialEq, Eq, Debug)]
pub enum Owner {
    /// A relation.
    Relation,
    /// A boolean.
    Boolean,
    /// A sort key.
    Key,
}

/// What the last tokens were, as far as it matters for the next.
#[derive(Clone, Copy, PartialEq, Eq, Debug)]
pub enum Phase {
    /// A clause is due.
    Clause,
    /// A term, which may be an index.
    Term,
    /// A whole clause.
    After,
    /// `sortby`.
    SortBy,
    /// The sign of a prefix assignment.
    Sign,
    /// The word behind that sign.
    PrefixWord,
    /// The equals sign behind that word.
    Uri,
    /// A relation, a boolean or a sort key, perhaps with modifiers.
    Modified(Owner),
    /// A slash.
    Slash(Owner),
    /// A modifier's name.
    Named(Owner),
    /// A modifier's symbol.
    Value(Owner),
}

/// A phase, and how many brackets are open.
#[derive(Clone, Copy, PartialEq, Eq, Debug)]
pub struct Spot {
    /// What the last tokens were.
    pub phase: Phase,
    /// How many brackets are open.
    pub open: usize,
}

/// A phase with `open` open brackets.
fn at_phase(phase: Phase, open: usize) -> Option<Spot>
    ensures { result ≡ Some (spot phase «open») }
{
    Some(Spot { phase, open })
}

/// A closing bracket, where one is open.
fn close_bracket(open: usize) -> Option<Spot>
    ensures next { result ≡ closed «open» }
    ensures bound { IfSome result (λ next. next.«open» ≤ «open» + 1) }
{
    if open == 0 {
        return None;
    }
    at_phase(Phase::After, open - 1)
}

/// What may come where a clause is due.
fn clause_step(open: usize, class: Class) -> Option<Spot>
    requires { «open» + 1 < 2 ^ 64 }
    ensures next { result ≡ clause_step «open» class }
    ensures bound { IfSome result (λ next. next.«open» ≤ «open» + 1) }
{
    match class {
        Class::Quoted | Class::Word | Class::Boolean | Class::SortBy => at_phase(Phase::Term, open),
        Class::Open => at_phase(Phase::Clause, open + 1),
        Class::Greater => at_phase(Phase::Sign, open),
        _ => None,
    }
}

/// What may come behind a clause.
fn after_step(open: usize, class: Class) -> Option<Spot>
    ensures next { result ≡ after_step «open» class }
    ensures bound { IfSome result (λ next. next.«open» ≤ «open» + 1) }
{
    match class {
        Class::Boolean => at_phase(Phase::Modified(Owner::Boolean), open),
        Class::SortBy => at_phase(Phase::SortBy, open),
        Class::Close => close_bracket(open),
        _ => None,
    }
}

/// What may come behind what may have modifiers.
fn modified_step(owner: Owner, open: usize, class: Class) -> Option<Spot>
    requires { «open» + 1 < 2 ^ 64 }
    ensures next { result ≡ modified_step owner «open» class }
    ensures bound { IfSome result (λ next. next.«open» ≤ «open» + 1) }
{
    if class.is_slash() {
        return at_phase(Phase::Slash(owner), open);
    }
    match owner {
        Owner::Relation => on_term(Phase::After, open, class),
        Owner::Boolean => clause_step(open, class),
        Owner::Key if class.is_term() => at_phase(Phase::Modified(Owner::Key), open),
        Owner::Key => {
            if matches!(class, Class::Close) {
                close_bracket(open)
            } else {
                None
            }
        }
    }
}

/// The next phase, where a term comes.
fn on_term(phase: Phase, open: usize, class: Class) -> Option<Spot>
    ensures next { result ≡ (if is_term class then Some (spot phase «open») else None) }
    ensures bound { IfSome result (λ next. next.«open» ≤ «open» + 1) }
{
    if class.is_term() {
        at_phase(phase, open)
    } else {
        None
    }
}

/// One token.
fn step_of(phase: Phase, open: usize, class: Class) -> Option<Spot>
    requires { «open» + 1 < 2 ^ 64 }
    ensures next { result ≡ step_of phase «open» class }
    ensures bound { IfSome result (λ next. next.«open» ≤ «open» + 1) }
{
    match phase {
        Phase::Clause => clause_step(open, class),
        Phase::Term if class.is_relation() => at_phase(Phase::Modified(Owner::Relation), open),
        Phase::Term => after_step(open, class),
        Phase::After => after_step(open, class),
        Phase::SortBy => on_term(Phase::Modified(Owner::Key), open, class),
        Phase::Sign if class.is_word() => at_phase(Phase::PrefixWord, open),
        Phase::Sign => on_term(Phase::Clause, open, class),
        Phase::PrefixWord if class.is_equal() => at_phase(Phase::Uri, open),
        Phase::PrefixWord => clause_step(open, class),
        Phase::Uri => on_term(Phase::Clause, open, class),
        Phase::Modified(owner) => modified_step(owner, open, class),
        Phase::Slash(owner) if class.is_word() => at_phase(Phase::Named(owner), open),
        Phase::Slash(_) => None,
        Phase::Named(owner) if class.is_symbol() => at_phase(Phase::Value(owner), open),
        Phase::Named(owner) => modified_step(owner, open, class),
        Phase::Value(owner) => on_term(Phase::Modified(owner), open, class),
    }
}

/// Whether a query may end in this phase.
fn ends_so(phase: Phase, open: usize) -> bool
    ensures { result ≡ ends_so phase «open» }
{
    let is_final = matches!(
        phase,
        Phase::Term | Phase::After | Phase::Modified(Owner::Key) | Phase::Named(Owner::Key)
    );
    is_final && open == 0
}

/// How many tokens come before the first with which no query goes on; their number where a query goes
/// on with all of them but does not end; `None` where they are a query.
pub fn fault_at(text: &[u8], tokens: &[Token]) -> Option<usize>
    ensures { result ≡ fault_at Phase.Clause 0 (lexemes text.now tokens.now) }
{
    let mut phase = Phase::Clause;
    let mut open = 0;
    let mut rest = tokens;
    'tokens: while let Some(front) = first(text, rest) {
        let Some(next) = step_of(phase, open, front.class) else {
            return Some(tokens.len() - rest.len());
        };
        phase = next.phase;
        open = next.open;
        rest = front.rest;
    }
    if ends_so(phase, open) {
        None
    } else {
        Some(tokens.len())
    }
}
