//! A token as the grammar sees it: its class and its text.

ghost use Rattle.std.specs.Prelude.{◌≡◌, ◌-◌, ◌<◌, true, IfSome, length};
ghost use Rattle.std.specs.Str.{bytes_eq};
ghost use Rattle.cql_parse.specs.Classes.{lower, word_class, class_of, is_word, is_term, is_symbol, is_relation, is_slash, is_equal, is_greater};
ghost use Rattle.cql_parse.specs.Lexemes.{between, text_of};
ghost use Rattle.cql_parse.specs.ParserAnswers.{IsFront};

use cql_lex::{Kind, Token};

/// What a token may stand for (CQL 1.2, BNF).
#[derive(Clone, Copy, Debug, PartialEq, Eq)]
pub enum Class {
    /// `(`
    Open,
    /// `)`
    Close,
    /// `/`
    Slash,
    /// `=`
    Equal,
    /// `>`
    Greater,
    /// Any other symbol of comparison.
    Symbol,
    /// A quoted string.
    Quoted,
    /// `and`, `or`, `not` or `prox`, in any case of letters.
    Boolean,
    /// `sortby`, in any case of letters.
    SortBy,
    /// Any other bare word.
    Word,
}

impl Class {
    /// Whether it is a bare word.
    pub fn is_word(self) -> bool
        ensures { result ≡ is_word self }
    {
        matches!(self, Class::Word | Class::Boolean | Class::SortBy)
    }

    /// Whether it is a term: a bare word or a quoted string.
    pub fn is_term(self) -> bool
        ensures { result ≡ is_term self }
    {
        matches!(
            self,
            Class::Quoted | Class::Word | Class::Boolean | Class::SortBy
        )
    }

    /// Whether it is a symbol of comparison.
    pub fn is_symbol(self) -> bool
        ensures { result ≡ is_symbol self }
    {
        matches!(self, Class::Equal | Class::Greater | Class::Symbol)
    }

    /// Whether it is a relation: a symbol, or a word that is no boolean and not `sortby`.
    pub fn is_relation(self) -> bool
        ensures { result ≡ is_relation self }
    {
        matches!(
            self,
            Class::Equal | Class::Greater | Class::Symbol | Class::Word
        )
    }

    /// Whether it is a slash.
    pub fn is_slash(self) -> bool
        ensures { result ≡ is_slash self }
    {
        matches!(self, Class::Slash)
    }

    /// Whether it is the sign of a prefix assignment.
    pub fn is_greater(self) -> bool
        ensures { result ≡ is_greater self }
    {
        matches!(self, Class::Greater)
    }

    /// Whether it is an equals sign.
    pub fn is_equal(self) -> bool
        ensures { result ≡ is_equal self }
    {
        matches!(self, Class::Equal)
    }
}

/// The first token, and the tokens behind it.
#[derive(Clone, Copy)]
pub struct Front<'a> {
    /// What it may stand for.
    pub class: Class,
    /// Its octets, without the quotes of a string.
    pub text: &'a [u8],
    /// The tokens behind it.
    pub rest: &'a [Token],
}

/// Whether a word is this word of small letters, in any case of its own.
#[tactic(auto, using(crate::proofs::Words::word_steps))]
fn is_the_word(word: &[u8], small: &[u8]) -> bool
    ensures { result ≡ bytes_eq (lower word.now) small.now }
{
    if word.len() != small.len() {
        return false;
    }
    for (index, octet) in word.iter().enumerate() {
        if octet.to_ascii_lowercase() != small[index] {
            return false;
        }
    }
    true
}

/// The class of a bare word.
fn word_class(word: &[u8]) -> Class
    ensures { result ≡ word_class word.now }
{
    if is_the_word(word, b"and") || is_the_word(word, b"or") {
        return Class::Boolean;
    }
    if is_the_word(word, b"not") || is_the_word(word, b"prox") {
        return Class::Boolean;
    }
    if is_the_word(word, b"sortby") {
        Class::SortBy
    } else {
        Class::Word
    }
}

/// The class of a token.
fn class_of(kind: Kind, text: &[u8]) -> Class
    ensures { result ≡ class_of kind text.now }
{
    match kind {
        Kind::Open => Class::Open,
        Kind::Close => Class::Close,
        Kind::Slash => Class::Slash,
        Kind::Equal => Class::Equal,
        Kind::Exact => Class::Symbol,
        Kind::Less => Class::Symbol,
        Kind::Greater => Class::Greater,
        Kind::LessOrEqual => Class::Symbol,
        Kind::GreaterOrEqual => Class::Symbol,
        Kind::LessOrGreater => Class::Symbol,
        Kind::Quoted => Class::Quoted,
        Kind::Word => word_class(text),
    }
}

/// The octets from one offset up to another, as far as the text has them.
fn between(text: &[u8], start: usize, end: usize) -> &[u8]
    ensures { result.now ≡ between text.now start end }
{
    let end = end.min(text.len());
    let start = start.min(end);
    &text[start..end]
}

/// A token's octets, without the quotes of a string.
fn text_of(text: &[u8], kind: Kind, start: usize, end: usize) -> &[u8]
    ensures { result.now ≡ text_of text.now kind start end }
{
    match kind {
        Kind::Quoted => between(text, start.saturating_add(1), end.saturating_sub(1)),
        _ => between(text, start, end),
    }
}

/// The first token.
pub fn first<'a>(text: &'a [u8], tokens: &'a [Token]) -> Option<Front<'a>>
    ensures front { IsFront (λ _. true) text.now tokens.now result }
    ensures shorter { IfSome result (λ f. length f.rest.now < length tokens.now) }
{
    let [token, rest @ ..] = tokens else {
        return None;
    };
    let octets = text_of(text, token.kind, token.start, token.end);
    Some(Front {
        class: class_of(token.kind, octets),
        text: octets,
        rest,
    })
}

/// The first token, where it is a term.
pub fn term<'a>(text: &'a [u8], tokens: &'a [Token]) -> Option<Front<'a>>
    ensures front { IsFront is_term text.now tokens.now result }
    ensures shorter { IfSome result (λ f. length f.rest.now < length tokens.now) }
{
    let front = first(text, tokens)?;
    front.class.is_term().then_some(front)
}

/// The first token, where it is a bare word.
pub fn word<'a>(text: &'a [u8], tokens: &'a [Token]) -> Option<Front<'a>>
    ensures front { IsFront is_word text.now tokens.now result }
    ensures shorter { IfSome result (λ f. length f.rest.now < length tokens.now) }
{
    let front = first(text, tokens)?;
    front.class.is_word().then_some(front)
}

/// The first token, where it is a symbol of comparison.
pub fn symbol<'a>(text: &'a [u8], tokens: &'a [Token]) -> Option<Front<'a>>
    ensures front { IsFront is_symbol text.now tokens.now result }
    ensures shorter { IfSome result (λ f. length f.rest.now < length tokens.now) }
{
    let front = first(text, tokens)?;
    front.class.is_symbol().then_some(front)
}

/// The first token, where it is a relation.
pub fn relation<'a>(text: &'a [u8], tokens: &'a [Token]) -> Option<Front<'a>>
    ensures front { IsFront is_relation text.now tokens.now result }
    ensures shorter { IfSome result (λ f. length f.rest.now < length tokens.now) }
{
    let front = first(text, tokens)?;
    front.class.is_relation().then_some(front)
}

/// The first token, where it is a slash.
pub fn slash<'a>(text: &'a [u8], tokens: &'a [Token]) -> Option<Front<'a>>
    ensures front { IsFront is_slash text.now tokens.now result }
    ensures shorter { IfSome result (λ f. length f.rest.now < length tokens.now) }
{
    let front = first(text, tokens)?;
    front.class.is_slash().then_some(front)
}

/// The first token, where it is an equals sign.
pub fn equal<'a>(text: &'a [u8], tokens: &'a [Token]) -> Option<Front<'a>>
    ensures front { IsFront is_equal text.now tokens.now result }
    ensures shorter { IfSome result (λ f. length f.rest.now < length tokens.now) }
{
    let front = first(text, tokens)?;
    front.class.is_equal().then_some(front)
}

/// The first token, where it is the sign of a prefix assignment.
pub fn greater<'a>(text: &'a [u8], tokens: &'a [Token]) -> Option<Front<'a>>
    ensures front { IsFront is_greater text.now tokens.now result }
    ensures shorter { IfSome result (λ f. length f.rest.now < length tokens.now) }
{
    let front = first(text, tokens)?;
    front.class.is_greater().then_some(front)
}
