//! The token that comes next in a text: a symbol, a string or a bare word (CQL 1.2, BNF).

ghost use Rattle.std.specs.Prelude.{◌≡◌, ◌+◌, ◌^◌, ◌<◌, ◌≤◌, IfSome, length, slice_index, false};
ghost use Rattle.cql_lex.specs.Characters.{is_space, ends_word};
ghost use Rattle.cql_lex.specs.Tokens.{token, token_at, quoted_at, word_at, equal_at, less_at, greater_at, next_start};

use crate::characters::{is_space, quoted_length, word_length};
use crate::{Kind, Token};

/// The offset of the first octet from `at` on that is no white space, or the text's length.
#[tactic(auto, using(crate::proofs::LengthLemmas::space_steps), unfolding(crate::specs::Tokens::next_start))]
pub fn next_start(text: &[u8], at: usize) -> usize
    requires { at ≤ length text.now }
    ensures start { result ≡ next_start text.now at }
    ensures behind { at ≤ result }
    ensures within { result ≤ length text.now }
    ensures no_space { result < length text.now → is_space (slice_index text.now result) ≡ false }
{
    let mut start = at;
    while start < text.len() && is_space(text[start]) {
        start += 1;
    }
    start
}

/// The octet behind this offset; 0 at the end, which begins and continues no symbol.
fn octet_after(text: &[u8], at: usize) -> u8
    requires { at < length text.now }
    ensures { result ≡ slice_index text.now (at + 1) }
{
    if at + 1 < text.len() { text[at + 1] } else { 0 }
}

/// The token of this kind at this place, of `len` octets.
fn token(kind: Kind, start: usize, len: usize) -> Token
    requires { start + len < 2 ^ 64 }
    ensures { result ≡ token kind start len }
{
    Token {
        kind,
        start,
        end: start + len,
    }
}

/// The longest symbol that begins with `=`.
fn equal_at(next: u8, at: usize) -> Token
    requires { at + 2 < 2 ^ 64 }
    ensures { result ≡ equal_at next at }
{
    match next {
        b'=' => token(Kind::Exact, at, 2),
        _ => token(Kind::Equal, at, 1),
    }
}

/// The longest symbol that begins with `<`.
fn less_at(next: u8, at: usize) -> Token
    requires { at + 2 < 2 ^ 64 }
    ensures { result ≡ less_at next at }
{
    match next {
        b'=' => token(Kind::LessOrEqual, at, 2),
        b'>' => token(Kind::LessOrGreater, at, 2),
        _ => token(Kind::Less, at, 1),
    }
}

/// The longest symbol that begins with `>`.
fn greater_at(next: u8, at: usize) -> Token
    requires { at + 2 < 2 ^ 64 }
    ensures { result ≡ greater_at next at }
{
    match next {
        b'=' => token(Kind::GreaterOrEqual, at, 2),
        _ => token(Kind::Greater, at, 1),
    }
}

/// A string, with both its quotes; `None` where it has no end.
#[tactic(auto, unfolding(crate::specs::Tokens::quoted_at))]
fn quoted_at(text: &[u8], at: usize) -> Option<Token>
    requires { at < length text.now }
    ensures token { result ≡ quoted_at text.now at }
    ensures within { IfSome result (λ t. (at < t.end) × (t.end ≤ length text.now)) }
{
    let len = quoted_length(&text[at + 1..])?;
    Some(token(Kind::Quoted, at, len + 1))
}

/// A bare word; `None` where a backslash ends the text.
#[tactic(auto, using(crate::proofs::LengthLemmas::word_length_some), unfolding(crate::specs::Tokens::word_at))]
fn word_at(text: &[u8], at: usize) -> Option<Token>
    requires { at < length text.now }
    ensures token { result ≡ word_at text.now at }
    ensures within { IfSome result (λ t. t.end ≤ length text.now) }
    ensures some { ends_word (slice_index text.now at) ≡ false → IfSome result (λ t. at < t.end) }
{
    let len = word_length(&text[at..])?;
    Some(token(Kind::Word, at, len))
}

/// The token whose first octet is at this offset; `None` where a string or a backslash has no end.
#[tactic(auto, unfolding(crate::specs::Tokens::token_at))]
pub fn token_at(text: &[u8], at: usize) -> Option<Token>
    requires within { at < length text.now }
    requires no_space { is_space (slice_index text.now at) ≡ false }
    ensures token { result ≡ token_at text.now at }
    ensures end { IfSome result (λ t. (at < t.end) × (t.end ≤ length text.now)) }
{
    let next = octet_after(text, at);
    match text[at] {
        b'(' => Some(token(Kind::Open, at, 1)),
        b')' => Some(token(Kind::Close, at, 1)),
        b'/' => Some(token(Kind::Slash, at, 1)),
        b'=' => Some(equal_at(next, at)),
        b'<' => Some(less_at(next, at)),
        b'>' => Some(greater_at(next, at)),
        b'"' => quoted_at(text, at),
        _ => word_at(text, at),
    }
}
