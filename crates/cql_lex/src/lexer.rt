//! The tokens of a text, in one pass.

ghost use Rattle.std.specs.Prelude.{All, AllPairs, ◌≡◌, ◌<◌, length, IfOk, IfErr};
ghost use Rattle.std.specs.Str.{IsUtf8};
ghost use Rattle.cql_lex.specs.Tokens.{AreTokens, next_start, unclosed_place};
ghost use Rattle.cql_lex.specs.Spans.{IsSpan, EndsBefore};
ghost use Rattle.cql_lex.specs.Refusals.{IsRefusal};

use crate::next_token::{next_start, token_at};
use crate::{LexFault, Token};
use std::alloc::Global;
use std::str;
use z_types::List;

/// The tokens of a text, in order, each with its place. A text that is not UTF-8 is refused first,
/// then a string or a backslash without its end. Takes time linear in the text.
pub fn tokens(alloc: Global, text: &[u8]) -> Result<List<Token>, LexFault>
    ensures utf8 { IfOk result (λ ts. IsUtf8 text.now) }
    ensures tokens { IfOk result (AreTokens text.now) }
    ensures spans { IfOk result (All (IsSpan (length text.now))) }
    ensures order { IfOk result (AllPairs EndsBefore) }
    ensures refused { IfErr result (IsRefusal text.now) }
{
    match str::from_utf8(text) {
        Ok(_) => split(alloc, text),
        Err(error) => Err(LexFault::NotUtf8(error.valid_up_to())),
    }
}

/// The tokens of a text, or where it is open.
fn split(alloc: Global, text: &[u8]) -> Result<List<Token>, LexFault>
    requires { IsUtf8 text.now }
    ensures tokens { IfOk result (AreTokens text.now) }
    ensures spans { IfOk result (All (IsSpan (length text.now))) }
    ensures order { IfOk result (AllPairs EndsBefore) }
    ensures refused { IfErr result (IsRefusal text.now) }
{
    let mut found = List::new(alloc);
    let mut at = 0;
    loop {
        let start = next_start(text, at);
        if start == text.len() {
            return Ok(found);
        }
        let Some(token) = token_at(text, start) else {
            return Err(LexFault::OpenQuote(unclosed_place(text, start)));
        };
        at = token.end;
        found.push(token)?;
    }
}

/// The place of a fault: the first quote of a string, or the text's last octet, a backslash.
fn unclosed_place(text: &[u8], start: usize) -> usize
    requires { start < length text.now }
    ensures { result ≡ unclosed_place text.now start }
{
    if text[start] == b'"' {
        start
    } else {
        text.len() - 1
    }
}
