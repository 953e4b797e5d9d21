//! The tree of a query's tokens, or why they have none.

ghost use Rattle.std.specs.Prelude.{◌≡◌, ◌≤◌, IfOk, IfErr};
ghost use Rattle.cql_parse.specs.Tree.{depth};
ghost use Rattle.cql_parse.specs.Lexemes.{lexemes};
ghost use Rattle.cql_parse.specs.Grammar.{IsQuery};
ghost use Rattle.cql_parse.specs.Nesting.{HasShallowBrackets};
ghost use Rattle.cql_parse.specs.WellFormed.{IsWellFormed};
ghost use Rattle.cql_parse.specs.Again.{AreTokensOf};
ghost use Rattle.cql_parse.specs.Refusals.{place_of, IsNeverShallow, IsRefusal};
ghost use Rattle.z_types.specs.Bounds.{most_query_depth};

use crate::build::build;
use crate::fault::Stop;
use crate::first_fault::fault_at;
use crate::{Cql, ParseFault};
use cql_lex::Token;
use std::alloc::Global;
use z_types::List;

/// The tree of a text's tokens, by the grammar of CQL 1.2. It has at most 48 levels, from brackets of
/// which at most 48 are within one another. Takes time linear in the tokens, and no recursion.
pub fn parse(alloc: Global, text: &[u8], tokens: &List<Token>) -> Result<Cql, ParseFault>
    ensures tree { IfOk result (IsQuery (lexemes text.now tokens.now)) }
    ensures well_formed { IfOk result (λ q. AreTokensOf text.now tokens.now → IsWellFormed q) }
    ensures levels { IfOk result (λ q. depth q ≤ most_query_depth) }
    ensures brackets { IfOk result (λ q. HasShallowBrackets (lexemes text.now tokens.now)) }
    ensures refused { IfErr result (IsRefusal text.now tokens.now) }
{
    match build(alloc, text, tokens.as_slice()) {
        Ok(grown) => Ok(grown.tree),
        Err(Stop::Memory) => Err(ParseFault::Memory),
        Err(_) => Err(refusal(text, tokens.as_slice())),
    }
}

/// Why tokens give no tree, where each tree of theirs is too deep.
fn refusal(text: &[u8], tokens: &[Token]) -> ParseFault
    requires { IsNeverShallow (lexemes text.now tokens.now) }
    ensures { IsRefusal text.now tokens.now result }
{
    match fault_at(text, tokens) {
        Some(at) => ParseFault::Syntax(place_of(text, tokens, at)),
        None => ParseFault::TooDeep,
    }
}

/// Where the token of this number starts, or the text ends.
#[tactic(auto, using(crate::proofs::Syntax::place_none))]
fn place_of(text: &[u8], tokens: &[Token], at: usize) -> usize
    ensures { result ≡ place_of text.now tokens.now at }
{
    if at < tokens.len() {
        let token = tokens[at];
        token.start
    } else {
        text.len()
    }
}
