//! The tokens of a CQL query (CQL 1.2, its BNF): words, quoted strings and symbols, each with its
//! place in the text. What the tokens mean together is `cql_parse`'s.
#![tactic(auto)]

mod characters;
mod fault;
mod laws;
mod lexer;
mod next_token;
mod token;

pub use characters::is_word;
pub use fault::LexFault;
pub use laws::one_reading;
pub use lexer::tokens;
pub use token::{Kind, Token};
