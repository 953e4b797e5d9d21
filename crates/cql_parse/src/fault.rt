//! Why tokens are no query that is taken.

ghost use Rattle.std.specs.Prelude.{◌≡◌};
ghost use Rattle.cql_parse.specs.declared.fault.Stop.TheVariants.{Memory as no_memory};
ghost use Rattle.cql_parse.specs.Fault.{fault_number};

use std::fmt;
use z_types::Memory;

/// Why tokens are no query that is taken. Nothing was changed.
#[derive(Clone, Copy, Debug, PartialEq, Eq)]
pub enum ParseFault {
    /// The tokens are no query. The first token such that no query begins with the tokens up to and
    /// with it starts at this offset of the text; the text's length where there is no such token.
    Syntax(usize),
    /// A query whose brackets are nested deeper than 48, or whose tree is.
    TooDeep,
    /// No memory could be had.
    Memory,
}

impl ParseFault {
    /// The number of the refusal: 1 Syntax, 2 TooDeep; 0 for want of memory, which is none.
    pub fn number(&self) -> u32
        ensures { result ≡ fault_number self.now }
    {
        match self {
            ParseFault::Memory => 0,
            ParseFault::Syntax(_) => 1,
            ParseFault::TooDeep => 2,
        }
    }
}

impl fmt::Display for ParseFault {
    ghost use Rattle.std.specs.Prelude.{Some};
    ghost use Rattle.cql_parse.specs.Sentences.{sentence};

    ghost output = { λ fault. Some (sentence fault) };

    fn fmt<W: fmt::Write>(&self, f: &mut fmt::Formatter<W>) -> fmt::Result {
        match self {
            ParseFault::Syntax(place) => write!(f, "no query goes on so at octet {place}"),
            ParseFault::TooDeep => f.write_str("nested too deep"),
            ParseFault::Memory => f.write_str("out of memory"),
        }
    }
}

/// Why a part of the parser stopped.
#[derive(Clone, Copy, Debug, PartialEq, Eq)]
pub enum Stop {
    /// The tokens are no query.
    NoQuery,
    /// Where the tokens are a query, it is nested too deep.
    Deep,
    /// No memory could be had.
    Memory,
}

impl From<Memory> for Stop {
    ghost from_gives = { λ _ e. e ≡ no_memory };

    fn from(_: Memory) -> Stop {
        Stop::Memory
    }
}
