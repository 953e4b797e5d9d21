//! Why a text has no tokens.

ghost use Rattle.std.specs.Prelude.{◌≡◌};
ghost use Rattle.cql_lex.specs.declared.fault.LexFault.TheVariants.{Memory as no_memory};
ghost use Rattle.cql_lex.specs.Fault.{fault_number};

use std::fmt;
use z_types::Memory;

/// Why a text has no tokens. Nothing was changed.
#[derive(Clone, Copy, Debug, PartialEq, Eq)]
pub enum LexFault {
    /// A string has no end, and its first `"` is at this offset; or the text's last octet, at this
    /// offset, is a backslash outside a string with no octet to take.
    OpenQuote(usize),
    /// The text is not UTF-8; this is the length of its longest prefix that is.
    NotUtf8(usize),
    /// No memory could be had.
    Memory,
}

impl LexFault {
    /// The number of the refusal: 1 OpenQuote, 2 NotUtf8; 0 for want of memory, which is none.
    pub fn number(&self) -> u32
        ensures { result ≡ fault_number self.now }
    {
        match self {
            LexFault::Memory => 0,
            LexFault::OpenQuote(_) => 1,
            LexFault::NotUtf8(_) => 2,
        }
    }
}

impl From<Memory> for LexFault {
    ghost from_gives = { λ _ e. e ≡ no_memory };

    fn from(_: Memory) -> LexFault {
        LexFault::Memory
    }
}

impl fmt::Display for LexFault {
    ghost use Rattle.std.specs.Prelude.{Some};
    ghost use Rattle.cql_lex.specs.Sentences.{sentence};

    ghost output = { λ fault. Some (sentence fault) };

    fn fmt<W: fmt::Write>(&self, f: &mut fmt::Formatter<W>) -> fmt::Result {
        match self {
            LexFault::OpenQuote(place) => write!(f, "what begins at octet {place} has no end"),
            LexFault::NotUtf8(len) => write!(f, "no UTF-8 behind the first {len} octets"),
            LexFault::Memory => f.write_str("out of memory"),
        }
    }
}
