//! Why a query is not mapped.

ghost use Rattle.std.specs.Prelude.{◌≡◌};
ghost use Rattle.cql_map.specs.declared.fault.MapFault.TheVariants.{Memory as no_memory};
ghost use Rattle.cql_map.specs.Fault.{fault_number, diagnostic_of, detail_of};
ghost use Rattle.cql_map.specs.Sentences.{text_of, printed_detail};

use std::{fmt, str};
use z_types::{Memory, Text};

/// Why a query is not mapped, with the detail of its diagnostic. Nothing was changed.
#[derive(Debug, PartialEq, Eq, Drop)]
pub enum MapFault {
    /// No index has this prefix, or a prefix assignment has this uri.
    ContextSet(Text),
    /// No index has this name, and some index has its prefix.
    Index(Text),
    /// No relation has this name.
    Relation(Text),
    /// A relation has a modifier of this name.
    Modifier(Text),
    /// A boolean that is none of and, or and not: prox.
    Boolean(Text),
    /// A masking character that is no `*` at an end of a term or word.
    Masking(Text),
    /// A term without a word, or with nothing but masks. The text is empty.
    EmptyTerm(Text),
    /// A sort. The text is empty.
    Sort(Text),
    /// A boolean has a modifier of this name.
    BooleanModifier(Text),
    /// An anchoring character.
    Anchoring(Text),
    /// No memory could be had.
    Memory,
}

impl MapFault {
    /// The number of the refusal, 1 to 10 in the order above; 0 for want of memory, which is none.
    pub fn number(&self) -> u32
        ensures { result ≡ fault_number self.now }
    {
        match self {
            MapFault::ContextSet(_) => 1,
            MapFault::Index(_) => 2,
            MapFault::Relation(_) => 3,
            MapFault::Modifier(_) => 4,
            MapFault::Boolean(_) => 5,
            MapFault::Masking(_) => 6,
            MapFault::EmptyTerm(_) => 7,
            MapFault::Sort(_) => 8,
            MapFault::BooleanModifier(_) => 9,
            MapFault::Anchoring(_) => 10,
            MapFault::Memory => 0,
        }
    }

    /// The number of its diagnostic (SRU 1.2, list of diagnostics); 0 for want of memory, which has
    /// none of its own.
    pub fn diagnostic(&self) -> u32
        ensures { result ≡ diagnostic_of self.now }
    {
        match self {
            MapFault::ContextSet(_) => 15,
            MapFault::Index(_) => 16,
            MapFault::Relation(_) => 19,
            MapFault::Modifier(_) => 20,
            MapFault::Boolean(_) => 37,
            MapFault::Masking(_) => 28,
            MapFault::EmptyTerm(_) => 27,
            MapFault::Sort(_) => 80,
            MapFault::BooleanModifier(_) => 46,
            MapFault::Anchoring(_) => 31,
            MapFault::Memory => 0,
        }
    }

    /// What it says, without its detail.
    fn text(&self) -> &'static str
        ensures { result.now ≡ text_of self.now }
    {
        match self {
            MapFault::ContextSet(_) => "unsupported context set",
            MapFault::Index(_) => "unsupported index",
            MapFault::Relation(_) => "unsupported relation",
            MapFault::Modifier(_) => "unsupported relation modifier",
            MapFault::Boolean(_) => "unsupported boolean operator",
            MapFault::Masking(_) => "masking character not supported",
            MapFault::EmptyTerm(_) => "empty term unsupported",
            MapFault::Sort(_) => "sort not supported",
            MapFault::BooleanModifier(_) => "unsupported boolean modifier",
            MapFault::Anchoring(_) => "anchoring character not supported",
            MapFault::Memory => "out of memory",
        }
    }

    /// The detail of its diagnostic, as it stands in the query; empty for want of memory.
    pub fn detail(&self) -> &[u8]
        ensures { result.now ≡ detail_of self.now }
    {
        match self {
            MapFault::ContextSet(text)
            | MapFault::Index(text)
            | MapFault::Relation(text)
            | MapFault::Modifier(text)
            | MapFault::Boolean(text)
            | MapFault::Masking(text)
            | MapFault::EmptyTerm(text)
            | MapFault::Sort(text)
            | MapFault::BooleanModifier(text)
            | MapFault::Anchoring(text) => text.as_slice(),
            MapFault::Memory => &[],
        }
    }

    /// The detail where it is UTF-8, and else nothing.
    #[tactic(auto, using(crate::proofs::SentenceLemmas::detail_is_printed, crate::proofs::SentenceLemmas::no_detail_is_printed))]
    fn printed_detail(&self) -> &str
        ensures { result.now ≡ printed_detail (detail_of self.now) }
    {
        match str::from_utf8(self.detail()) {
            Ok(detail) => detail,
            Err(_) => "",
        }
    }
}

impl From<Memory> for MapFault {
    ghost from_gives = { λ _ e. e ≡ no_memory };

    fn from(_: Memory) -> MapFault {
        MapFault::Memory
    }
}

impl fmt::Display for MapFault {
    ghost use Rattle.std.specs.Prelude.{Some};
    ghost use Rattle.cql_map.specs.Sentences.{sentence};

    ghost output = { λ fault. Some (sentence fault) };

    fn fmt<W: fmt::Write>(&self, f: &mut fmt::Formatter<W>) -> fmt::Result {
        let detail = self.printed_detail();
        if detail.is_empty() {
            f.write_str(self.text())
        } else {
            write!(f, "{}: {detail}", self.text())
        }
    }
}
