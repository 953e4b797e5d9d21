//! What is true of tokens, whatever reads them. These functions do nothing; what they ensure is the law.

ghost use Rattle.std.specs.Prelude.{ℕ, List};
ghost use Rattle.cql_lex.specs.OneReading.{HasReading, HasOneList, HasOnePlace, HasNotBoth};

/// A text has one list of tokens, or one place where it is unclosed, and never both.
pub fn one_reading()
    ensures reading { (text : List ℕ) → HasReading text }
    ensures list { (text : List ℕ) → HasOneList text }
    ensures place { (text : List ℕ) → HasOnePlace text }
    ensures apart { (text : List ℕ) → HasNotBoth text }
{}
