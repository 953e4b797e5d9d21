//! What is true of queries, whatever reads them. These functions do nothing; what they ensure is the law.

ghost use Rattle.std.specs.Prelude.{List};
ghost use Rattle.cql_parse.specs.Tree.{Tree};
ghost use Rattle.cql_parse.specs.Lexemes.{Lexeme};
ghost use Rattle.cql_parse.specs.Laws.{HasOneTree, HasTreeOrFault, HasOneFault, HasNotBoth, HasTextIfWellFormed};

/// Tokens are a query of one tree at most.
pub fn one_tree()
    ensures { (ts : List Lexeme) → HasOneTree ts }
{}

/// Tokens that are no query have one place where they stop to be the beginning of one, and tokens that are a
/// query have none.
pub fn one_fault()
    ensures either { (ts : List Lexeme) → HasTreeOrFault ts }
    ensures place { (ts : List Lexeme) → HasOneFault ts }
    ensures apart { (ts : List Lexeme) → HasNotBoth ts }
{}

/// The trees that texts have are the well-formed ones.
pub fn texts_of_trees()
    ensures { (t : Tree) → HasTextIfWellFormed t }
{}
