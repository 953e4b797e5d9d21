//! A token of CQL: its kind and its place in the text.

/// What kind of token it is (CQL 1.2, BNF).
#[derive(Clone, Copy, Debug, PartialEq, Eq)]
pub enum Kind {
    /// `(`
    Open,
    /// `)`
    Close,
    /// `/`
    Slash,
    /// `=`
    Equal,
    /// `==`
    Exact,
    /// `<`
    Less,
    /// `>`
    Greater,
    /// `<=`
    LessOrEqual,
    /// `>=`
    GreaterOrEqual,
    /// `<>`
    LessOrGreater,
    /// A string between two `"`.
    Quoted,
    /// A bare word (the BNF's charString1).
    Word,
}

/// A token, from the octet at `start` up to the one before `end`. The quotes of a string are within.
#[derive(Clone, Copy, Debug, PartialEq, Eq)]
pub struct Token {
    /// What it is.
    pub kind: Kind,
    /// The offset of its first octet in the text.
    pub start: usize,
    /// The offset behind its last octet.
    pub end: usize,
}
