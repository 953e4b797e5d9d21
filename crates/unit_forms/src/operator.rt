//! The operators of a query (ANSI/NISO Z39.50-2003, Operator).

/// How two structures are joined.
#[derive(Clone, Copy, Debug, PartialEq, Eq)]
pub enum Operator {
    /// What both structures find (and).
    And,
    /// What one of them finds (or).
    Or,
    /// What the first finds and the second does not (and-not).
    AndNot,
}
