//! What an unfinished query is within.

use crate::Modifier;
use crate::grown::Grown;
use z_types::{List, Text};

/// What stands left of a boolean's right operand.
#[derive(Drop)]
pub struct LeftOperand {
    /// The left operand.
    pub query: Grown,
    /// The boolean, in lower case.
    pub boolean: Text,
    /// The boolean's modifiers.
    pub modifiers: List<Modifier>,
}

/// What a query that is not finished is within, with what stands left of that in its own query.
#[derive(Drop)]
pub enum Frame {
    /// Brackets.
    Bracket(Option<LeftOperand>),
    /// A prefix assignment, of a prefix where one is named, and a uri.
    Prefix(Option<LeftOperand>, Option<Text>, Text),
}

/// What comes next in the innermost query.
#[derive(Drop)]
pub enum State {
    /// A clause, behind what stands left of it.
    Operand(Option<LeftOperand>),
    /// A boolean, `sortby` or the end of this query.
    After(Grown),
}

/// A query whose end has come, in brackets or whole.
#[derive(Drop)]
pub enum Ended {
    /// The brackets that end with it, behind what stands left of them.
    Inner(Option<LeftOperand>, Grown),
    /// No brackets.
    Whole(Grown),
}
