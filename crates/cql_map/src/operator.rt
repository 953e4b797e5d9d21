//! The booleans that are operators of type 1 (CQL 1.2, boolean; ANSI/NISO Z39.50-2003, Operator).

ghost use Rattle.std.specs.Prelude.{◌≡◌, IfOk, IfErr, Some};
ghost use Rattle.cql_map.specs.Operators.{operator_of, under};
ghost use Rattle.cql_map.specs.Faults.{boolean_faults, IsRefusal};

use crate::MapFault;
use std::alloc::Global;
use z_types::{Memory, Rpn, Text};

/// What joins two queries.
#[derive(Clone, Copy, Debug, PartialEq, Eq)]
pub enum Operator {
    /// Both find.
    And,
    /// One of them finds.
    Or,
    /// The first finds and the second does not.
    AndNot,
}

/// The operator of a boolean.
fn operator_of(boolean: &[u8]) -> Option<Operator>
    ensures { result ≡ operator_of boolean.now }
{
    if boolean == b"and".as_slice() {
        return Some(Operator::And);
    }
    if boolean == b"or".as_slice() {
        return Some(Operator::Or);
    }
    if boolean == b"not".as_slice() {
        return Some(Operator::AndNot);
    }
    None
}

/// The operator of a boolean, or why there is none.
pub fn read_operator(alloc: Global, boolean: &Text) -> Result<Operator, MapFault>
    ensures value { IfOk result (λ operator. operator_of boolean.now ≡ Some operator) }
    ensures refused { IfErr result (IsRefusal (boolean_faults boolean.now)) }
{
    match operator_of(boolean.as_slice()) {
        Some(operator) => Ok(operator),
        None => Err(MapFault::Boolean(Text::copy_of(alloc, boolean.as_slice())?)),
    }
}

/// Two queries under an operator.
pub fn under(alloc: Global, operator: Operator, left: Rpn, right: Rpn) -> Result<Rpn, Memory>
    ensures { IfOk result (λ query. query ≡ under operator left right) }
{
    match operator {
        Operator::And => Rpn::and(alloc, left, right),
        Operator::Or => Rpn::or(alloc, left, right),
        Operator::AndNot => Rpn::and_not(alloc, left, right),
    }
}
