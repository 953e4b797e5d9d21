//! Queries of type 1, in reverse polish notation (ANSI/NISO Z39.50-2003, RPNQuery). A contract sees
//! a query's structure as a tree, with no pointers.

ghost use Rattle.std.specs.Prelude.{◌≡◌, IfOk};
ghost use Rattle.z_types.specs.Tree.{leaf, operand, and, or, and_not};
ghost use Rattle.z_types.specs.equality.Query.{tree_eq, tree_equiv, tree_per, tree, attr, term};

use crate::{Exact, List, Memory, Oid, Text};
use std::alloc::{AllocError, Global};
use std::marker::Model;

/// An attribute of an operand (AttributeElement, with a numeric value).
#[derive(PartialEq, Eq, Clone, Drop)]
pub struct Attr {
    /// The attribute set that the kind and value belong to, where it is not the query's.
    pub set: Option<Oid>,
    /// The attribute type, 0 to 2147483647: 1 is Use in bib-1.
    pub kind: u32,
    /// The attribute value, 0 to 2147483647.
    pub value: u32,
}

/// A term of an operand (Term).
#[derive(PartialEq, Eq, Clone, Drop)]
pub enum Term {
    /// Octets (general).
    General(Text),
    /// An integer of at most 8 octets (numeric).
    Number(i64),
    /// A character string (characterString).
    Words(Text),
}

/// The structure of a query (RPNStructure), around one node of it.
#[cycle(query)]
#[derive(Drop)]
pub struct Rpn {
    pub node: Node,
}

/// A node of a query: an operand, or an operator on two structures.
#[cycle(query)]
#[derive(Drop)]
pub enum Node {
    /// Attributes and a term (AttributesPlusTerm).
    Leaf(List<Attr>, Term),
    /// The result set of a name, as an operand (ResultSetId).
    Set(Text),
    /// What both structures find.
    And(Box<Rpn>, Box<Rpn>),
    /// What one of the structures finds.
    Or(Box<Rpn>, Box<Rpn>),
    /// What the first structure finds and the second does not.
    AndNot(Box<Rpn>, Box<Rpn>),
}

/// A query of type 1 (RPNQuery).
#[derive(PartialEq, Eq, Clone, Drop)]
pub struct RpnQuery {
    /// The attribute set of the attributes that name none.
    pub attr_set: Oid,
    /// The structure.
    pub root: Rpn,
}

impl Model for Rpn {
    ghost use Rattle.z_types.specs.Tree.{Tree, tree_code, tree_size};

    ghost Value = { Tree };

    ghost coded = { tree_code };

    ghost use Rattle.z_types.specs.TreeOf.{tree_of};

    ghost view = { λ a. tree_of a.node };

    ghost size = { tree_size };

    ghost use Rattle.z_types.specs.TreeFalls.{child_falls};

    ghost size_decreases = { λ a h. child_falls a.node };
}

impl Rpn {
    /// An operand of attributes and a term.
    pub fn leaf(attrs: List<Attr>, term: Term) -> Rpn
        ensures { result ≡ leaf attrs term }
    {
        Rpn {
            node: Node::Leaf(attrs, term),
        }
    }

    /// The result set of a name, as an operand.
    pub fn operand(name: Text) -> Rpn
        ensures { result ≡ operand name }
    {
        Rpn {
            node: Node::Set(name),
        }
    }

    /// What both structures find.
    pub fn and(alloc: Global, left: Rpn, right: Rpn) -> Result<Rpn, Memory>
        ensures { IfOk result (λ query. query ≡ and left right) }
    {
        let (left, right) = in_boxes(alloc, left, right)?;
        Ok(Rpn {
            node: Node::And(left, right),
        })
    }

    /// What one of the structures finds.
    pub fn or(alloc: Global, left: Rpn, right: Rpn) -> Result<Rpn, Memory>
        ensures { IfOk result (λ query. query ≡ or left right) }
    {
        let (left, right) = in_boxes(alloc, left, right)?;
        Ok(Rpn {
            node: Node::Or(left, right),
        })
    }

    /// What the first structure finds and the second does not.
    pub fn and_not(alloc: Global, left: Rpn, right: Rpn) -> Result<Rpn, Memory>
        ensures { IfOk result (λ query. query ≡ and_not left right) }
    {
        let (left, right) = in_boxes(alloc, left, right)?;
        Ok(Rpn {
            node: Node::AndNot(left, right),
        })
    }
}

/// Two structures behind pointers.
fn in_boxes(alloc: Global, left: Rpn, right: Rpn) -> Result<(Box<Rpn>, Box<Rpn>), AllocError>
    ensures left { IfOk result (λ both. both.0.value ≡ left) }
    ensures right { IfOk result (λ both. both.1.value ≡ right) }
{
    let left = Box::new(alloc, left)?;
    let right = Box::new(alloc, right)?;
    Ok((left, right))
}

impl PartialEq for Rpn {
    ghost eq = { tree_eq };

    ghost laws = { tree_per };

    fn eq(&self, other: &Rpn) -> bool {
        match (&self.node, &other.node) {
            (Node::Leaf(attrs, term), Node::Leaf(others, other)) => {
                *attrs == *others && *term == *other
            }
            (Node::Set(name), Node::Set(other)) => *name == *other,
            (Node::And(left, right), Node::And(other_left, other_right)) => {
                **left == **other_left && **right == **other_right
            }
            (Node::Or(left, right), Node::Or(other_left, other_right)) => {
                **left == **other_left && **right == **other_right
            }
            (Node::AndNot(left, right), Node::AndNot(other_left, other_right)) => {
                **left == **other_left && **right == **other_right
            }
            _ => false,
        }
    }
}

impl Eq for Rpn {
    ghost laws = { tree_equiv };
}

impl Clone for Rpn {
    ghost is_clone = { λ a b. b ≡ a };

    fn clone(&self) -> Result<Rpn, AllocError> {
        match &self.node {
            Node::Leaf(attrs, term) => Ok(Rpn {
                node: Node::Leaf(attrs.clone()?, term.clone()?),
            }),
            Node::Set(name) => Ok(Rpn {
                node: Node::Set(name.clone()?),
            }),
            Node::And(left, right) => {
                let alloc = *Box::allocator(left);
                let (left, right) = in_boxes(alloc, (**left).clone()?, (**right).clone()?)?;
                Ok(Rpn {
                    node: Node::And(left, right),
                })
            }
            Node::Or(left, right) => {
                let alloc = *Box::allocator(left);
                let (left, right) = in_boxes(alloc, (**left).clone()?, (**right).clone()?)?;
                Ok(Rpn {
                    node: Node::Or(left, right),
                })
            }
            Node::AndNot(left, right) => {
                let alloc = *Box::allocator(left);
                let (left, right) = in_boxes(alloc, (**left).clone()?, (**right).clone()?)?;
                Ok(Rpn {
                    node: Node::AndNot(left, right),
                })
            }
        }
    }
}

impl Exact for Attr {
    ghost exact_eq = { attr.eq_is_exact };

    ghost exact_clone = { attr.clone_is_exact };
}

impl Exact for Term {
    ghost exact_eq = { term.eq_is_exact };

    ghost exact_clone = { term.clone_is_exact };
}

impl Exact for RpnQuery {
    ghost use Rattle.z_types.specs.equality.RpnQuery.{rpn_query};

    ghost exact_eq = { rpn_query.eq_is_exact };

    ghost exact_clone = { rpn_query.clone_is_exact };
}

impl Exact for Rpn {
    ghost exact_eq = { tree.eq_is_exact };

    ghost exact_clone = { λ a b h. h };
}
