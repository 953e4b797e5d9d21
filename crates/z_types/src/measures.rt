//! How large, how deep and how costly a query is (this project's own). A number that would pass its
//! type's end is given as that end.

ghost use Rattle.std.specs.Prelude.{◌≡◌};
ghost use Rattle.z_types.specs.Bounds.{within32, within64};
ghost use Rattle.z_types.specs.Tree.{leaf, tree_size};
ghost use Rattle.z_types.specs.QueryMeasures.{tree_depth, tree_cost, measures_of, joined};

use crate::{Attr, List, Node, Rpn, RpnQuery, Term};

/// What a node costs.
const NODE_COST: u64 = 64;

/// What an attribute costs.
const ATTRIBUTE_COST: u64 = 192;

/// What a number costs as a term.
const NUMBER_COST: u64 = 8;

/// How many nodes a query has.
pub fn size(query: &Rpn) -> u32
    ensures { result ≡ within32 (tree_size query.now) }
{
    Measures::of(query).nodes.min(u64::from(u32::MAX)) as u32
}

/// How many levels a query has: an operand is one, and an operator one more than the deeper of its
/// sides.
pub fn depth(query: &Rpn) -> u32
    ensures { result ≡ within32 (tree_depth query.now) }
{
    Measures::of(query).levels
}

/// What a query costs: 64 for each node, 192 for each attribute, and the octets of each term, where a
/// number counts 8.
pub fn cost(query: &RpnQuery) -> u64
    ensures { result ≡ within64 (tree_cost query.now.root) }
{
    Measures::of(&query.root).cost
}

/// The nodes, levels and cost of a structure.
#[derive(Clone, Copy)]
pub struct Measures {
    /// How many nodes it has.
    pub nodes: u64,
    /// How many levels of nodes it has.
    pub levels: u32,
    /// What it costs.
    pub cost: u64,
}

impl Measures {
    /// The measures of a structure as it stands. It calls itself as deep as the structure is.
    pub fn of(query: &Rpn) -> Measures
        ensures { result ≡ measures_of query.now }
    {
        match &query.node {
            Node::Leaf(attrs, term) => Measures::of_leaf(attrs, term),
            Node::Set(_) => Measures {
                nodes: 1,
                levels: 1,
                cost: NODE_COST,
            },
            Node::And(left, right) => Measures::of(left).join(Measures::of(right)),
            Node::Or(left, right) => Measures::of(left).join(Measures::of(right)),
            Node::AndNot(left, right) => Measures::of(left).join(Measures::of(right)),
        }
    }

    /// The measures of an operand of attributes and a term.
    pub fn of_leaf(attrs: &List<Attr>, term: &Term) -> Measures
        ensures { result ≡ measures_of (leaf attrs.now term.now) }
    {
        let of_term = match term {
            Term::General(text) | Term::Words(text) => text.len() as u64,
            Term::Number(_) => NUMBER_COST,
        };
        let of_attributes = (attrs.len() as u64).saturating_mul(ATTRIBUTE_COST);
        Measures {
            nodes: 1,
            levels: 1,
            cost: NODE_COST
                .saturating_add(of_attributes)
                .saturating_add(of_term),
        }
    }

    /// The measures of an operator on two structures of these.
    pub fn join(self, right: Measures) -> Measures
        ensures { result ≡ joined self right }
    {
        Measures {
            nodes: self.nodes.saturating_add(right.nodes).saturating_add(1),
            levels: self.levels.max(right.levels).saturating_add(1),
            cost: self
                .cost
                .saturating_add(right.cost)
                .saturating_add(NODE_COST),
        }
    }
}
