//! The tree of a CQL query (CQL 1.2). A contract sees it as plain data, with no pointers.

ghost use Rattle.std.specs.Prelude.{◌≡◌, IfOk};
ghost use Rattle.cql_parse.specs.Tree.{clause, joined, assigned, sorted};
ghost use Rattle.cql_parse.specs.Equality.{modifier, head, key, tree, tree_eq, tree_equiv, tree_per};

use std::alloc::{AllocError, Global};
use std::marker::Model;
use z_types::{Exact, List, Memory, Text};

/// A modifier of a relation, a boolean or a sort key: its name, and where it compares a symbol and
/// a term (the BNF's modifier).
#[derive(PartialEq, Eq, Clone, Debug, Drop)]
pub struct Modifier {
    /// The name, as it stands.
    pub name: Text,
    /// The symbol and the term, where there are some.
    pub value: Option<(Text, Text)>,
}

/// What a term is searched in and how: an index, a relation and its modifiers.
#[derive(PartialEq, Eq, Clone, Debug, Drop)]
pub struct Head {
    /// The index, as it stands, without the quotes that it may have.
    pub index: Text,
    /// The relation: a symbol or a word, as it stands.
    pub relation: Text,
    /// The relation's modifiers, in order.
    pub modifiers: List<Modifier>,
}

/// A key of a sort: an index and its modifiers.
#[derive(PartialEq, Eq, Clone, Debug, Drop)]
pub struct SortKey {
    /// The index, as it stands, without the quotes that it may have.
    pub index: Text,
    /// The modifiers, in order.
    pub modifiers: List<Modifier>,
}

/// A CQL query. Brackets leave nothing in it.
#[cycle(cql)]
#[derive(Debug, Drop)]
pub struct Cql {
    /// What the query is.
    pub node: Node,
}

/// The forms of a query. Each is one level of the tree.
#[cycle(cql)]
#[derive(Debug, Drop)]
pub enum Node {
    /// A term, searched as its head says, or in `cql.serverChoice` by `=` where there is none.
    Clause(Option<Head>, Text),
    /// A boolean in lower case, its modifiers, and its left and right operand.
    Joined(Text, List<Modifier>, Box<Cql>, Box<Cql>),
    /// A prefix assignment: the prefix where one is named, its uri, and the query that it is for.
    Prefix(Option<Text>, Text, Box<Cql>),
    /// A query and the keys that its results are sorted by, at least one.
    Sorted(Box<Cql>, List<SortKey>),
}

impl Model for Cql {
    ghost use Rattle.cql_parse.specs.Tree.{Tree, tree_code, tree_size};

    ghost Value = { Tree };

    ghost coded = { tree_code };

    ghost use Rattle.cql_parse.specs.TreeOf.{tree_of};

    ghost view = { λ q. tree_of q.node };

    ghost size = { tree_size };

    ghost use Rattle.cql_parse.specs.TreeFalls.{child_falls};

    ghost size_decreases = { λ q h. child_falls q.node };
}

impl Cql {
    /// A term with its head.
    pub fn clause(head: Option<Head>, term: Text) -> Cql
        ensures { result ≡ clause head term }
    {
        Cql {
            node: Node::Clause(head, term),
        }
    }

    /// Two queries under a boolean.
    pub fn joined(
        alloc: Global,
        boolean: Text,
        modifiers: List<Modifier>,
        left: Cql,
        right: Cql,
    ) -> Result<Cql, Memory>
        ensures { IfOk result (λ q. q ≡ joined boolean modifiers left right) }
    {
        let left = Box::new(alloc, left)?;
        let right = Box::new(alloc, right)?;
        Ok(Cql {
            node: Node::Joined(boolean, modifiers, left, right),
        })
    }

    /// A query under a prefix assignment.
    pub fn prefix(alloc: Global, name: Option<Text>, uri: Text, query: Cql) -> Result<Cql, Memory>
        ensures { IfOk result (λ q. q ≡ assigned name uri query) }
    {
        let query = Box::new(alloc, query)?;
        Ok(Cql {
            node: Node::Prefix(name, uri, query),
        })
    }

    /// A query with its sort keys.
    pub fn sorted(alloc: Global, query: Cql, keys: List<SortKey>) -> Result<Cql, Memory>
        ensures { IfOk result (λ q. q ≡ sorted query keys) }
    {
        let query = Box::new(alloc, query)?;
        Ok(Cql {
            node: Node::Sorted(query, keys),
        })
    }
}

impl PartialEq for Cql {
    ghost eq = { tree_eq };

    ghost laws = { tree_per };

    fn eq(&self, other: &Cql) -> bool {
        match (&self.node, &other.node) {
            (Node::Clause(head, term), Node::Clause(other, word)) => {
                *head == *other && *term == *word
            }
            (Node::Joined(boolean, modifiers, left, right), Node::Joined(word, others, l, r)) => {
                *boolean == *word && *modifiers == *others && **left == **l && **right == **r
            }
            (Node::Prefix(name, uri, query), Node::Prefix(other, word, inner)) => {
                *name == *other && *uri == *word && **query == **inner
            }
            (Node::Sorted(query, keys), Node::Sorted(inner, others)) => {
                **query == **inner && *keys == *others
            }
            _ => false,
        }
    }
}

impl Eq for Cql {
    ghost laws = { tree_equiv };
}

/// A part of a query again.
fn again<T: Exact>(part: &T) -> Result<T, AllocError>
    ensures { IfOk result (λ c. c ≡ part.now) }
{
    Ok(part.clone()?)
}

impl Clone for Cql {
    ghost is_clone = { λ a b. b ≡ a };

    fn clone(&self) -> Result<Cql, AllocError> {
        match &self.node {
            Node::Clause(head, term) => Ok(Cql::clause(again(head)?, again(term)?)),
            Node::Joined(boolean, modifiers, left, right) => {
                let alloc = *Box::allocator(left);
                let left = Box::new(alloc, (**left).clone()?)?;
                let right = Box::new(alloc, (**right).clone()?)?;
                Ok(Cql {
                    node: Node::Joined(again(boolean)?, again(modifiers)?, left, right),
                })
            }
            Node::Prefix(name, uri, query) => {
                let query = Box::new(*Box::allocator(query), (**query).clone()?)?;
                Ok(Cql {
                    node: Node::Prefix(again(name)?, again(uri)?, query),
                })
            }
            Node::Sorted(query, keys) => {
                let query = Box::new(*Box::allocator(query), (**query).clone()?)?;
                Ok(Cql {
                    node: Node::Sorted(query, again(keys)?),
                })
            }
        }
    }
}

impl Exact for Modifier {
    ghost exact_eq = { modifier.eq_is_exact };

    ghost exact_clone = { modifier.clone_is_exact };
}

impl Exact for Head {
    ghost exact_eq = { head.eq_is_exact };

    ghost exact_clone = { head.clone_is_exact };
}

impl Exact for SortKey {
    ghost exact_eq = { key.eq_is_exact };

    ghost exact_clone = { key.clone_is_exact };
}

impl Exact for Cql {
    ghost exact_eq = { tree.eq_is_exact };

    ghost exact_clone = { λ a b h. h };
}
