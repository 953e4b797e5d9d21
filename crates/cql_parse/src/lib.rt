//! The grammar of CQL (CQL 1.2, its BNF): the tree of a query's tokens, and the text of a tree. What
//! a query means is left to the crates above.
#![tactic(auto)]

mod build;
mod clauses;
mod fault;
mod first_fault;
mod frame;
mod grow;
mod grown;
mod laws;
mod lexeme;
mod parser;
mod stack;
mod tree;
mod writer;

pub use fault::ParseFault;
pub use laws::{one_fault, one_tree, texts_of_trees};
pub use parser::parse;
pub use tree::{Cql, Head, Modifier, Node, SortKey};
pub use writer::write;
