//! Queries of type 1 in prefix notation: operators in front of their operands, `@attr` with type and value,
//! a general term in quotes.

use crate::Answer;
use z_types::{Attr, Node, Rpn, Term};

impl Answer {
    /// Puts a query at the end.
    pub fn put_query(&mut self, query: &Rpn) {
        match &query.node {
            Node::Leaf(attrs, term) => {
                self.put_attributes(attrs.as_slice());
                self.put_term(term);
            }
            Node::Set(name) => {
                self.put("@set ");
                self.put_quoted(name.as_slice());
            }
            Node::And(left, right) => {
                self.put("@and ");
                self.put_query(left);
                self.put(" ");
                self.put_query(right);
            }
            Node::Or(left, right) => {
                self.put("@or ");
                self.put_query(left);
                self.put(" ");
                self.put_query(right);
            }
            Node::AndNot(left, right) => {
                self.put("@not ");
                self.put_query(left);
                self.put(" ");
                self.put_query(right);
            }
        }
    }

    /// Puts attributes at the end, a space behind each.
    pub fn put_attributes(&mut self, attrs: &[Attr]) {
        for attr in attrs {
            self.put_attribute(attr);
        }
    }

    /// Puts an attribute at the end, with its set where it names one.
    fn put_attribute(&mut self, attr: &Attr) {
        self.put("@attr ");
        if let Some(set) = &attr.set {
            self.put_numbers(".", set.arcs());
            self.put(" ");
        }
        self.print(&attr.kind);
        self.put("=");
        self.print(&attr.value);
        self.put(" ");
    }

    /// Puts a term at the end.
    pub fn put_term(&mut self, term: &Term) {
        match term {
            Term::General(text) => self.put_quoted(text.as_slice()),
            Term::Number(number) => {
                self.put("@term numeric ");
                self.print(number);
            }
            Term::Words(text) => {
                self.put("@term string ");
                self.put_quoted(text.as_slice());
            }
        }
    }
}
