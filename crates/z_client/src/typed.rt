//! What is true of an ask by its types alone. The invariant of a value's type is known where the value
//! is looked at, so these functions walk once over an ask; they change nothing and answer nothing.

ghost use Rattle.std.specs.Prelude.{IfSome};
ghost use Rattle.std.specs.List.{AllByRecursion};
ghost use Rattle.z_ber.specs.Values.{IsInteger, IsOid};
ghost use Rattle.z_laws.specs.Readable.{IsReadableTerm};
ghost use Rattle.z_client.specs.Typed.{IsTypedAttr, IsTypedTree, IsTypedQuery, IsTypedScan, IsTypedAsk};

use z_types::{Ask, Attr, Node, Oid, Rpn, RpnQuery, ScanAsk, Term};

/// The object identifiers of an ask are some, and its integers have at most 8 octets.
pub(crate) fn ask_is_typed(ask: &Ask)
    ensures { IsTypedAsk ask.now }
{
    match ask {
        Ask::Search { key, .. } => query_is_typed(&key.query),
        Ask::Present { syntax, .. } => oid_is_valid(syntax),
        Ask::Scan { ask, .. } => scan_is_typed(ask),
    }
}

/// Those of a query.
fn query_is_typed(query: &RpnQuery)
    ensures { IsTypedQuery query.now }
{
    query.attr_set.arcs();
    tree_is_typed(&query.root);
}

/// Those of the structure of a query. It calls itself as deep as the structure is.
fn tree_is_typed(query: &Rpn)
    ensures { IsTypedTree query.now }
{
    match &query.node {
        Node::Leaf(attrs, term) => {
            attrs_are_typed(attrs.as_slice());
            term_is_typed(term);
        }
        Node::Set(_) => {}
        Node::And(left, right) | Node::Or(left, right) | Node::AndNot(left, right) => {
            tree_is_typed(left);
            tree_is_typed(right);
        }
    }
}

/// Those of what a scan asks for.
fn scan_is_typed(ask: &ScanAsk)
    ensures { IsTypedScan ask.now }
{
    oid_is_valid(&ask.attr_set);
    attrs_are_typed(ask.attrs.as_slice());
    term_is_typed(&ask.term);
}

/// Those of attributes.
fn attrs_are_typed(attrs: &[Attr])
    ensures { AllByRecursion IsTypedAttr attrs.now }
{
    for attr in attrs {
        oid_is_valid(&attr.set);
    }
}

/// The integer of a term, if it is one, has at most 8 octets.
fn term_is_typed(term: &Term)
    ensures { IsReadableTerm term.now }
{
    match term {
        Term::Number(value) => integer_is_typed(*value),
        Term::General(_) | Term::Words(_) => {}
    }
}

/// An integer of the code has at most 8 octets.
fn integer_is_typed(value: i64)
    ensures { IsInteger value }
{}

/// An object identifier, if there is one, is valid.
fn oid_is_valid(oid: &Option<Oid>)
    ensures { IfSome oid.now IsOid }
{
    if let Some(oid) = oid {
        oid.arcs();
    }
}
