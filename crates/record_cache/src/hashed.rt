//! The parts of a key, fed to a hasher. All that is fed is whole words of eight octets, which a hasher takes
//! at once: a number is a word, and a text is filled up to one.

ghost use Rattle.std.specs.Prelude.{◌≡◌, fold};
ghost use Rattle.std.specs.Hash as fed;
ghost use Rattle.record_cache.specs.Keys.{
  address_input,
  arcs_input,
  attribute_input,
  element_input,
  filling,
  parts_input,
  set_input,
  site_input,
  term_input,
  text_input,
  tree_input,
};

use crate::RecordKey;
use std::hash::Hasher;
use z_types::{Address, Attr, Node, Oid, Rpn, SetKey, Site, Term, Text};

/// The octets that fill up a word.
const FILLING: [u8; 8] = [0; 8];

/// Feeds what fills up the last word of so many octets.
fn hash_filling<H: Hasher>(octets: usize, state: &mut H)
    ensures { state.new ≡ fold H.write state.old (filling octets) }
{
    let over = octets % 8;
    if over > 0 {
        state.write(&FILLING[over..]);
    }
}

/// Feeds a text: its length, its octets, and what fills up the last word.
fn hash_text<H: Hasher>(text: &Text, state: &mut H)
    ensures { state.new ≡ fold H.write state.old (text_input text.now) }
{
    state.write_usize(text.len());
    state.write(text.as_slice());
    hash_filling(text.len(), state);
}

/// Feeds numbers: how many there are, and each.
fn hash_numbers<H: Hasher>(numbers: &[u32], state: &mut H)
    ensures { state.new ≡ fold H.write state.old (fed.slice fed.u64 numbers.now) }
{
    state.write_usize(numbers.len());
    for number in numbers {
        state.write_u64(*number as u64);
    }
}

/// Feeds an element set name, where there is one.
fn hash_element<H: Hasher>(element: &Option<Text>, state: &mut H)
    ensures { state.new ≡ fold H.write state.old (element_input element.now) }
{
    match element {
        None => state.write_u64(0),
        Some(name) => {
            state.write_u64(1);
            hash_text(name, state);
        }
    }
}

/// Feeds an object identifier, where there is one.
fn hash_arcs<H: Hasher>(oid: &Option<Oid>, state: &mut H)
    ensures { state.new ≡ fold H.write state.old (arcs_input oid.now) }
{
    match oid {
        None => state.write_u64(0),
        Some(oid) => {
            state.write_u64(1);
            hash_numbers(oid.arcs(), state);
        }
    }
}

/// Feeds the place of a target.
fn hash_site<H: Hasher>(site: &Site, state: &mut H)
    ensures { state.new ≡ fold H.write state.old (site_input site.now) }
{
    match site {
        Site::Test(number) => {
            state.write_u64(0);
            state.write_u64(*number as u64);
        }
        Site::Tcp(host, port) => {
            state.write_u64(1);
            hash_text(host, state);
            state.write_u64(*port as u64);
        }
    }
}

/// Feeds an address.
fn hash_address<H: Hasher>(address: &Address, state: &mut H)
    ensures { state.new ≡ fold H.write state.old (address_input address.now) }
{
    match address {
        Address::Test(number) => {
            state.write_u64(0);
            state.write_u64(*number as u64);
        }
        Address::Tcp(host, port) => {
            state.write_u64(1);
            hash_text(host, state);
            state.write_u64(*port as u64);
        }
        Address::Login(site, login) => {
            state.write_u64(2);
            hash_site(site, state);
            hash_text(login, state);
        }
    }
}

/// Feeds the names of databases: how many there are, and each.
fn hash_names<H: Hasher>(names: &[Text], state: &mut H)
    ensures { state.new ≡ fold H.write state.old (fed.slice text_input names.now) }
{
    state.write_usize(names.len());
    for name in names {
        hash_text(name, state);
    }
}

/// Feeds an attribute.
fn hash_attribute<H: Hasher>(attribute: &Attr, state: &mut H)
    ensures { state.new ≡ fold H.write state.old (attribute_input attribute.now) }
{
    hash_arcs(&attribute.set, state);
    state.write_u64(attribute.kind as u64);
    state.write_u64(attribute.value as u64);
}

/// Feeds attributes: how many there are, and each.
fn hash_attributes<H: Hasher>(attributes: &[Attr], state: &mut H)
    ensures { state.new ≡ fold H.write state.old (fed.slice attribute_input attributes.now) }
{
    state.write_usize(attributes.len());
    for attribute in attributes {
        hash_attribute(attribute, state);
    }
}

/// Feeds a term: which it is, and its octets or its number.
fn hash_term<H: Hasher>(term: &Term, state: &mut H)
    ensures { state.new ≡ fold H.write state.old (term_input term.now) }
{
    match term {
        Term::General(text) => {
            state.write_u64(0);
            hash_text(text, state);
        }
        Term::Number(number) => {
            state.write_u64(1);
            state.write_i64(*number);
        }
        Term::Words(text) => {
            state.write_u64(2);
            hash_text(text, state);
        }
    }
}

/// Feeds the structure of a query. It calls itself as deep as the query is.
fn hash_tree<H: Hasher>(query: &Rpn, state: &mut H)
    ensures { state.new ≡ fold H.write state.old (tree_input query.now) }
{
    match &query.node {
        Node::Leaf(attributes, term) => {
            state.write_u64(0);
            hash_attributes(attributes.as_slice(), state);
            hash_term(term, state);
        }
        Node::Set(name) => {
            state.write_u64(1);
            hash_text(name, state);
        }
        Node::And(left, right) => {
            state.write_u64(2);
            hash_tree(left, state);
            hash_tree(right, state);
        }
        Node::Or(left, right) => {
            state.write_u64(3);
            hash_tree(left, state);
            hash_tree(right, state);
        }
        Node::AndNot(left, right) => {
            state.write_u64(4);
            hash_tree(left, state);
            hash_tree(right, state);
        }
    }
}

/// Feeds the databases and the query of a result set.
fn hash_set<H: Hasher>(key: &SetKey, state: &mut H)
    ensures { state.new ≡ fold H.write state.old (set_input key.now) }
{
    hash_names(key.dbs.as_slice(), state);
    hash_numbers(key.query.attr_set.arcs(), state);
    hash_tree(&key.query.root, state);
}

/// Feeds all parts of a key but its position, each text behind its length, so that no two feed a hasher
/// alike. Who chooses queries can then make keys collide only where they know what the hasher began from.
pub(crate) fn hash_parts<H: Hasher>(key: &RecordKey, state: &mut H)
    ensures { state.new ≡ fold H.write state.old (parts_input key.now) }
{
    hash_address(&key.address, state);
    hash_set(&key.key, state);
    hash_arcs(&key.syntax, state);
    hash_element(&key.element, state);
}
