//! A number for each key of a class and a login.

ghost use Rattle.std.specs.Prelude.{◌≡◌, ℕ, option_copied, fold};
ghost use Rattle.z_types.specs.declared.key.SetKey.{SetKey};
ghost use Rattle.pool_keys.specs.Digests.{Sharers, mixed, login_mixed, names_mixed, attributes_mixed, term_mixed, tree_mixed, own_digest, key_digest};

use z_types::{Attr, Node, Rpn, SetKey, Term, Text};

/// A number for each key of a class and a login, by which a set is found. Two keys may have one number.
pub trait Digest: Drop {
    /// The number of a class and a login, or none.
    ghost own: { Sharers → ℕ };

    /// The number of a key of who shares it, by their number.
    ghost digest: { ℕ → SetKey → ℕ };

    /// The number of a class and a login, or none.
    fn own(class: u32, login: Option<&Text>) -> u64
        ensures { result ≡ own (class, option_copied login.entry) };

    /// The number of a key, by that of its class and login.
    fn digest(base: u64, key: &SetKey) -> u64
        ensures { result ≡ digest base key.now };
}

/// A number that the class, the login and each part of a key change.
#[derive(Drop)]
pub struct KeyDigest {}

impl Digest for KeyDigest {
    ghost own = { own_digest };

    ghost digest = { key_digest };

    fn own(class: u32, login: Option<&Text>) -> u64 {
        mix_login(mix(0, u64::from(class)), login)
    }

    fn digest(base: u64, key: &SetKey) -> u64 {
        let names = mix_names(base, key.dbs.as_slice());
        mix_tree(names, &key.query.root)
    }
}

/// A number, changed by another.
fn mix(digest: u64, part: u64) -> u64
    ensures { result ≡ mixed digest part }
{
    digest.wrapping_mul(1_099_511_628_211).wrapping_add(part)
}

/// A number, changed by octets.
fn mix_text(digest: u64, text: &[u8]) -> u64
    ensures { result ≡ fold mixed digest text.now }
{
    text.iter()
        .fold(digest, |digest, byte| mix(digest, u64::from(*byte)))
}

/// A number, changed by a login, where there is one.
fn mix_login(digest: u64, login: Option<&Text>) -> u64
    ensures { result ≡ login_mixed digest (option_copied login.entry) }
{
    match login {
        Some(login) => mix_text(mix(digest, 9), login.as_slice()),
        None => digest,
    }
}

/// A number, changed by names.
fn mix_names(digest: u64, names: &[Text]) -> u64
    ensures { result ≡ names_mixed digest names.now }
{
    names.iter().fold(
        digest,
        |digest, name| mix_text(mix(digest, 1), name.as_slice()),
    )
}

/// A number, changed by attributes.
fn mix_attributes(digest: u64, attributes: &[Attr]) -> u64
    ensures { result ≡ attributes_mixed digest attributes.now }
{
    attributes.iter().fold(digest, |digest, attribute| {
        mix(
            mix(digest, u64::from(attribute.kind)),
            u64::from(attribute.value),
        )
    })
}

/// A number, changed by a term.
fn mix_term(digest: u64, term: &Term) -> u64
    ensures { result ≡ term_mixed digest term.now }
{
    match term {
        Term::General(text) => mix_text(mix(digest, 2), text.as_slice()),
        Term::Number(number) => mix(mix(digest, 3), number.unsigned_abs()),
        Term::Words(text) => mix_text(mix(digest, 4), text.as_slice()),
    }
}

/// A number, changed by a query. It calls itself as deep as the query is.
fn mix_tree(digest: u64, query: &Rpn) -> u64
    ensures { result ≡ tree_mixed query.now digest }
{
    match &query.node {
        Node::Leaf(attributes, term) => {
            mix_term(mix_attributes(digest, attributes.as_slice()), term)
        }
        Node::Set(name) => mix_text(mix(digest, 5), name.as_slice()),
        Node::And(left, right) => mix_tree(mix_tree(mix(digest, 6), left), right),
        Node::Or(left, right) => mix_tree(mix_tree(mix(digest, 7), left), right),
        Node::AndNot(left, right) => mix_tree(mix_tree(mix(digest, 8), left), right),
    }
}
