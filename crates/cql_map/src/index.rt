//! The Use attribute of an index (CQL 1.2, context sets).

ghost use Rattle.std.specs.Prelude.{◌≡◌, ◌++◌, false, IfOk, IfErr, Some, MatchOption};
ghost use Rattle.cql_map.specs.Names.{is_same_name, has_dot, prefix_of, IsPrefixOf, has_prefix};
ghost use Rattle.cql_map.specs.Indexes.{use_in, use_named, use_of, is_known_prefix};
ghost use Rattle.cql_map.specs.Faults.{index_faults, unknown_index, IsRefusal};

use crate::MapFault;
use crate::bib1::ANYWHERE;
use route_config::Index;
use std::alloc::Global;
use z_types::{Memory, Text};

/// Whether two names are one, without regard to the case of ASCII letters.
pub fn is_same_name(name: &[u8], other: &[u8]) -> bool
    ensures { result ≡ is_same_name name.now other.now }
{
    name.eq_ignore_ascii_case(other)
}

/// Whether a name is another behind a prefix.
#[tactic(auto, using(crate::proofs::NameLemmas::split_false))]
fn is_prefixed_name(full: &[u8], prefix: &[u8], name: &[u8]) -> bool
    ensures { result ≡ is_same_name full.now (prefix.now ++ name.now) }
{
    if full.len() < prefix.len() {
        return false;
    }
    is_same_name(&full[..prefix.len()], prefix) && is_same_name(&full[prefix.len()..], name)
}

/// The Use attribute of the first index of this name, behind a prefix.
#[tactic(auto, using(crate::proofs::NameLemmas::use_in_steps))]
fn use_in(indexes: &[Index], prefix: &[u8], name: &[u8]) -> Option<u32>
    ensures { result ≡ use_in indexes.now (prefix.now ++ name.now) }
{
    for index in indexes {
        if is_prefixed_name(index.name.as_slice(), prefix, name) {
            return Some(index.value);
        }
    }
    None
}

/// The Use attribute of a name, behind a prefix: `cql.serverChoice` is always 1016.
fn use_named(indexes: &[Index], prefix: &[u8], name: &[u8]) -> Option<u32>
    ensures { result ≡ use_named indexes.now (prefix.now ++ name.now) }
{
    if is_prefixed_name(b"cql.serverChoice", prefix, name) {
        Some(ANYWHERE)
    } else {
        use_in(indexes, prefix, name)
    }
}

/// What stands before the first dot of a name, where it has one.
#[tactic(auto, using(crate::proofs::NameLemmas::prefix_steps))]
fn prefix_of(name: &[u8]) -> Option<&[u8]>
    ensures { MatchOption result (has_dot name.now ≡ false) (λ p. IsPrefixOf name.now p.now) }
{
    for (index, octet) in name.iter().enumerate() {
        if *octet == b'.' {
            return Some(&name[..index]);
        }
    }
    None
}

/// Whether a name has this prefix.
fn has_prefix(name: &[u8], prefix: &[u8]) -> bool
    ensures { result ≡ has_prefix name.now prefix.now }
{
    match prefix_of(name) {
        Some(found) => is_same_name(found, prefix),
        None => false,
    }
}

/// Whether some index has this prefix, or it is `cql`.
#[tactic(auto, using(crate::proofs::NameLemmas::known_steps))]
fn is_known_prefix(indexes: &[Index], prefix: &[u8]) -> bool
    ensures { result ≡ is_known_prefix indexes.now prefix.now }
{
    for index in indexes {
        if has_prefix(index.name.as_slice(), prefix) {
            return true;
        }
    }
    is_same_name(b"cql", prefix)
}

/// The Use attribute of an index as a query writes it: without a prefix it is one of `dc`, else of `cql`.
fn use_of(indexes: &[Index], name: &[u8]) -> Option<u32>
    ensures { result ≡ use_of indexes.now name.now }
{
    if prefix_of(name).is_some() {
        return use_named(indexes, b"", name);
    }
    match use_named(indexes, b"dc.", name) {
        None => use_named(indexes, b"cql.", name),
        Some(value) => Some(value),
    }
}

/// The refusal of an index that there is not.
fn unknown_index(alloc: Global, indexes: &[Index], name: &[u8]) -> Result<MapFault, Memory>
    ensures { IfOk result (λ fault. fault ≡ unknown_index indexes.now name.now) }
{
    match prefix_of(name) {
        None => Ok(MapFault::Index(Text::copy_of(alloc, name)?)),
        Some(prefix) => {
            if is_known_prefix(indexes, prefix) {
                Ok(MapFault::Index(Text::copy_of(alloc, name)?))
            } else {
                Ok(MapFault::ContextSet(Text::copy_of(alloc, prefix)?))
            }
        }
    }
}

/// The Use attribute of an index as a query writes it, or why there is none.
pub fn read_index(alloc: Global, indexes: &[Index], name: &[u8]) -> Result<u32, MapFault>
    ensures value { IfOk result (λ value. use_of indexes.now name.now ≡ Some value) }
    ensures refused { IfErr result (IsRefusal (index_faults indexes.now name.now)) }
{
    match use_of(indexes, name) {
        Some(value) => Ok(value),
        None => Err(unknown_index(alloc, indexes, name)?),
    }
}
