//! What a query finds at a test target.

ghost use Rattle.std.specs.Prelude.{◌≡◌, ◌+◌, ◌%◌, ◌<◌, ◌≤◌, ◌==◌, ◌&&◌, ◌||◌, not, length, map, filter, take, sum_by, min, IfOk, false, [], ◌∷◌};
ghost use Rattle.std.specs.List.{range_with_len, zip};
ghost use Rattle.z_types.specs.Bounds.{most_number};
ghost use Rattle.z_types.specs.Tree.{leaf};
ghost use Rattle.z_types.specs.declared.query.Term.TheVariants.{General};
ghost use Rattle.test_target.specs.Searches.{finds, use_fault, operand_fault, found_of, hits};

use crate::databases::{MOST_IN_DATABASE, size_of};
use crate::operands::{is_use, letter_modulus, modulus, use_of};
use std::alloc::Global;
use z_types::{Attr, Condition, Diag, List, MOST_NUMBER, Memory, Node, Rpn, Text, copy};

/// The first operand from the left that cannot be answered, as its diagnostic.
pub(crate) fn find_fault(alloc: Global, query: &Rpn) -> Result<Option<Diag>, Memory>
    ensures { IfOk result (λ fault. fault ≡ operand_fault query.now) }
{
    match &query.node {
        Node::Leaf(attrs, _) => use_fault(alloc, use_of(attrs)),
        Node::Set(name) => Ok(Some(Diag::bib1(
            alloc,
            Condition::ResultSetDoesNotExist,
            copy(name)?,
        )?)),
        Node::And(left, right) => match find_fault(alloc, left)? {
            Some(fault) => Ok(Some(fault)),
            None => find_fault(alloc, right),
        },
        Node::Or(left, right) => match find_fault(alloc, left)? {
            Some(fault) => Ok(Some(fault)),
            None => find_fault(alloc, right),
        },
        Node::AndNot(left, right) => match find_fault(alloc, left)? {
            Some(fault) => Ok(Some(fault)),
            None => find_fault(alloc, right),
        },
    }
}

/// The fault of a Use attribute, if the targets do not have it.
pub(crate) fn use_fault(alloc: Global, value: u32) -> Result<Option<Diag>, Memory>
    ensures { IfOk result (λ fault. fault ≡ use_fault value) }
{
    if is_use(value) {
        return Ok(None);
    }
    let text = Text::from_vec(format!(in alloc; "{value}")?.into_bytes());
    Ok(Some(Diag::bib1(alloc, Condition::UnsupportedUseAttribute, text)?))
}

/// Which of the records 1 to `MOST_IN_DATABASE` a query finds.
pub(crate) fn found(alloc: Global, target: u32, query: &Rpn) -> Result<Vec<bool>, Memory>
    ensures { IfOk result
        (λ found. found.items ≡ map (finds target query.now) (range_with_len 1 MOST_IN_DATABASE)) }
{
    match &query.node {
        Node::Leaf(attrs, term) => {
            let every = modulus(alloc, term)?;
            found_by_operand(alloc, target, use_of(attrs), every)
        }
        Node::Set(_) => none_found(alloc),
        Node::And(left, right) => {
            let left = found(alloc, target, left)?;
            let right = found(alloc, target, right)?;
            both(alloc, left.as_slice(), right.as_slice())
        }
        Node::Or(left, right) => {
            let left = found(alloc, target, left)?;
            let right = found(alloc, target, right)?;
            either(alloc, left.as_slice(), right.as_slice())
        }
        Node::AndNot(left, right) => {
            let left = found(alloc, target, left)?;
            let right = found(alloc, target, right)?;
            first_alone(alloc, left.as_slice(), right.as_slice())
        }
    }
}

/// Which records an operand finds, whose Use and modulus are these.
fn found_by_operand(alloc: Global, target: u32, value: u32, every: u32) -> Result<Vec<bool>, Memory>
    requires { 0 < every }
    ensures { IfOk result
        (λ found. found.items
        ≡ map (λ i. ((i + target + value) % every) == 0) (range_with_len 1 MOST_IN_DATABASE)) }
{
    let mut found = Vec::new(alloc);
    for place in 0..MOST_IN_DATABASE {
        let sum = u64::from(place) + 1 + u64::from(target) + u64::from(value);
        found.push(sum % u64::from(every) == 0)?;
    }
    Ok(found)
}

/// No record is found.
fn none_found(alloc: Global) -> Result<Vec<bool>, Memory>
    ensures { IfOk result
        (λ found. found.items ≡ map (λ i. false) (range_with_len 1 MOST_IN_DATABASE)) }
{
    Ok(vec![in alloc; false; MOST_IN_DATABASE as usize]?)
}

/// The records of both.
fn both(alloc: Global, left: &[bool], right: &[bool]) -> Result<Vec<bool>, Memory>
    ensures { IfOk result (λ found. found.items ≡ map (λ p. p.0 && p.1) (zip left.now right.now)) }
{
    let records = left.iter().zip(right).map(|(left, right)| *left && *right);
    Ok(records.collect(alloc)?)
}

/// The records of one or the other.
fn either(alloc: Global, left: &[bool], right: &[bool]) -> Result<Vec<bool>, Memory>
    ensures { IfOk result (λ found. found.items ≡ map (λ p. p.0 || p.1) (zip left.now right.now)) }
{
    let records = left.iter().zip(right).map(|(left, right)| *left || *right);
    Ok(records.collect(alloc)?)
}

/// The records of the first and not of the second.
fn first_alone(alloc: Global, left: &[bool], right: &[bool]) -> Result<Vec<bool>, Memory>
    ensures { IfOk result
        (λ found. found.items ≡ map (λ p. p.0 && not p.1) (zip left.now right.now)) }
{
    let records = left.iter().zip(right).map(|(left, right)| *left && !*right);
    Ok(records.collect(alloc)?)
}

/// How many of the first records are found.
fn count_found(found: &[bool], size: u32) -> usize
    requires { size ≤ length found.now }
    ensures value { result ≡ length (filter (λ is_found. is_found) (take size found.now)) }
    ensures bound { result ≤ size }
{
    found[..size as usize]
        .iter()
        .filter(|is_found| **is_found)
        .count()
}

/// How many records a query finds in databases, at most `MOST_NUMBER`.
pub(crate) fn hits(
    alloc: Global,
    target: u32,
    query: &Rpn,
    names: &List<Text>,
) -> Result<u32, Memory>
    ensures { IfOk result (λ count. count ≡ hits target query.now names.now) }
{
    let found = found(alloc, target, query)?;
    Ok(count_hits(target, found.as_slice(), names))
}

/// How many records the word of one letter finds in databases, at most `MOST_NUMBER`.
pub(crate) fn letter_hits(
    alloc: Global,
    target: u32,
    attrs: &List<Attr>,
    letter: u8,
    names: &List<Text>,
) -> Result<u32, Memory>
    ensures { IfOk result
        (λ count. count ≡ hits target (leaf attrs.now (General (letter ∷ []))) names.now) }
{
    let found = found_by_letter(alloc, target, attrs, letter)?;
    Ok(count_hits(target, found.as_slice(), names))
}

/// Which records the word of one letter finds.
fn found_by_letter(
    alloc: Global,
    target: u32,
    attrs: &List<Attr>,
    letter: u8,
) -> Result<Vec<bool>, Memory>
    ensures { IfOk result
        (λ found. found.items
        ≡ map (finds target (leaf attrs.now (General (letter ∷ []))))
        (range_with_len 1 MOST_IN_DATABASE)) }
{
    found_by_operand(alloc, target, use_of(attrs), letter_modulus(letter))
}

/// How many records of databases are found, at most `MOST_NUMBER`.
fn count_hits(target: u32, found: &[bool], names: &List<Text>) -> u32
    requires { length found.now ≡ MOST_IN_DATABASE }
    ensures { result ≡ min (sum_by (found_of target found.now) names.now) most_number }
{
    let mut hits = 0;
    for name in names.as_slice() {
        let size = size_of(target, name).unwrap_or(0);
        hits = (hits + count_found(found, size)).min(MOST_NUMBER as usize);
    }
    hits as u32
}
