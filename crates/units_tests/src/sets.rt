//! A client's sets, and structures in which they are operands. A structure is words, each operator behind its
//! operands: `@and`, `@or` and `@not` join the two before them, a number is an operand of a term of so many
//! octets, `title` the operand `a` with an attribute, and any other word names a set.

use case_files::{Answer, NoAnswer};
use std::alloc::Global;
use z_sets::{ExpandFault, expand, find_set, remove_set, store_set};
use z_types::{Attr, KnownSet, List, Memory, Oid, Rpn, RpnQuery, Term, Text};

/// Whether a call is one of these. Its answer is put at the end.
pub(crate) fn is_answered(
    alloc: Global,
    call: &str,
    words: &str,
    out: &mut Answer,
) -> Result<bool, NoAnswer> {
    match call {
        "expand" => put_outcome(out, expansion_of(alloc, words, &sets(alloc)?)?),
        "expansion_over_p" => put_expansion(out, expansion_over_p(alloc, words)?),
        "remove_set" => put_left(alloc, out, words)?,
        _ => return Ok(false),
    }
    Ok(true)
}

/// That there is an expansion, or why there is none.
fn put_outcome(out: &mut Answer, outcome: Result<RpnQuery, ExpandFault>) {
    match outcome {
        Ok(_) => out.put("ok"),
        Err(fault) => put_fault(out, &fault),
    }
}

/// An expansion in prefix notation, or why there is none.
fn put_expansion(out: &mut Answer, outcome: Result<RpnQuery, ExpandFault>) {
    match outcome {
        Ok(query) => out.put_query(&query.root),
        Err(fault) => put_fault(out, &fault),
    }
}

/// Why there is no expansion.
fn put_fault(out: &mut Answer, fault: &ExpandFault) {
    out.print(&fault.number());
    out.put(" ");
    match fault {
        ExpandFault::UnknownSet(name) => out.put_quoted(name.as_slice()),
        ExpandFault::OtherLegs(name) => out.put_quoted(name.as_slice()),
        ExpandFault::TooLarge(nodes) => put_number(out, *nodes, " nodes"),
        ExpandFault::TooDeep(levels) => put_number(out, u64::from(*levels), " levels"),
        ExpandFault::TooCostly(cost) => put_number(out, *cost, " in cost"),
        ExpandFault::Memory => out.put("memory"),
    }
}

/// A number and what it is of.
fn put_number(out: &mut Answer, number: u64, of: &str) {
    out.print(&number);
    out.put(of);
}

/// The expansion of a structure, with the attribute set bib-1, over the legs 0 and 1.
fn expansion_of(
    alloc: Global,
    words: &str,
    sets: &List<KnownSet>,
) -> Result<Result<RpnQuery, ExpandFault>, NoAnswer> {
    let legs = legs(alloc, &[0, 1])?;
    let query = query(alloc, structure(alloc, words)?)?;
    Ok(expand(alloc, &query, &legs, sets))
}

/// The expansion of a structure in which the set `p` stands for the one before `>`.
fn expansion_over_p(alloc: Global, words: &str) -> Result<Result<RpnQuery, ExpandFault>, NoAnswer> {
    let Some((first, second)) = words.split_once(" > ") else {
        return Err(NoAnswer::Misspelt);
    };
    let mut sets = sets(alloc)?;
    match expansion_of(alloc, first, &sets)? {
        Ok(query) => store_set(alloc, &mut sets, set_of(alloc, b"p", query)?)?,
        Err(fault) => return Ok(Err(fault)),
    }
    expansion_of(alloc, second, &sets)
}

/// Whether the set of a name and others are found where that one is removed, and how many are left.
fn put_left(alloc: Global, out: &mut Answer, name: &str) -> Result<(), NoAnswer> {
    let mut sets = sets(alloc)?;
    remove_set(alloc, &mut sets, name.as_bytes());
    for other in ["n", "l", "c", "o", "e"] {
        if find_set(&sets, other.as_bytes()).is_some() {
            out.put(other);
            out.put(" ");
        }
    }
    out.put("of ");
    out.print(&sets.len());
    Ok(())
}

/// Sets of 2047 nodes (n), of 47 levels (l), and of a cost of 899999 (c), one of other attributes (o),
/// and one over other legs (e).
fn sets(alloc: Global) -> Result<List<KnownSet>, Memory> {
    let mut sets = List::new(alloc);
    for name in [b"n".as_slice(), b"l", b"c", b"o", b"e"] {
        let set = set_named(alloc, name)?;
        store_set(alloc, &mut sets, set)?;
    }
    Ok(sets)
}

/// The set of one of these names.
fn set_named(alloc: Global, name: &[u8]) -> Result<KnownSet, Memory> {
    let mut set = set_of(alloc, name, query_named(alloc, name)?)?;
    if name == b"e".as_slice() {
        set.legs = legs(alloc, &[1, 0])?;
    }
    Ok(set)
}

/// Its query.
fn query_named(alloc: Global, name: &[u8]) -> Result<RpnQuery, Memory> {
    let mut query = query(alloc, root_named(alloc, name)?)?;
    if name == b"o".as_slice() {
        query.attr_set = Oid::copy_of(alloc, &[1, 2, 3])?;
    }
    Ok(query)
}

/// The structure of that.
fn root_named(alloc: Global, name: &[u8]) -> Result<Rpn, Memory> {
    match name {
        b"n" => full(alloc, 11),
        b"l" => comb(alloc, 47),
        b"c" => {
            let term = Term::Words(Text::from_vec(vec![in alloc; 0; 899935]?));
            Ok(Rpn::leaf(List::new(alloc), term))
        }
        b"o" => title(alloc),
        _ => bare(alloc, b"a"),
    }
}

/// A structure whose sides are alike, of this many levels.
fn full(alloc: Global, levels: u32) -> Result<Rpn, Memory> {
    let mut tree = bare(alloc, b"")?;
    for _ in 1..levels {
        tree = Rpn::and(alloc, z_types::copy(&tree)?, tree)?;
    }
    Ok(tree)
}

/// A structure whose right sides are operands, of this many levels.
fn comb(alloc: Global, levels: u32) -> Result<Rpn, Memory> {
    let mut tree = bare(alloc, b"")?;
    for _ in 1..levels {
        tree = Rpn::or(alloc, tree, bare(alloc, b"")?)?;
    }
    Ok(tree)
}

/// An operand without attributes.
fn bare(alloc: Global, octets: &[u8]) -> Result<Rpn, Memory> {
    let term = Term::General(Text::copy_of(alloc, octets)?);
    Ok(Rpn::leaf(List::new(alloc), term))
}

/// An operand with one attribute.
fn title(alloc: Global) -> Result<Rpn, Memory> {
    let mut attrs = List::new(alloc);
    attrs.push(Attr {
        set: None,
        kind: 1,
        value: 4,
    })?;
    let term = Term::General(Text::copy_of(alloc, b"a")?);
    Ok(Rpn::leaf(attrs, term))
}

/// A query with the attribute set bib-1.
fn query(alloc: Global, root: Rpn) -> Result<RpnQuery, Memory> {
    Ok(RpnQuery {
        attr_set: Oid::copy_of(alloc, &[1, 2, 840, 10003, 3, 1])?,
        root,
    })
}

/// A set over the legs 0 and 1.
fn set_of(alloc: Global, name: &[u8], query: RpnQuery) -> Result<KnownSet, Memory> {
    Ok(KnownSet {
        name: Text::copy_of(alloc, name)?,
        legs: legs(alloc, &[0, 1])?,
        query,
        hits: legs(alloc, &[7, 8])?,
    })
}

fn legs(alloc: Global, places: &[u32]) -> Result<List<u32>, Memory> {
    Ok(List::from_vec(places.to_vec(alloc)?))
}

/// The structure that words are.
fn structure(alloc: Global, words: &str) -> Result<Rpn, NoAnswer> {
    let mut built = Vec::new(alloc);
    for word in words.split(' ') {
        let part = part_of(alloc, word, &mut built)?;
        built.push(part)?;
    }
    built.pop().ok_or(NoAnswer::Misspelt)
}

/// The structure that a word makes, of those that were built.
fn part_of(alloc: Global, word: &str, built: &mut Vec<Rpn>) -> Result<Rpn, NoAnswer> {
    if word.starts_with('@') {
        return joined(alloc, word, built);
    }
    if word == "title" {
        return Ok(title(alloc)?);
    }
    match word.parse::<usize>() {
        Ok(octets) => Ok(bare(alloc, vec![in alloc; 0; octets]?.as_slice())?),
        Err(_) => Ok(Rpn::operand(Text::copy_of(alloc, word.as_bytes())?)),
    }
}

/// The last two structures that were built, joined.
fn joined(alloc: Global, operator: &str, built: &mut Vec<Rpn>) -> Result<Rpn, NoAnswer> {
    match (built.pop(), built.pop(), operator) {
        (Some(right), Some(left), "@and") => Ok(Rpn::and(alloc, left, right)?),
        (Some(right), Some(left), "@or") => Ok(Rpn::or(alloc, left, right)?),
        (Some(right), Some(left), "@not") => Ok(Rpn::and_not(alloc, left, right)?),
        _ => Err(NoAnswer::Misspelt),
    }
}
