//! Searches, records and scans of the test targets whose answers were worked out by hand from their meaning: `a` is
//! found at every eighth record, `b` at every second, `c` at every third, `-1` at every fifth.

use self::Part::{And, AndNot, General, Number, Or, Set, Words};
use gw_outside::{TargetAnswer, Targets};
use std::alloc::Global;
use std::test::Fail;
use test_target::TestWorld;
use z_types::{
    Address, Attr, Item, List, Memory, Oid, Rpn, RpnQuery, ScanAnswer, ScanAsk, Term, Text,
};

/// A part of a structure. An operator stands behind its operands, and joins the two before it.
#[derive(Clone, Copy)]
enum Part {
    /// An operand of these attributes, each a type and a value, and a general term.
    General(&'static [(u32, u32)], &'static str),
    /// The same of words.
    Words(&'static [(u32, u32)], &'static str),
    /// The same of a number.
    Number(&'static [(u32, u32)], i64),
    /// A set of the client's.
    Set,
    And,
    Or,
    AndNot,
}

/// The attribute Use with the values title, subject, and one that no test target has.
const TITLE: &[(u32, u32)] = &[(1, 4)];

const SUBJECT: &[(u32, u32)] = &[(1, 21)];

const OTHER: &[(u32, u32)] = &[(1, 5)];

/// Attributes as a list.
fn attributes(alloc: Global, attrs: &[(u32, u32)]) -> Result<List<Attr>, Memory> {
    let mut list = List::new(alloc);
    for (kind, value) in attrs {
        list.push(Attr {
            set: None,
            kind: *kind,
            value: *value,
        })?;
    }
    Ok(list)
}

/// An operand.
fn operand(alloc: Global, attrs: &[(u32, u32)], term: Term) -> Result<Rpn, Memory> {
    Ok(Rpn::leaf(attributes(alloc, attrs)?, term))
}

/// Two operands, joined by an operator.
fn joined(alloc: Global, operator: Part, left: Rpn, right: Rpn) -> Result<Rpn, Memory> {
    match operator {
        And => Rpn::and(alloc, left, right),
        Or => Rpn::or(alloc, left, right),
        _ => Rpn::and_not(alloc, left, right),
    }
}

/// The last two structures, joined by an operator.
fn last_joined(alloc: Global, operator: Part, built: &mut Vec<Rpn>) -> Result<Rpn, Memory> {
    match (built.pop(), built.pop()) {
        (Some(right), Some(left)) => joined(alloc, operator, left, right),
        _ => Err(Memory),
    }
}

/// The structure that a part makes, of those that were built.
fn part_of(alloc: Global, part: Part, built: &mut Vec<Rpn>) -> Result<Rpn, Memory> {
    match part {
        General(attrs, word) => {
            let text = Text::copy_of(alloc, word.as_bytes())?;
            operand(alloc, attrs, Term::General(text))
        }
        Words(attrs, words) => {
            let text = Text::copy_of(alloc, words.as_bytes())?;
            operand(alloc, attrs, Term::Words(text))
        }
        Number(attrs, number) => operand(alloc, attrs, Term::Number(number)),
        Set => Ok(Rpn::operand(Text::copy_of(alloc, b"s")?)),
        operator => last_joined(alloc, operator, built),
    }
}

/// A query of the attribute set bib-1 of these parts.
fn query(alloc: Global, parts: &[Part]) -> Result<RpnQuery, Memory> {
    let attr_set = Oid::copy_of(alloc, &[1, 2, 840, 10003, 3, 1])?;
    let mut built = Vec::new(alloc);
    for part in parts {
        let structure = part_of(alloc, *part, &mut built)?;
        built.push(structure)?;
    }
    match built.pop() {
        Some(root) => Ok(RpnQuery { attr_set, root }),
        None => Err(Memory),
    }
}

/// Texts of these names.
fn databases(alloc: Global, names: &[&str]) -> Result<List<Text>, Memory> {
    let mut texts = List::new(alloc);
    for name in names {
        texts.push(Text::copy_of(alloc, name.as_bytes())?)?;
    }
    Ok(texts)
}

/// The test target of a number, or a target over TCP.
fn address(alloc: Global, target: Option<u32>) -> Result<Address, Memory> {
    match target {
        Some(number) => Ok(Address::Test(number)),
        None => Ok(Address::Tcp(Text::copy_of(alloc, b"a")?, 210)),
    }
}

/// The hits of a search, or the number of its diagnostic, and what that is about.
fn answer_to(
    alloc: Global,
    address: &Address,
    names: &List<Text>,
    query: &RpnQuery,
) -> Result<(u32, Text), Memory> {
    match TestWorld.search(alloc, address, names, query) {
        TargetAnswer::Good(hits) => Ok((hits, Text::new(alloc))),
        TargetAnswer::Refused(diag) => Ok((diag.condition, diag.addinfo)),
        TargetAnswer::Memory => Err(Memory),
    }
}

/// A target, none for one over TCP, the databases, the structure, and the hits, or the number of the
/// diagnostic and what that is about.
type Search = (
    Option<u32>,
    &'static [&'static str],
    &'static [Part],
    (u32, &'static str),
);

/// Whether a search is answered so.
fn is_answered((target, names, parts, wanted): Search, alloc: Global) -> Result<bool, Memory> {
    let address = address(alloc, target)?;
    let names = databases(alloc, names)?;
    let query = query(alloc, parts)?;
    let (number, about) = answer_to(alloc, &address, &names, &query)?;
    Ok(number == wanted.0 && about.as_slice() == wanted.1.as_bytes())
}

const DEFAULT: &[&str] = &["Default"];

const SMALL: &[&str] = &["Small"];

const SEARCHES: [Search; 21] = [
    // a word
    (Some(0), DEFAULT, &[General(TITLE, "a")], (3, "")),
    (Some(0), DEFAULT, &[General(TITLE, "b")], (10, "")),
    (Some(5), DEFAULT, &[General(TITLE, "b")], (13, "")),
    (Some(80), DEFAULT, &[General(TITLE, "b")], (10, "")),
    (Some(0), DEFAULT, &[General(TITLE, "c")], (7, "")),
    (Some(0), DEFAULT, &[General(SUBJECT, "c")], (6, "")),
    (Some(1), SMALL, &[General(TITLE, "a")], (1, "")),
    (Some(0), &["Empty"], &[General(TITLE, "b")], (0, "")),
    // a database that is named again counts again
    (
        Some(0),
        &["Default", "Small", "Default", "Empty"],
        &[General(TITLE, "b")],
        (21, ""),
    ),
    (Some(0), &[], &[General(TITLE, "b")], (0, "")),
    // 2, 8, 14 and 20
    (
        Some(0),
        DEFAULT,
        &[General(TITLE, "b"), General(TITLE, "c"), And],
        (4, ""),
    ),
    // three and seven, of which 20 is one
    (
        Some(0),
        DEFAULT,
        &[General(TITLE, "a"), General(TITLE, "c"), Or],
        (9, ""),
    ),
    // 5, 11 and 17
    (
        Some(0),
        DEFAULT,
        &[General(TITLE, "c"), General(TITLE, "b"), AndNot],
        (3, ""),
    ),
    // Use is the first of its type: 1, 6, 11 and 16
    (
        Some(0),
        DEFAULT,
        &[Number(&[(2, 3), (1, 4), (1, 5)], -1)],
        (4, ""),
    ),
    // and any where it is absent: 8 and 16
    (Some(0), DEFAULT, &[Words(&[(4, 1)], "a")], (2, "")),
    // a database that is not there, before a Use that is not
    (
        Some(0),
        &["Small", "default", "Nope"],
        &[General(OTHER, "a")],
        (235, "default"),
    ),
    (Some(0), SMALL, &[General(OTHER, "a")], (114, "5")),
    (Some(0), SMALL, &[Set], (30, "s")),
    // from the left
    (
        Some(0),
        SMALL,
        &[General(TITLE, "a"), Set, And, General(OTHER, "a"), Or],
        (30, "s"),
    ),
    (Some(0), SMALL, &[General(OTHER, "a"), Set, And], (114, "5")),
    // a target that is no test target is not there
    (None, SMALL, &[General(TITLE, "a")], (109, "")),
];

#[test]
fn searches_have_their_hits_or_name_what_is_not_there(rt: HostRuntime) -> Result<(), Fail> {
    for (place, search) in SEARCHES.iter().enumerate() {
        assert!(rt; is_answered(*search, rt.alloc())?, "at {place}");
    }
    Ok(())
}

/// The octets of a record that a search finds in target 5, or what its diagnostic is about.
fn octets_of(
    alloc: Global,
    (names, query): (&List<Text>, &RpnQuery),
    position: u32,
    syntax: Option<&Oid>,
    element: Option<&Text>,
) -> Result<Text, Memory> {
    let at = Address::Test(5);
    match TestWorld.record_(alloc, &at, names, query, position, syntax, element) {
        TargetAnswer::Good(Item::Record { bytes, .. }) => Ok(bytes),
        TargetAnswer::Good(Item::Surrogate(diag)) => Ok(diag.addinfo),
        TargetAnswer::Refused(diag) => Ok(diag.addinfo),
        TargetAnswer::Memory => Err(Memory),
    }
}

/// The same of a record that `b` finds in `Default`.
fn octets(
    alloc: Global,
    position: u32,
    syntax: Option<&Oid>,
    element: Option<&Text>,
) -> Result<Text, Memory> {
    let query = query(alloc, &[General(TITLE, "b")])?;
    let names = databases(alloc, DEFAULT)?;
    octets_of(alloc, (&names, &query), position, syntax, element)
}

/// A record's position, its syntax, by its arcs behind 1.2.840.10003.5, its element set name, and its
/// octets.
type Record = (u32, Option<u32>, Option<&'static str>, &'static [u8]);

/// Whether a record is these octets.
fn is_record((position, syntax, element, wanted): Record, alloc: Global) -> Result<bool, Memory> {
    let syntax = match syntax {
        Some(arc) => Some(Oid::copy_of(alloc, &[1, 2, 840, 10003, 5, arc])?),
        None => None,
    };
    let element = match element {
        Some(name) => Some(Text::copy_of(alloc, name.as_bytes())?),
        None => None,
    };
    let octets = octets(alloc, position, syntax.as_ref(), element.as_ref())?;
    Ok(octets.as_slice() == wanted)
}

const RECORDS: [Record; 4] = [
    (1, None, None, b"<r>5.Default.1</r>"),
    // broken
    (7, None, None, b"13"),
    // SUTRS
    (2, Some(101), Some("B"), b"\x1b\x013"),
    // another syntax
    (1, Some(10), None, b"1.2.840.10003.5.10"),
];

#[test]
fn a_record_has_its_form(rt: HostRuntime) -> Result<(), Fail> {
    for record in RECORDS {
        assert!(rt; is_record(record, rt.alloc())?, "{at}", at = record.0);
    }
    Ok(())
}

/// The answer to a scan of these databases of target 0.
fn scan_of(alloc: Global, names: &List<Text>, ask: &ScanAsk) -> Result<ScanAnswer, Memory> {
    match TestWorld.scan(alloc, &Address::Test(0), names, ask) {
        TargetAnswer::Good(answer) => Ok(answer),
        TargetAnswer::Refused(_) => Err(Memory),
        TargetAnswer::Memory => Err(Memory),
    }
}

/// A scan of `Default` of target 0 by any Use from `c` on, for five entries with the asked term second.
fn scan(alloc: Global) -> Result<ScanAnswer, Memory> {
    let ask = ScanAsk {
        attr_set: None,
        attrs: List::new(alloc),
        term: Term::General(Text::copy_of(alloc, b"c")?),
        step: None,
        number: 5,
        position: Some(2),
    };
    let names = databases(alloc, DEFAULT)?;
    scan_of(alloc, &names, &ask)
}

/// Whether a scan has its term second, and these occurrences.
fn has_occurrences(alloc: Global, occurrences: &[u32]) -> Result<bool, Memory> {
    let answer = scan(alloc)?;
    let entries = answer.entries.as_slice();
    Ok(
        answer.position == Some(2)
            && entries.len() == occurrences.len()
            && entries
                .iter()
                .zip(occurrences)
                .all(|(entry, wanted)| entry.occurrences == Some(*wanted)),
    )
}

#[test]
fn a_scan_begins_before_its_term(rt: HostRuntime) -> Result<(), Fail> {
    assert!(rt; has_occurrences(rt.alloc(), &[10, 7, 5, 4, 3])?);
    Ok(())
}
