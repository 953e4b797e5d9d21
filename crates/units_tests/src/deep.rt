//! Units of many levels, each with the length that its octets have.

use crate::units::{Unit, put_fault};
use case_files::{Answer, NoAnswer, octets_of_hex};
use std::alloc::Global;
use z_ber::{Tag, put_tree};
use z_types::{Request, Text};

/// What the deep Searches are made of: an operand, the operator or, the attribute set of bib-1, the
/// fields before the query, and those with a query.
const LEAF: &str = "a014bf6611bf2c0a30089f7801019f7901049f2d0161";

const OR: &str = "bf2e028000";

const BIB1: &str = "06072a8648ce130301";

const BOUNDS: &str = "8d01008e01018f01009001ff910131b20a9f690744656661756c74";

const FIELDS: &str =
    "8d01008e01018f01009001ff910131b20a9f690744656661756c74b521a11f06072a8648ce130301a014bf6611bf2c0a30089f7801019f7901049f2d0161";

/// Whether a call is one of these. Its answer is put at the end.
pub(crate) fn is_answered(
    alloc: Global,
    call: &str,
    words: &str,
    out: &mut Answer,
) -> Result<bool, NoAnswer> {
    let unit = match call {
        "right_operands" => right_operands(alloc, levels_of(words)?)?,
        "unknown_elements" => unknown_elements(alloc, levels_of(words)?)?,
        _ => return Ok(false),
    };
    put_read::<Request>(alloc, out, &unit)?;
    Ok(true)
}

/// The levels that words tell.
fn levels_of(words: &str) -> Result<u32, NoAnswer> {
    words.parse().or(Err(NoAnswer::Misspelt))
}

/// How many octets there are, and whether the request that they are is written in them, or why they are none.
fn put_read<U: Unit>(alloc: Global, out: &mut Answer, octets: &Text) -> Result<(), NoAnswer> {
    out.print(&octets.len());
    out.put(" octets ");
    match U::read(alloc, octets.as_slice()) {
        Ok(unit) => {
            let is_again = unit.write(alloc)? == *octets;
            out.put(if is_again {
                "written again"
            } else {
                "written as others"
            });
            Ok(())
        }
        Err(fault) => put_fault(out, fault),
    }
}

/// An element with a context tag round these digits, octets and digits.
fn round(
    alloc: Global,
    number: u8,
    before: &str,
    inner: &Text,
    behind: &str,
) -> Result<Text, NoAnswer> {
    let mut contents = octets_of_hex(alloc, before)?;
    contents.append(inner.as_slice())?;
    contents.append(octets_of_hex(alloc, behind)?.as_slice())?;
    let mut out = Text::new(alloc);
    put_tree(
        &mut out,
        Tag::constructed_context(u32::from(number)),
        contents.as_slice(),
    )?;
    Ok(out)
}

/// A Search of so many operators, each of which stands in the right operand of the one before it.
fn right_operands(alloc: Global, operators: u32) -> Result<Text, NoAnswer> {
    let mut structure = octets_of_hex(alloc, LEAF)?;
    for _ in 0..operators {
        structure = round(alloc, 1, LEAF, &structure, OR)?;
    }
    let query = round(alloc, 1, BIB1, &structure, "")?;
    let query = round(alloc, 21, "", &query, "")?;
    round(alloc, 22, BOUNDS, &query, "")
}

/// A Search with an element that is not known, of so many others, one in another.
fn unknown_elements(alloc: Global, levels: u32) -> Result<Text, NoAnswer> {
    let mut nest = octets_of_hex(alloc, "0500")?;
    for _ in 0..levels {
        nest = round(alloc, 0, "", &nest, "")?;
    }
    let nest = round(alloc, 99, "", &nest, "")?;
    round(alloc, 22, FIELDS, &nest, "")
}
