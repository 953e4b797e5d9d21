//! Units in hexadecimal digits, each worked out by hand from ANSI/NISO Z39.50-2003, appendix A, and X.690;
//! and texts of HTTP, which are none.
//! The letter `a` as title is found at the records 4, 12 and 20 of the test target 0, the letter `b` at
//! ten, the letter `c` at seven.

use std::alloc::Global;
use z_types::{Memory, Text};

/// The octets of units, one behind another; what is no hexadecimal digits stands for its own.
pub(crate) fn octets_of(alloc: Global, units: &[&str]) -> Result<Text, Memory> {
    let mut octets = Text::new(alloc);
    for digits in units {
        append_digits(alloc, &mut octets, digits)?;
    }
    Ok(octets)
}

/// Appends the octets of digits, or of a text that is none.
fn append_digits(alloc: Global, octets: &mut Text, digits: &str) -> Result<(), Memory> {
    match hex::decode(alloc, digits) {
        Ok(decoded) => octets.append(decoded.as_slice()),
        Err(_) => octets.append(digits.as_bytes()),
    }
}

/// An Init, and its reply.
pub(crate) const INIT: &str = "b413830205e0840301fffe85031000008603100000";

pub(crate) const ACCEPTED: &str =
    "b529830205e0840301c102850310000086031000008c01ff9f6e026d709f6f07676174657761799f700131";

/// A Search of `Default` for `a` as title, for the set `1`, with no record to be shown; its octets behind
/// its header, without the last, which is the letter; and the replies where 1, 3, 4 and 10 records are
/// found.
pub(crate) const SEARCH: &str = "b63e8d01008e01018f01009001ff910131b20a9f690744656661756c74b521a11f\
06072a8648ce130301a014bf6611bf2c0a30089f7801019f7901049f2d0161";

pub(crate) const TO_LETTER: &str = "8d01008e01018f01009001ff910131b20a9f690744656661756c74b521a11f\
06072a8648ce130301a014bf6611bf2c0a30089f7801019f7901049f2d01";

pub(crate) const FOUND_1: &str = "b70c9701019801009901019601ff";

pub(crate) const FOUND_3: &str = "b70c9701039801009901019601ff";

pub(crate) const FOUND_4: &str = "b70c9701049801009901019601ff";

pub(crate) const FOUND_10: &str = "b70c97010a9801009901019601ff";

/// A Present of the first record of the set `1`, in XML, and the replies with the records 4 and 2 of the
/// target.
pub(crate) const PRESENT: &str = "b8159f1f01319e01019d01019f68082a8648ce13056d0a";

pub(crate) const SHOWN_4: &str = "b93a9801019901029b0100bc2f302d800744656661756c74a122a120281e\
06082a8648ce13056d0a81123c723e302e44656661756c742e343c2f723e";

pub(crate) const SHOWN_2: &str = "b93a9801019901029b0100bc2f302d800744656661756c74a122a120281e\
06082a8648ce13056d0a81123c723e302e44656661756c742e323c2f723e";

/// The reply to a Present that is out of range, and where its set is gone.
pub(crate) const OUT_OF_RANGE: &str = "b91b9801009901009b0105bf81020e06072a8648ce13040102010d1b00";

pub(crate) const GONE: &str = "b91b9801009901009b0105bf81020e06072a8648ce13040102011b1b00";

/// The replies to a Search whose link was cut, whose target is silent, and whose class is full.
pub(crate) const NO_LINK: &str =
    "b723970100980100990100960100bf81021306072a8648ce13040102016d1b05616c706861";

pub(crate) const NO_PATIENCE: &str =
    "b726970100980100990100960100bf81021606072a8648ce1304010201021b0870617469656e6365";

pub(crate) const NO_SESSION: &str =
    "b726970100980100990100960100bf81021606072a8648ce1304010201021b0873657373696f6e73";

/// A Close of reason 0, which is its own answer; of reason 4; and of reason 6.
pub(crate) const CLOSE: &str = "bf30059f81530100";

pub(crate) const CLOSE_LIMIT: &str = "bf30059f81530104";

pub(crate) const CLOSE_BAD: &str = "bf30059f81530106";
