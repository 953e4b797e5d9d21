//! Units that are refused, that end their connection, and that reach a limit.

use crate::plays::Step::{Ask, Ends, Feed, Steps, Wrote};
use crate::pools::{SMALLEST, Story, other_way};
use crate::units::{
    ACCEPTED, CLOSE_BAD, CLOSE_LIMIT, FOUND_3, INIT, OUT_OF_RANGE, PRESENT, SEARCH, SHOWN_4,
    TO_LETTER,
};
use front_conn::Stepped::{Idle, Went};
use route_config::SMALLEST_TEXT;
use std::test::Fail;
use z_types::End::{Cut, Finished, Limited, Malformed};
use z_types::Mark::Plain;

/// Presents of two records from 3 on, of none from 4 on, and of one from 0 on; and the reply to the second.
const PRESENT_3_2: &str = "b8159f1f01319e01039d01029f68082a8648ce13056d0a";

const PRESENT_4_0: &str = "b8159f1f01319e01049d01009f68082a8648ce13056d0a";

const PRESENT_0_1: &str = "b8159f1f01319e01009d01019f68082a8648ce13056d0a";

const SHOWN_NONE: &str = "b9099801009901009b0100";

/// A Search for the set `1` that may not replace it, and its reply where there is one.
const KEEP: &str = "b63e8d01008e01018f0100900100910131b20a9f690744656661756c74b521a11f\
06072a8648ce130301a014bf6611bf2c0a30089f7801019f7901049f2d0162";

const KEPT: &str = "b71f970100980100990100960100bf81020f06072a8648ce1304010201151b0131";

/// Searches of the set `x`, by a query of type 2, and of the database `Nope`; and their replies.
const OF_SET_X: &str = "b62e8d01008e01018f01009001ff910131b20a9f690744656661756c74b511a10f\
06072a8648ce130301a0049f1f0178";

const NO_SET_X: &str = "b71f970100980100990100960100bf81020f06072a8648ce13040102011e1b0178";

const TYPE_2: &str = "b6208d01008e01018f01009001ff910131b20a9f690744656661756c74b503820161";

const NO_TYPE_2: &str = "b71f970100980100990100960100bf81020f06072a8648ce13040102016b1b0132";

const OF_NOPE: &str = "b63b8d01008e01018f01009001ff910131b2079f69044e6f7065b521a11f\
06072a8648ce130301a014bf6611bf2c0a30089f7801019f7901049f2d0161";

const NO_NOPE: &str = "b723970100980100990100960100bf81021306072a8648ce130401020200eb1b044e6f7065";

/// What a story is about, its configuration, and its steps.
const STORIES: [Story; 6] = [
    (
        "Presents at and past the end",
        SMALLEST,
        &[
            Ask(&[INIT, SEARCH, PRESENT], &[ACCEPTED, FOUND_3, SHOWN_4]),
            Feed(&[PRESENT_3_2]),
            Steps(&[Went, Idle]),
            Wrote(&[OUT_OF_RANGE]),
            Ask(&[PRESENT_4_0, PRESENT_0_1], &[SHOWN_NONE, OUT_OF_RANGE]),
            Ends(
                &[Plain, Plain, Plain, Plain, Plain, Plain],
                Finished,
                &[[1, 1, 0, 0]],
            ),
        ],
    ),
    (
        "a set that may not be replaced",
        SMALLEST,
        &[
            Ask(&[INIT, SEARCH], &[ACCEPTED, FOUND_3]),
            Feed(&[KEEP]),
            Steps(&[Went, Idle]),
            Wrote(&[KEPT]),
            Ask(&[PRESENT], &[SHOWN_4]),
            Ends(&[Plain, Plain, Plain, Plain], Finished, &[[1, 1, 0, 0]]),
        ],
    ),
    (
        "Searches that are refused leave the sets as they were",
        SMALLEST,
        &[
            Ask(&[INIT, SEARCH], &[ACCEPTED, FOUND_3]),
            Ask(
                &[OF_SET_X, TYPE_2, OF_NOPE],
                &[NO_SET_X, NO_TYPE_2, NO_NOPE],
            ),
            Ask(&[PRESENT], &[SHOWN_4]),
            Ends(
                &[Plain, Plain, Plain, Plain, Plain, Plain],
                Finished,
                &[[1, 1, 0, 0]],
            ),
        ],
    ),
    (
        "a Search whose inner length is past its end",
        SMALLEST,
        &[
            Ask(&[INIT, "b6058d04000000", SEARCH], &[ACCEPTED, CLOSE_BAD]),
            Ends(&[Plain], Malformed(21), &[[0, 0, 0, 0]]),
        ],
    ),
    (
        "a Search without its last octet",
        SMALLEST,
        &[
            Ask(&[INIT, "b63e", TO_LETTER], &[ACCEPTED]),
            Ends(&[Plain], Cut(63), &[[0, 0, 0, 0]]),
        ],
    ),
    (
        "a unit beyond the last",
        &[SMALLEST_TEXT, b"[limit]\nunits = 2\n"],
        &[
            Ask(&[INIT, SEARCH, PRESENT], &[ACCEPTED, FOUND_3, CLOSE_LIMIT]),
            Ends(&[Plain, Plain], Limited, &[[1, 1, 0, 0]]),
        ],
    ),
];

#[test]
fn what_is_refused_asks_no_target(rt: HostRuntime) -> Result<(), Fail> {
    for (about, config, steps) in STORIES {
        assert_eq!(rt; other_way(rt.alloc(), config, steps)?, None, "{about}");
    }
    Ok(())
}
