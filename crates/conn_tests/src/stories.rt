//! Sessions of one client and of two whose requests are answered as the targets mean them, and what happens
//! to a result set between its Search and a Present.

use crate::plays::Step::{self, Ask, Cut, Ends, FeedEach, Gone, Other, Tick, Wrote};
use crate::pools::{SMALLEST, Story, THREE_LEGS, other_way};
use crate::units::{
    ACCEPTED, FOUND_1, FOUND_3, FOUND_4, FOUND_10, GONE, INIT, PRESENT, SEARCH, SHOWN_2, SHOWN_4,
    TO_LETTER,
};
use route_config::SMALLEST_TEXT;
use std::test::Fail;
use z_types::End::Finished;
use z_types::Mark;
use z_types::Mark::{Gone as Deleted, Plain};

/// A Search for the set `default`, but for its letter; and one for the set `1`, of those records of that
/// set which have `c` as title.
const DEFAULT_TO_LETTER: &str =
    "b6448d01008e01018f01009001ff910764656661756c74b20a9f690744656661756c74\
b521a11f06072a8648ce130301a014bf6611bf2c0a30089f7801019f7901049f2d01";

const AND_C: &str =
    "b6518d01008e01018f01009001ff910131b20a9f690744656661756c74b534a13206072a8648ce130301\
a127a00a9f1f0764656661756c74a014bf6611bf2c0a30089f7801019f7901049f2d0163bf2e028000";

/// A Search for the set `A`, one for the set `B` of the letter `b`, and a Present of each.
const SEARCH_A: &str = "b63e8d01008e01018f01009001ff910141b20a9f690744656661756c74b521a11f\
06072a8648ce130301a014bf6611bf2c0a30089f7801019f7901049f2d0161";

const SEARCH_B: &str = "b63e8d01008e01018f01009001ff910142b20a9f690744656661756c74b521a11f\
06072a8648ce130301a014bf6611bf2c0a30089f7801019f7901049f2d0162";

const PRESENT_A: &str = "b8159f1f01419e01019d01019f68082a8648ce13056d0a";

const PRESENT_B: &str = "b8159f1f01429e01019d01019f68082a8648ce13056d0a";

/// A Search of indefinite length, as is its query.
const INDEFINITE: &str = "b6808d01008e01018f01009001ff910131b20a9f690744656661756c74b580a1811f\
06072a8648ce130301a014bf6611bf2c0a30089f7801019f7901049f2d016100000000";

/// A Present of four records, and its reply, in the order of ranks and then of legs.
const PRESENT_FOUR: &str = "b8159f1f01319e01019d01049f68082a8648ce13056d0a";

const SHOWN_FOUR: &str = "b981c89801049901009b0100bc81bc302d800744656661756c74a122a120281e\
06082a8648ce13056d0a81123c723e302e44656661756c742e343c2f723e302b800744656661756c74a120a11e281c\
06082a8648ce13056d0a81103c723e312e536d616c6c2e333c2f723e302e800744656661756c74a123a121281f\
06082a8648ce13056d0a81133c723e302e44656661756c742e31323c2f723e302e800744656661756c74a123a121281f\
06082a8648ce13056d0a81133c723e302e44656661756c742e32303c2f723e";

/// A Search for the set `1` whose Use attribute the targets lack, and its reply; and the reply to a Present
/// of no set.
const LACKED: &str = "b63e8d01008e01018f01009001ff910131b20a9f690744656661756c74b521a11f\
06072a8648ce130301a014bf6611bf2c0a30089f7801019f7901639f2d0161";

const NO_USE: &str = "b720970100980100990100960100bf81021006072a8648ce1304010201721b023939";

const NO_SET: &str = "b91c9801009901009b0105bf81020f06072a8648ce13040102011e1b0131";

/// What a story is about, its configuration, and its steps.
const STORIES: [Story; 8] = [
    (
        "an Init alone",
        SMALLEST,
        &[
            Ask(&[INIT], &[ACCEPTED]),
            Ends(&[Plain], Finished, &[[0, 0, 0, 0]]),
        ],
    ),
    (
        "a search and a record in one piece",
        SMALLEST,
        &[
            Ask(&[INIT, SEARCH, PRESENT], &[ACCEPTED, FOUND_3, SHOWN_4]),
            Ends(&[Plain, Plain, Plain], Finished, &[[1, 1, 0, 0]]),
        ],
    ),
    (
        "two clients in turn, each with its referenceId",
        SMALLEST,
        &[
            Ask(&[INIT], &[ACCEPTED]),
            Other,
            Ask(&[INIT], &[ACCEPTED]),
            Other,
            Ask(
                &["b641820131", TO_LETTER, "61"],
                &["b70f8201319701039801009901019601ff"],
            ),
            Other,
            Ask(
                &["b641820132", TO_LETTER, "61"],
                &["b70f8201329701039801009901019601ff"],
            ),
            Ends(&[Plain, Plain], Finished, &[[0, 0, 0, 0]]),
            Other,
            Ends(&[Plain, Plain], Finished, &[[1, 1, 0, 0]]),
        ],
    ),
    (
        "two sets of one name, each its client's own",
        SMALLEST,
        &[
            Ask(&[INIT, DEFAULT_TO_LETTER, "61"], &[ACCEPTED, FOUND_3]),
            Other,
            Ask(&[INIT, DEFAULT_TO_LETTER, "62"], &[ACCEPTED, FOUND_10]),
            Other,
            Ask(&[AND_C], &[FOUND_1]),
            Ends(&[Plain, Plain, Plain], Finished, &[[1, 2, 0, 0]]),
            Other,
            Ask(&[AND_C], &[FOUND_4]),
            Ends(&[Plain, Plain, Plain], Finished, &[[0, 2, 0, 0]]),
        ],
    ),
    (
        "a set that is replaced by a search that fails",
        SMALLEST,
        &[
            Ask(&[INIT, SEARCH, PRESENT], &[ACCEPTED, FOUND_3, SHOWN_4]),
            Ask(&[LACKED, PRESENT], &[NO_USE, NO_SET]),
            Ends(
                &[Plain, Plain, Plain, Plain, Plain],
                Finished,
                &[[1, 2, 0, 0]],
            ),
        ],
    ),
    (
        "two sets by a session that holds one",
        &[SMALLEST_TEXT, b"[pool]\nsets_max = 1\n"],
        &[
            Ask(&[INIT, SEARCH_A, SEARCH_B], &[ACCEPTED, FOUND_3, FOUND_10]),
            Ask(&[PRESENT_A, PRESENT_B], &[SHOWN_4, SHOWN_2]),
            Ends(
                &[Plain, Plain, Plain, Plain, Plain],
                Finished,
                &[[1, 4, 0, 0]],
            ),
        ],
    ),
    (
        "the records of three legs, of which one has none",
        THREE_LEGS,
        &[
            Ask(&[INIT, SEARCH], &[ACCEPTED, FOUND_4]),
            Ask(&[PRESENT_FOUR], &[SHOWN_FOUR]),
            Ends(
                &[Plain, Plain, Plain],
                Finished,
                &[[1, 1, 0, 0], [1, 1, 0, 0], [1, 1, 0, 0]],
            ),
        ],
    ),
    (
        "indefinite lengths, an octet at a time",
        SMALLEST,
        &[
            FeedEach(&[INIT, INDEFINITE]),
            Wrote(&[ACCEPTED, FOUND_3]),
            Ends(&[Plain, Plain], Finished, &[[1, 1, 0, 0]]),
        ],
    ),
];

#[test]
fn requests_are_answered_as_the_targets_mean_them(rt: HostRuntime) -> Result<(), Fail> {
    for (about, config, steps) in STORIES {
        assert_eq!(rt; other_way(rt.alloc(), config, steps)?, None, "{about}");
    }
    Ok(())
}

/// What happens between a Search and a Present: sets that are gone are searched for again twice, a link that
/// is cut is dialled again, and a set is held until its time to live. The reply, its mark, and the totals.
const BETWEEN: [(Step, &[&str], &[Mark], &[[u64; 4]]); 6] = [
    (
        Gone(0, 1),
        &[SHOWN_4],
        &[Plain, Plain, Plain],
        &[[1, 2, 1, 0]],
    ),
    (
        Gone(0, 2),
        &[SHOWN_4],
        &[Plain, Plain, Plain],
        &[[1, 3, 2, 0]],
    ),
    (
        Gone(0, 3),
        &[GONE],
        &[Plain, Plain, Deleted],
        &[[1, 3, 3, 0]],
    ),
    (Cut(0), &[SHOWN_4], &[Plain, Plain, Plain], &[[2, 2, 0, 1]]),
    (
        Tick(59),
        &[SHOWN_4],
        &[Plain, Plain, Plain],
        &[[1, 1, 0, 0]],
    ),
    (
        Tick(60),
        &[SHOWN_4],
        &[Plain, Plain, Plain],
        &[[1, 2, 0, 0]],
    ),
];

#[test]
fn a_record_is_shown_whatever_happened_to_its_set(rt: HostRuntime) -> Result<(), Fail> {
    for (place, (step, replies, marks, totals)) in BETWEEN.iter().enumerate() {
        let steps = [
            Ask(&[INIT, SEARCH], &[ACCEPTED, FOUND_3]),
            *step,
            Ask(&[PRESENT], replies),
            Ends(marks, Finished, totals),
        ];
        assert_eq!(rt;
            other_way(rt.alloc(), SMALLEST, &steps)?,
            None,
            "at {place}"
        );
    }
    Ok(())
}
