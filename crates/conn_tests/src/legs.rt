//! A request of 16 legs, of which five go otherwise than the others: `late` is silent, the set of `lost` is
//! gone, all sessions of `busy` are another client's, the link of `cut` is cut, and the second member of
//! `pair` finds fewer records than the first.

use crate::plays::Step::{self, Ask, Cut, Ends, Feed, Gone, Other, Run, Slow, Steps, Wrote};
use crate::pools::{Kind, other_way};
use crate::units::{ACCEPTED, GONE, INIT, OUT_OF_RANGE, SEARCH};
use front_conn::Stepped::Went;
use std::alloc::Global;
use std::test::Fail;
use z_types::End::Finished;
use z_types::Mark::{Full, Gone as Deleted, Link, Plain, Silent};
use z_types::{Mark, Memory, Text};

/// The targets that go otherwise, of which two are a group.
const TARGETS: &[u8] = b"[[target]]\nname = \"late\"\naddress = \"test:1\"\n\
[[target]]\nname = \"lost\"\naddress = \"test:2\"\n\
[[target]]\nname = \"busy\"\naddress = \"test:3\"\n\
[[target]]\nname = \"cut\"\naddress = \"test:6\"\n\
[[target]]\nname = \"more\"\naddress = \"test:9\"\n\
[[target]]\nname = \"less\"\naddress = \"test:12\"\n\
[[group]]\nname = \"pair\"\ntargets = [\"more\", \"less\"]\n";

/// What the other client searches: `Held` takes the session of `pair` and both of `busy`, and `Pair` the
/// one.
const HELD: &[u8] = b"[[database]]\nname = \"Held\"\n\
[[database.leg]]\nvia = \"pair\"\ndatabases = [\"Small\"]\n\
[[database.leg]]\nvia = \"busy\"\ndatabases = [\"Default\"]\n\
[[database.leg]]\nvia = \"busy\"\ndatabases = [\"Default\"]\n\
[[database]]\nname = \"Pair\"\n\
[[database.leg]]\nvia = \"pair\"\ndatabases = [\"Small\"]\n\
[pool]\nmax_sessions = 2\npatience = 5\n";

/// The classes that go otherwise, in the order of the totals.
const OTHERS: [&str; 5] = ["late", "lost", "busy", "pair", "cut"];

/// Searches of `Held` and of `Pair` for `a` as title, and the reply to the first.
const SEARCH_HELD: &str = "b63b8d01008e01018f01009001ff910131b2079f690448656c64b521a11f\
06072a8648ce130301a014bf6611bf2c0a30089f7801019f7901049f2d0161";

const SEARCH_PAIR: &str = "b63b8d01008e01018f01009001ff910131b2079f690450616972b521a11f\
06072a8648ce130301a014bf6611bf2c0a30089f7801019f7901049f2d0161";

const FOUND_7: &str = "b70c9701079801009901019601ff";

/// The reply to the Search of all legs, and a Present of the first record of each leg.
const FOUND_46: &str = "b70c97012e9801009901019601ff";

const PRESENT_16: &str = "b8159f1f01319e01019d01109f68082a8648ce13056d0a";

/// The replies to it where the target is silent, the class is full, and the link is cut.
const LATE: &str = "b9239801009901009b0105bf81021606072a8648ce1304010201021b0870617469656e6365";

const BUSY: &str = "b9239801009901009b0105bf81021606072a8648ce1304010201021b0873657373696f6e73";

const LINK: &str = "b91e9801009901009b0105bf81021106072a8648ce13040102016d1b03637574";

/// The names of the other targets, each of which finds three records.
const NEAR: [&str; 11] = [
    "n0", "n1", "n2", "n3", "n4", "n5", "n6", "n7", "n8", "n9", "n10",
];

/// Appends a leg.
fn append_leg(alloc: Global, text: &mut Text, via: &str) -> Result<(), Memory> {
    let name = if via == "pair" { "Small" } else { "Default" };
    let lines = format!(in alloc; "[[database.leg]]\nvia = \"{via}\"\ndatabases = [\"{name}\"]\n")?;
    text.append(lines.as_bytes())
}

/// Appends a database of 16 legs, of which these stand behind the first near one.
fn append_database(
    alloc: Global,
    text: &mut Text,
    name: &str,
    others: &[&str; 5],
) -> Result<(), Memory> {
    text.append(format!(in alloc; "[[database]]\nname = \"{name}\"\n")?.as_bytes())?;
    append_leg(alloc, text, NEAR[0])?;
    for via in others {
        append_leg(alloc, text, via)?;
    }
    for via in &NEAR[1..] {
        append_leg(alloc, text, via)?;
    }
    Ok(())
}

/// The configuration where the legs that go otherwise stand in this order.
fn config_of(alloc: Global, others: &[&str; 5]) -> Result<Text, Memory> {
    let mut text = Text::new(alloc);
    text.append(TARGETS)?;
    for name in NEAR {
        let lines = format!(in alloc; "[[target]]\nname = \"{name}\"\naddress = \"test:0\"\n")?;
        text.append(lines.as_bytes())?;
    }
    append_database(alloc, &mut text, "First", &OTHERS)?;
    append_database(alloc, &mut text, "Default", others)?;
    text.append(HELD)?;
    Ok(text)
}

/// In which order the legs stand that go otherwise, the reply, and its mark.
const FIRSTS: [([&str; 5], &[&str], &[Mark]); 4] = [
    (
        ["late", "lost", "busy", "pair", "cut"],
        &[LATE],
        &[Plain, Plain, Silent(5)],
    ),
    (
        ["lost", "busy", "pair", "cut", "late"],
        &[GONE],
        &[Plain, Plain, Deleted],
    ),
    (
        ["busy", "pair", "cut", "late", "lost"],
        &[BUSY],
        &[Plain, Plain, Full(2)],
    ),
    // a leg that answers a diagnostic is not marked
    (
        ["pair", "cut", "late", "lost", "busy"],
        &[LINK],
        &[Plain, Plain, Link],
    ),
];

/// What a class counts: nothing, a search over a new link, one of a set that is gone again and again, one
/// over two new links, and one over two of which both are cut.
const NIL: [u64; 4] = [0, 0, 0, 0];

const ONE: [u64; 4] = [1, 1, 0, 0];

const LOST: [u64; 4] = [1, 3, 3, 0];

const PAIR: [u64; 4] = [2, 2, 0, 0];

const CUT: [u64; 4] = [2, 1, 0, 2];

/// What each class counts where all five go otherwise, where `pair` alone does, and of the other client.
const TOTALS: &[[u64; 4]] = &[
    ONE, ONE, LOST, ONE, PAIR, CUT, ONE, ONE, ONE, ONE, ONE, ONE, ONE, ONE, ONE, ONE,
];

const TOTALS_OF_PAIR: &[[u64; 4]] = &[
    ONE, ONE, ONE, ONE, PAIR, ONE, ONE, ONE, ONE, ONE, ONE, ONE, ONE, ONE, ONE, ONE,
];

const TOTALS_OF_HELD: &[[u64; 4]] = &[
    NIL, NIL, NIL, ONE, NIL, NIL, NIL, NIL, NIL, NIL, NIL, NIL, NIL, NIL, NIL, NIL,
];

/// Where a request goes otherwise whose legs stand in an order.
fn other_way_in(
    alloc: Global,
    others: &[&str; 5],
    steps: &[Step],
) -> Result<Option<(Kind, usize)>, Memory> {
    let config = config_of(alloc, others)?;
    other_way(alloc, &[config.as_slice()], steps)
}

#[test]
fn the_first_leg_that_is_marked_decides_and_the_others_go_on(rt: HostRuntime) -> Result<(), Fail> {
    for (others, replies, marks) in FIRSTS {
        let steps = [
            Ask(&[INIT, SEARCH], &[ACCEPTED, FOUND_46]),
            Other,
            Ask(&[INIT], &[ACCEPTED]),
            Feed(&[SEARCH_HELD]),
            Steps(&[Went, Went]),
            Other,
            Slow(1, 5),
            Gone(2, 3),
            Feed(&[PRESENT_16]),
            Steps(&[Went]),
            Cut(6),
            Steps(&[Went, Went, Went, Went]),
            Cut(6),
            Run,
            Wrote(replies),
            Ends(marks, Finished, TOTALS),
            Other,
            Run,
            Wrote(&[FOUND_7]),
            Ends(&[Plain, Plain], Finished, TOTALS_OF_HELD),
        ];
        assert_eq!(rt;
            other_way_in(rt.alloc(), &others, &steps)?,
            None,
            "{others:?}"
        );
    }
    Ok(())
}

#[test]
fn a_leg_with_fewer_records_than_were_counted_is_out_of_range(rt: HostRuntime) -> Result<(), Fail> {
    let steps = [
        Ask(&[INIT, SEARCH], &[ACCEPTED, FOUND_46]),
        Other,
        Ask(&[INIT], &[ACCEPTED]),
        Feed(&[SEARCH_PAIR]),
        Steps(&[Went, Went]),
        Other,
        Ask(&[PRESENT_16], &[OUT_OF_RANGE]),
        Ends(&[Plain, Plain, Plain], Finished, TOTALS_OF_PAIR),
    ];
    assert_eq!(rt; other_way_in(rt.alloc(), &OTHERS, &steps)?, None);
    Ok(())
}
