//! Requests that are answered under marks, what each step of a connection answers, and connections that
//! are given up.

use crate::plays::Step::{
    Ask, Cut, End, Ends, Feed, GiveUp, Gone, Has, Other, Run, Slow, Steps, Wrote,
};
use crate::pools::{ONE_SESSION, SMALLEST, Story, THREE_LEGS, other_way};
use crate::units::{
    ACCEPTED, CLOSE, FOUND_3, FOUND_4, INIT, NO_LINK, NO_PATIENCE, NO_SESSION, PRESENT, SEARCH,
    SHOWN_4,
};
use front_conn::Stepped::{Idle, NotYet, Went};
use std::test::Fail;
use z_types::End::{Closed, Cut as Broken, Finished};
use z_types::Mark::{Full, Gone as Deleted, Link, Plain, Silent};

/// A Search that shows its records, where they are three at most; its replies, with the records and where
/// they are gone; and that to a Present of no set.
const SEARCH_SHOWN: &str = "b6498d01038e01048f01009001ff910131b20a9f690744656661756c74\
9f68082a8648ce13056d0ab521a11f06072a8648ce130301a014bf6611bf2c0a30089f7801019f7901049f2d0161";

const FOUND_SHOWN: &str = "b781a19701039801039901009601ff9b0100bc818f\
302d800744656661756c74a122a120281e06082a8648ce13056d0a81123c723e302e44656661756c742e343c2f723e\
302e800744656661756c74a123a121281f06082a8648ce13056d0a81133c723e302e44656661756c742e31323c2f723e\
302e800744656661756c74a123a121281f06082a8648ce13056d0a81133c723e302e44656661756c742e32303c2f723e";

const FOUND_GONE: &str = "b71e970100980100990100960100bf81020e06072a8648ce13040102011b1b00";

const NO_SET: &str = "b91c9801009901009b0105bf81020f06072a8648ce13040102011e1b0131";

/// What a story is about, its configuration, and its steps.
const STORIES: [Story; 15] = [
    (
        "a link that is cut behind a search that was sent",
        SMALLEST,
        &[
            Ask(&[INIT], &[ACCEPTED]),
            Feed(&[SEARCH]),
            Steps(&[Went, Went, Went, Went, Went]),
            Cut(0),
            Run,
            Wrote(&[NO_LINK]),
            Ask(&[PRESENT], &[NO_SET]),
            Ends(&[Plain, Link, Plain], Finished, &[[1, 1, 0, 1]]),
        ],
    ),
    (
        "a class whose one session is another client's",
        ONE_SESSION,
        &[
            Ask(&[INIT], &[ACCEPTED]),
            Feed(&[SEARCH]),
            Other,
            Ask(&[INIT], &[ACCEPTED]),
            Feed(&[SEARCH]),
            Other,
            Steps(&[Went, Went]),
            Other,
            Steps(&[Went]),
            Wrote(&[]),
            Steps(&[Went]),
            Wrote(&[NO_SESSION]),
            Ends(&[Plain, Full(1)], Finished, &[[0, 0, 0, 0]]),
            Other,
            Run,
            Wrote(&[FOUND_3]),
            Ends(&[Plain, Plain], Finished, &[[1, 1, 0, 0]]),
        ],
    ),
    (
        "a class whose one session was put back",
        ONE_SESSION,
        &[
            Ask(&[INIT, SEARCH], &[ACCEPTED, FOUND_3]),
            Other,
            Ask(&[INIT, SEARCH], &[ACCEPTED, FOUND_3]),
            Ends(&[Plain, Plain], Finished, &[[0, 0, 0, 0]]),
            Other,
            Ends(&[Plain, Plain], Finished, &[[1, 1, 0, 0]]),
        ],
    ),
    (
        "a target that is as late as patience allows",
        SMALLEST,
        &[
            Slow(0, 999),
            Ask(&[INIT, SEARCH], &[ACCEPTED, FOUND_3]),
            Ends(&[Plain, Plain], Finished, &[[1, 1, 0, 0]]),
        ],
    ),
    (
        "a target that is later",
        SMALLEST,
        &[
            Slow(0, 1000),
            Ask(&[INIT, SEARCH], &[ACCEPTED, NO_PATIENCE]),
            Slow(0, 0),
            Ask(&[PRESENT, SEARCH], &[NO_SET, FOUND_3]),
            Ends(
                &[Plain, Silent(1000), Plain, Plain],
                Finished,
                &[[2, 1, 0, 0]],
            ),
        ],
    ),
    (
        "the steps of an Init, of a part of a unit, and of the end of the input",
        SMALLEST,
        &[
            Steps(&[Idle]),
            Feed(&[INIT]),
            Wrote(&[]),
            Steps(&[Went, Idle]),
            Wrote(&[ACCEPTED]),
            Feed(&["b63e8d0100"]),
            Steps(&[Idle, Idle]),
            Has(&[Plain], None, &[[0, 0, 0, 0]]),
            End,
            Steps(&[Went, Idle, Idle]),
            Wrote(&[]),
            Has(&[Plain], Some(Broken(5)), &[[0, 0, 0, 0]]),
        ],
    ),
    (
        "the steps of a search and of a record of one leg",
        SMALLEST,
        &[
            Slow(0, 2),
            Ask(&[INIT], &[ACCEPTED]),
            Feed(&[SEARCH, PRESENT]),
            Steps(&[
                Went, Went, Went, NotYet, NotYet, Went, Went, NotYet, NotYet, Went,
            ]),
            Wrote(&[]),
            Has(&[Plain], None, &[[0, 0, 0, 0]]),
            Steps(&[Went]),
            Wrote(&[FOUND_3]),
            Has(&[Plain, Plain], None, &[[1, 1, 0, 0]]),
            Steps(&[Went, Went, Went, NotYet, NotYet, Went]),
            Wrote(&[]),
            Steps(&[Went]),
            Wrote(&[SHOWN_4]),
            Steps(&[Idle]),
            Ends(&[Plain, Plain, Plain], Finished, &[[1, 1, 0, 0]]),
        ],
    ),
    (
        "the steps of a search by three legs, of which the third waits",
        THREE_LEGS,
        &[
            Slow(1, 5),
            Ask(&[INIT], &[ACCEPTED]),
            Feed(&[SEARCH]),
            Steps(&[
                Went, Went, Went, Went, Went, Went, Went, NotYet, Went, Went, NotYet, NotYet,
                NotYet, NotYet, NotYet, Went,
            ]),
            Wrote(&[]),
            Steps(&[Went]),
            Wrote(&[FOUND_4]),
            Steps(&[Idle]),
            Ends(
                &[Plain, Plain],
                Finished,
                &[[1, 1, 0, 0], [1, 1, 0, 0], [1, 1, 0, 0]],
            ),
        ],
    ),
    (
        "the steps of a search that shows its records",
        SMALLEST,
        &[
            Ask(&[INIT], &[ACCEPTED]),
            Feed(&[SEARCH_SHOWN]),
            Steps(&[Went, Went, Went, Went, Went, Went, Went]),
            Wrote(&[]),
            Steps(&[Went, Went, Went]),
            Wrote(&[]),
            Steps(&[Went, Idle]),
            Wrote(&[FOUND_SHOWN]),
            Ends(&[Plain, Plain], Finished, &[[1, 1, 0, 0]]),
        ],
    ),
    (
        "a search whose records are gone leaves no set",
        SMALLEST,
        &[
            Gone(0, 3),
            Ask(
                &[INIT, SEARCH_SHOWN, PRESENT],
                &[ACCEPTED, FOUND_GONE, NO_SET],
            ),
            Ends(&[Plain, Deleted, Plain], Finished, &[[1, 3, 3, 0]]),
        ],
    ),
    (
        "an end of the input while a search is in work, with a part of a unit behind it",
        SMALLEST,
        &[
            Ask(&[INIT], &[ACCEPTED]),
            Feed(&[SEARCH, "b63e8d0100"]),
            Steps(&[Went, Went]),
            End,
            Run,
            Wrote(&[FOUND_3]),
            Has(&[Plain, Plain], Some(Broken(5)), &[[1, 1, 0, 0]]),
        ],
    ),
    (
        "steps behind a Close, with units behind it",
        SMALLEST,
        &[
            Ask(&[INIT, CLOSE, SEARCH], &[ACCEPTED, CLOSE]),
            Steps(&[Idle]),
            Feed(&[SEARCH]),
            Steps(&[Idle]),
            End,
            Steps(&[Idle]),
            Wrote(&[]),
            Has(&[Plain, Plain], Some(Closed), &[[0, 0, 0, 0]]),
        ],
    ),
    (
        "a connection that is given up in its first search leaves room for another",
        ONE_SESSION,
        &[
            Ask(&[INIT], &[ACCEPTED]),
            Feed(&[SEARCH]),
            Steps(&[Went, Went, Went, Went]),
            Has(&[Plain], None, &[[0, 0, 0, 0]]),
            GiveUp,
            Wrote(&[]),
            Has(&[Plain], None, &[[1, 0, 0, 0]]),
            Other,
            Ask(&[INIT, SEARCH], &[ACCEPTED, FOUND_3]),
            Ends(&[Plain, Plain], Finished, &[[1, 1, 0, 0]]),
        ],
    ),
    (
        "a connection that is given up behind a set that was gone",
        SMALLEST,
        &[
            Ask(&[INIT, SEARCH], &[ACCEPTED, FOUND_3]),
            Gone(0, 1),
            Feed(&[PRESENT]),
            Steps(&[Went, Went, Went, Went, Went]),
            Has(&[Plain, Plain], None, &[[1, 1, 0, 0]]),
            GiveUp,
            Wrote(&[]),
            Has(&[Plain, Plain], None, &[[1, 2, 1, 0]]),
        ],
    ),
    (
        "a connection that is given up between two requests",
        ONE_SESSION,
        &[
            Ask(&[INIT, SEARCH], &[ACCEPTED, FOUND_3]),
            GiveUp,
            Has(&[Plain, Plain], None, &[[1, 1, 0, 0]]),
            Other,
            Ask(&[INIT, SEARCH, PRESENT], &[ACCEPTED, FOUND_3, SHOWN_4]),
            Ends(&[Plain, Plain, Plain], Finished, &[[0, 0, 0, 0]]),
        ],
    ),
];

#[test]
fn each_step_answers_what_it_did_and_each_fault_has_its_mark(rt: HostRuntime) -> Result<(), Fail> {
    for (about, config, steps) in STORIES {
        assert_eq!(rt; other_way(rt.alloc(), config, steps)?, None, "{about}");
    }
    Ok(())
}
