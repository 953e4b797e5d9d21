//! What pools give, in sessions of few calls.

use crate::logins::Who::{Ann, Bob, Empty, Nobody};
use crate::trials::Given::{Dialled, Full, Idle, Nothing, Reused};
use crate::trials::Turn::{self, As, Borrow, Lose, Put, Redial, TakeAny, TakeFor};
use crate::trials::{Given, KINDS, first_other_behind, first_other_of, lends_a_thousand};
use std::test::Fail;

/// The most sessions of a class and the test target of its second member, and what happens.
const ROWS: [((u32, u32), &[Turn]); 6] = [
    // members are dialled in turn until the class is full
    (
        (2, 1),
        &[
            TakeAny(0, Dialled(1, 0)),
            TakeAny(0, Dialled(2, 1)),
            TakeAny(0, Full(2)),
            TakeAny(0, Full(2)),
            Put(2, 0, 0),
            TakeAny(0, Idle(2)),
        ],
    ),
    // a seat is spent once, and another changes nothing
    (
        (1, 1),
        &[
            TakeAny(0, Dialled(1, 0)),
            Lose(1, 1),
            TakeAny(0, Full(1)),
            Lose(0, 2),
            TakeAny(0, Full(1)),
            Put(1, 0, 0),
            Lose(0, 1),
            TakeAny(0, Idle(1)),
            Lose(0, 1),
            TakeAny(0, Dialled(2, 0)),
        ],
    ),
    // a session is dialled again for the member of fewest others
    (
        (3, 1),
        &[
            TakeAny(0, Dialled(1, 0)),
            TakeAny(0, Dialled(2, 1)),
            TakeAny(0, Dialled(3, 0)),
            Redial(2, 1),
            Redial(1, 0),
            Redial(3, 0),
            Redial(4, 0),
            Lose(0, 2),
            Redial(1, 1),
            Redial(3, 0),
            Redial(1, 1),
        ],
    ),
    // a set is reused until its time to live after its last use, and a moment below the greatest is no
    // use at an earlier time
    (
        (1, 1),
        &[
            TakeAny(0, Dialled(1, 0)),
            Put(1, 0, 0),
            Borrow(59, Reused(1)),
            Borrow(118, Reused(1)),
            Borrow(90, Reused(1)),
            Borrow(177, Reused(1)),
            Borrow(237, Idle(1)),
        ],
    ),
    // a class of one session is full while it is out, and that one is not counted where it is dialled
    // again
    (
        (1, 1),
        &[
            TakeAny(0, Dialled(1, 0)),
            TakeFor(1000, Full(1)),
            Redial(1, 0),
            TakeAny(1000, Full(1)),
        ],
    ),
    // two members of one address count by their places, and a tie goes to the first
    (
        (4, 0),
        &[
            TakeAny(0, Dialled(1, 0)),
            TakeAny(0, Dialled(2, 1)),
            TakeAny(0, Dialled(3, 0)),
            TakeAny(0, Dialled(4, 1)),
            Lose(0, 2),
            Redial(3, 0),
            TakeAny(0, Dialled(5, 1)),
        ],
    ),
];

#[test]
fn each_turn_goes_as_it_was_worked_out(rt: HostRuntime) -> Result<(), Fail> {
    for kind in KINDS {
        for (class, turns) in ROWS {
            assert_eq!(rt;
                first_other_of(rt.alloc(), kind, class, turns)?,
                None,
                "{kind:?} {class:?}"
            );
        }
    }
    Ok(())
}

/// The same under logins.
const LOGINS: [((u32, u32), &[Turn]); 7] = [
    // one session serves one login after another: each is dialled in place of the idle one, whose member
    // counts no longer, though that one holds the set
    (
        (1, 1),
        &[
            As(Ann),
            TakeAny(0, Dialled(1, 0)),
            As(Bob),
            TakeFor(0, Full(1)),
            As(Nobody),
            TakeAny(0, Full(1)),
            As(Ann),
            Put(1, 0, 0),
            Borrow(0, Reused(1)),
            As(Bob),
            TakeFor(0, Dialled(2, 0)),
            As(Ann),
            TakeFor(0, Full(1)),
            As(Bob),
            Put(2, 0, 0),
            As(Nobody),
            TakeAny(0, Dialled(3, 0)),
            Put(3, 0, 0),
            Borrow(0, Reused(3)),
            As(Ann),
            TakeAny(0, Dialled(4, 0)),
        ],
    ),
    // of two idle ones that of the least number makes room, and of two that are out none
    (
        (2, 1),
        &[
            As(Ann),
            TakeAny(0, Dialled(1, 0)),
            As(Bob),
            TakeAny(0, Dialled(2, 1)),
            As(Nobody),
            TakeAny(0, Full(2)),
            As(Bob),
            Put(2, 0, 0),
            As(Ann),
            Put(1, 0, 0),
            As(Nobody),
            TakeFor(0, Dialled(3, 0)),
            As(Ann),
            TakeFor(0, Dialled(4, 1)),
            As(Bob),
            TakeAny(0, Full(2)),
        ],
    ),
    // where only one of a greater number is idle, that one makes room
    (
        (2, 1),
        &[
            As(Ann),
            TakeAny(0, Dialled(1, 0)),
            TakeAny(0, Dialled(2, 1)),
            Put(2, 0, 0),
            As(Bob),
            TakeAny(0, Dialled(3, 1)),
            As(Ann),
            Put(2, 0, 0),
            TakeAny(0, Full(2)),
            Put(1, 0, 0),
            TakeFor(0, Reused(1)),
        ],
    ),
    // each has the sets of its own under one key, and another none
    (
        (3, 1),
        &[
            As(Ann),
            TakeAny(0, Dialled(1, 0)),
            As(Empty),
            TakeAny(0, Dialled(2, 1)),
            As(Nobody),
            TakeAny(0, Dialled(3, 0)),
            Put(3, 0, 0),
            As(Ann),
            Put(1, 0, 0),
            As(Empty),
            Put(2, 0, 0),
            Borrow(0, Reused(2)),
            As(Nobody),
            Borrow(59, Reused(3)),
            As(Ann),
            Borrow(60, Idle(1)),
            As(Nobody),
            Borrow(60, Reused(3)),
            As(Bob),
            TakeFor(60, Dialled(4, 0)),
            As(Ann),
            TakeFor(60, Dialled(5, 1)),
            As(Nobody),
            TakeFor(60, Reused(3)),
        ],
    ),
    // one's session expires while another's is out, and counts no longer
    (
        (3, 1),
        &[
            As(Bob),
            TakeAny(0, Dialled(1, 0)),
            As(Ann),
            TakeAny(0, Dialled(2, 1)),
            Put(2, 0, 0),
            Borrow(299, Idle(2)),
            Borrow(598, Idle(2)),
            As(Nobody),
            TakeAny(898, Dialled(3, 1)),
            As(Ann),
            TakeAny(898, Dialled(4, 0)),
            As(Bob),
            Put(1, 898, 898),
            TakeFor(957, Reused(1)),
        ],
    ),
    // the members are chosen by the sessions of all, and a session that is dialled again stays one of
    // its login
    (
        (4, 1),
        &[
            As(Ann),
            TakeAny(0, Dialled(1, 0)),
            As(Bob),
            TakeAny(0, Dialled(2, 1)),
            As(Nobody),
            TakeAny(0, Dialled(3, 0)),
            As(Ann),
            TakeAny(0, Dialled(4, 1)),
            Lose(0, 3),
            As(Bob),
            Redial(4, 0),
            Redial(2, 1),
            Put(2, 0, 0),
            As(Ann),
            Put(4, 0, 0),
            Borrow(0, Reused(4)),
            As(Bob),
            Borrow(0, Reused(2)),
            As(Nobody),
            TakeAny(0, Dialled(5, 1)),
        ],
    ),
    // a session that comes back inside another login is nobody's, until it makes room
    (
        (2, 1),
        &[
            As(Ann),
            TakeAny(0, Dialled(1, 0)),
            As(Bob),
            Put(1, 0, 0),
            TakeFor(0, Dialled(2, 1)),
            Put(2, 0, 0),
            Borrow(0, Reused(2)),
            As(Ann),
            TakeFor(0, Dialled(3, 0)),
            As(Bob),
            TakeFor(0, Reused(2)),
        ],
    ),
];

#[test]
fn a_session_serves_one_login_alone(rt: HostRuntime) -> Result<(), Fail> {
    for kind in KINDS {
        for (class, turns) in LOGINS {
            assert_eq!(rt;
                first_other_of(rt.alloc(), kind, class, turns)?,
                None,
                "{kind:?} {class:?}"
            );
        }
    }
    Ok(())
}

/// A set's last use, the moment of the put, that of the take, and what is given.
const TIMES: [(u64, u64, u64, Given); 13] = [
    (0, 0, 59, Reused(1)),
    (0, 0, 60, Idle(1)),
    (59, 59, 118, Reused(1)),
    (59, 59, 119, Idle(1)),
    (0, 0, 299, Idle(1)),
    (0, 0, 300, Dialled(2, 0)),
    (0, 300, 599, Idle(1)),
    (0, 300, 600, Dialled(2, 0)),
    // clocks that went back
    (0, 1000, 0, Reused(1)),
    (1000, 1000, 0, Reused(1)),
    (1000, 0, 0, Reused(1)),
    (1000, 0, 299, Reused(1)),
    (1000, 0, 300, Dialled(2, 0)),
];

#[test]
fn sets_and_sessions_are_given_until_their_times_to_live(rt: HostRuntime) -> Result<(), Fail> {
    for kind in KINDS {
        for (used, since, now, given) in TIMES {
            let turns = [
                TakeAny(0, Dialled(1, 0)),
                Put(1, used, since),
                TakeFor(now, given),
            ];
            assert_eq!(rt;
                first_other_of(rt.alloc(), kind, (1, 0), &turns)?,
                None,
                "{kind:?} {used} {since} {now}"
            );
        }
    }
    Ok(())
}

#[test]
fn a_thousand_sessions_are_dialled_and_lent_again(rt: HostRuntime) -> Result<(), Fail> {
    for kind in KINDS {
        assert!(rt; lends_a_thousand(rt.alloc(), kind)?, "{kind:?}");
    }
    Ok(())
}

#[test]
fn after_the_last_number_no_session_is_dialled(rt: HostRuntime) -> Result<(), Fail> {
    let turns = [TakeAny(0, Dialled(u64::MAX, 0)), TakeAny(0, Nothing)];
    for kind in KINDS {
        assert_eq!(rt;
            first_other_behind(rt.alloc(), kind, u64::MAX - 1, &turns)?,
            None,
            "{kind:?}"
        );
    }
    Ok(())
}
