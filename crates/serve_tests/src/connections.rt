//! Connections over targets in memory, each by itself, and served to its end.

use crate::cases::{Case, MOST_UNITS, WHOLE, are_so_over_a_new_pool, route_of};
use crate::octets::{
    BAD_HEAD_REPLY, BAD_REPLY, CLOSE, GET, GET_REPLY, INIT, INIT_REPLY, LIMIT_REPLY, PRESENT,
    SEARCH, SEARCH_REPLY,
};
use gw_memory::FakeBackend;
use route_config::Route;
use std::alloc::Global;
use std::sync::Wait;
use std::test::Fail;
use test_target::TestWorld;
use z_types::{End, List, Memory};

/// The place of the first case whose connection is served otherwise, counted from 0, by a route with so many
/// units of a connection at most.
fn first_other<R: Wait>(
    rt: &R,
    alloc: Global,
    most_units: u32,
    cases: &[Case],
) -> Result<Option<usize>, Memory> {
    let route = route_of(alloc, most_units)?;
    first_other_of(rt, alloc, &route, cases)
}

/// The place of the first case whose connection is served otherwise, counted from 0.
fn first_other_of<R: Wait>(
    rt: &R,
    alloc: Global,
    route: &Route,
    cases: &[Case],
) -> Result<Option<usize>, Memory> {
    for (place, case) in cases.iter().enumerate() {
        if !is_so(rt, alloc, route, *case)? {
            return Ok(Some(place));
        }
    }
    Ok(None)
}

/// Whether a connection is served as its case has it.
fn is_so<R: Wait>(rt: &R, alloc: Global, route: &Route, case: Case) -> Result<bool, Memory> {
    let mut backend = FakeBackend::new(TestWorld, List::new(alloc));
    are_so_over_a_new_pool(rt, alloc, route, &mut backend, &[case])
}

/// Connections, to sinks that take each reply whole.
const CASES: [Case; 14] = [
    WHOLE,
    Case {
        sent: &[],
        written: &[],
        marks: 0,
        ..WHOLE
    },
    Case {
        sent: &[INIT, SEARCH, CLOSE, PRESENT],
        written: &[INIT_REPLY, SEARCH_REPLY, CLOSE],
        end: End::Closed,
        ..WHOLE
    },
    Case {
        sent: &[INIT, b"\xb6\xff"],
        written: &[INIT_REPLY, BAD_REPLY],
        marks: 1,
        end: End::Malformed(21),
        ..WHOLE
    },
    Case {
        sent: &[b"\xb6\xff"],
        written: &[BAD_REPLY],
        marks: 0,
        end: End::Malformed(0),
        ..WHOLE
    },
    // a letter first: an HTTP connection
    Case {
        sent: &[b"GET"],
        written: &[],
        marks: 0,
        end: End::Cut(3),
        ..WHOLE
    },
    Case {
        sent: &[b"GET\r\n\r\n", INIT],
        written: &[BAD_HEAD_REPLY],
        marks: 0,
        end: End::Malformed(0),
        ..WHOLE
    },
    Case {
        sent: &[GET, GET],
        written: &[GET_REPLY],
        marks: 1,
        end: End::Closed,
        ..WHOLE
    },
    Case {
        sent: &[INIT, b"\xb6\x3e\x8d"],
        written: &[INIT_REPLY],
        marks: 1,
        end: End::Cut(3),
        ..WHOLE
    },
    // the first read gives all; the second fails
    Case {
        failing_read: 1,
        written: &[],
        marks: 0,
        end: End::ReadFault,
        ..WHOLE
    },
    Case {
        failing_read: 2,
        end: End::ReadFault,
        ..WHOLE
    },
    Case {
        sent: &[INIT],
        failing_read: 2,
        written: &[INIT_REPLY],
        marks: 1,
        end: End::ReadFault,
        ..WHOLE
    },
    Case {
        sent: &[INIT, b"\xb6\x3e\x8d"],
        failing_read: 2,
        written: &[INIT_REPLY],
        marks: 1,
        end: End::ReadFault,
        ..WHOLE
    },
    Case {
        failing_read: 3,
        ..WHOLE
    },
];

#[test]
fn a_connection_is_answered_up_to_its_end(rt: HostRuntime) -> Result<(), Fail> {
    assert_eq!(rt; first_other(&rt, rt.alloc(), MOST_UNITS, &CASES)?, None);
    Ok(())
}

/// A connection whose route lets it send two units.
const LIMITED: Case = Case {
    written: &[INIT_REPLY, SEARCH_REPLY, LIMIT_REPLY],
    marks: 2,
    end: End::Limited,
    ..WHOLE
};

#[test]
fn a_connection_that_sends_too_many_units_is_limited(rt: HostRuntime) -> Result<(), Fail> {
    assert_eq!(rt; first_other(&rt, rt.alloc(), 2, &[LIMITED])?, None);
    Ok(())
}

/// Connections, to sinks that take each reply whole or nothing of it: the request whose reply was lost is
/// answered, and nothing follows it.
const LOST: [Case; 5] = [
    Case {
        failing_write: 1,
        written: &[],
        marks: 1,
        end: End::WriteFault,
        ..WHOLE
    },
    Case {
        failing_write: 2,
        written: &[INIT_REPLY],
        marks: 2,
        end: End::WriteFault,
        ..WHOLE
    },
    Case {
        failing_write: 3,
        written: &[INIT_REPLY, SEARCH_REPLY],
        end: End::WriteFault,
        ..WHOLE
    },
    Case {
        sent: &[INIT, CLOSE],
        failing_write: 2,
        written: &[INIT_REPLY],
        marks: 2,
        end: End::WriteFault,
        ..WHOLE
    },
    Case {
        sent: &[GET],
        failing_write: 1,
        written: &[],
        marks: 1,
        end: End::WriteFault,
        ..WHOLE
    },
];

#[test]
fn a_reply_of_which_nothing_was_received_lists_its_mark(rt: HostRuntime) -> Result<(), Fail> {
    assert_eq!(rt; first_other(&rt, rt.alloc(), MOST_UNITS, &LOST)?, None);
    Ok(())
}

/// A connection to a sink that takes an octet at a write.
const BY_ONE: Case = Case { taken: 1, ..WHOLE };

/// Connections, to sinks that take an octet at a write: the reply to the Init has 43.
const PARTS: [Case; 4] = [
    BY_ONE,
    Case {
        failing_write: 3,
        written: &[b"\xb5\x29"],
        marks: 1,
        end: End::WriteFault,
        ..BY_ONE
    },
    Case {
        failing_write: 44,
        written: &[INIT_REPLY],
        marks: 2,
        end: End::WriteFault,
        ..BY_ONE
    },
    Case {
        failing_write: 46,
        written: &[INIT_REPLY, b"\xb7\x0c"],
        marks: 2,
        end: End::WriteFault,
        ..BY_ONE
    },
];

#[test]
fn a_reply_of_which_a_part_is_written_is_the_last(rt: HostRuntime) -> Result<(), Fail> {
    assert_eq!(rt; first_other(&rt, rt.alloc(), MOST_UNITS, &PARTS)?, None);
    Ok(())
}

/// Sinks that take seven octets at a write, of which one fails, the first to the last that are needed: how
/// many octets were received before it, and how many requests are answered. The three replies have 43,
/// 14 and 60 octets.
const FRONTS: [(usize, usize); 18] = [
    (0, 1),
    (7, 1),
    (14, 1),
    (21, 1),
    (28, 1),
    (35, 1),
    (42, 1),
    (43, 2),
    (50, 2),
    (57, 3),
    (64, 3),
    (71, 3),
    (78, 3),
    (85, 3),
    (92, 3),
    (99, 3),
    (106, 3),
    (113, 3),
];

/// The number of the first write that fails and is followed otherwise.
fn first_other_front<R: Wait>(rt: &R, alloc: Global, route: &Route) -> Result<Option<u64>, Memory> {
    let mut case = Case {
        taken: 7,
        end: End::WriteFault,
        ..WHOLE
    };
    for (most, marks) in FRONTS {
        case.failing_write = case.failing_write.saturating_add(1);
        case.most = most;
        case.marks = marks;
        if !is_so(rt, alloc, route, case)? {
            return Ok(Some(case.failing_write));
        }
    }
    Ok(None)
}

/// The same by the smallest route.
fn first_other_front_by_a_route<R: Wait>(rt: &R, alloc: Global) -> Result<Option<u64>, Memory> {
    let route = route_of(alloc, MOST_UNITS)?;
    first_other_front(rt, alloc, &route)
}

#[test]
fn a_front_of_the_replies_is_written_where_a_write_fails(rt: HostRuntime) -> Result<(), Fail> {
    assert_eq!(rt; first_other_front_by_a_route(&rt, rt.alloc())?, None);
    Ok(())
}

/// Connections that send an Init, and a unit of indefinite length with one element behind another.
const UNENDED: [Case; 2] = [
    Case {
        sent: &[INIT, b"\xb6\x80"],
        behind: 1_048_566,
        written: &[INIT_REPLY],
        marks: 1,
        end: End::Cut(1_048_568),
        ..WHOLE
    },
    Case {
        sent: &[INIT, b"\xb6\x80"],
        behind: 4_000_000,
        written: &[INIT_REPLY, BAD_REPLY],
        marks: 1,
        end: End::Malformed(21),
        ..WHOLE
    },
];

#[test]
fn a_unit_that_never_ends_is_bad_once_it_is_too_large(rt: HostRuntime) -> Result<(), Fail> {
    assert_eq!(rt; first_other(&rt, rt.alloc(), MOST_UNITS, &UNENDED)?, None);
    Ok(())
}
