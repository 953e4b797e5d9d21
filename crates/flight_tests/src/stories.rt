//! Legs of a request whose replies arrive at different looks.

use crate::asks::hits_legs;
use crate::flights::wait_for_all;
use crate::outside::{CountingClock, Session, slow_targets};
use crate::routes::{SIXTEEN, THREE_LEGS, TWO_LOOKS, route_of, sixteen_legs};
use crate::stories::Wanted::{Hits, Marked};
use package::leg::{Account, Leg, LegAnswer};
use pool_core::Pool;
use route_config::Route;
use std::alloc::Global;
use std::sync::Wait;
use std::test::Fail;
use test_target::TestWorld;
use z_types::Mark::Silent;
use z_types::{List, Mark, Memory};

/// What is to be answered.
#[derive(Clone, Copy, Drop)]
enum Wanted {
    /// So many hits.
    Hits(u32),
    /// A mark.
    Marked(Mark),
}

/// Whether this is answered.
fn is_wanted(answer: &LegAnswer, wanted: Wanted) -> bool {
    match (answer, wanted) {
        (LegAnswer::Hits(hits), Hits(count)) => *hits == count,
        (LegAnswer::Marked(mark), Marked(other)) => *mark == other,
        _ => false,
    }
}

/// Whether these are answered, in this order.
fn are_wanted(answers: &[(LegAnswer, Account)], wanted: &[Wanted]) -> bool {
    answers.len() == wanted.len()
        && answers
            .iter()
            .zip(wanted)
            .all(|(answer, wanted)| is_wanted(&answer.0, *wanted))
}

/// After how many polls legs for hits in these databases have answered so, in their order, and none is left,
/// where the replies of the test targets arrive after so many looks; none where they answer otherwise.
fn polls_until<R: Wait>(
    rt: &R,
    alloc: Global,
    route: &Route,
    names: &[&[u8]],
    delays: &[(u32, u32)],
    wanted: &[Wanted],
) -> Result<Option<u32>, Memory> {
    let mut backend = slow_targets(alloc, delays)?;
    let mut pool: Pool<TestWorld, Session> = Pool::new(alloc, route)?;
    let mut clock = CountingClock { reads: 0 };
    let mut legs: List<Leg<TestWorld, Session>> = hits_legs(alloc, route, names)?;
    let waited = wait_for_all(
        rt,
        alloc,
        route,
        &mut legs,
        &mut backend,
        &mut pool,
        &mut clock,
    );
    match waited {
        Ok(Ok(answers)) => {
            let so = legs.is_empty() && are_wanted(answers.as_slice(), wanted);
            Ok(so.then_some(clock.reads))
        }
        Ok(Err(memory)) => Err(memory),
        Err(_) => Err(Memory),
    }
}

/// The databases of the three legs, and what they answer.
const THREE: &[&[u8]] = &[b"Default", b"Empty", b"Small"];

const FOUND_BY_THREE: &[Wanted] = &[Hits(3), Hits(0), Hits(1)];

/// What the 16 legs answer: how many records their targets have whose number, with that of the target and 4
/// added, is divided by 8.
const FOUND_BY_SIXTEEN: &[Wanted] = &[
    Hits(3),
    Hits(1),
    Hits(0),
    Hits(1),
    Hits(3),
    Hits(0),
    Hits(0),
    Hits(3),
    Hits(4),
    Hits(1),
    Hits(1),
    Hits(4),
    Hits(0),
    Hits(4),
    Hits(0),
    Hits(4),
];

/// After how many looks the replies of the 16 targets arrive: no two at once.
const DELAYS: &[(u32, u32)] = &[
    (0, 7),
    (1, 14),
    (2, 5),
    (3, 12),
    (4, 3),
    (5, 10),
    (6, 1),
    (7, 8),
    (8, 15),
    (9, 6),
    (10, 13),
    (11, 4),
    (12, 11),
    (13, 2),
    (14, 9),
    (15, 0),
];

#[test]
fn answers_stand_in_the_order_of_legs_whichever_is_first(rt: HostRuntime) -> Result<(), Fail> {
    let route = route_of(rt.alloc(), THREE_LEGS)?;
    for (a, b, c) in [(3, 0, 1), (0, 1, 3), (1, 3, 0)] {
        let delays = [(0, a), (2, b), (1, c)];
        let polls = polls_until(&rt, rt.alloc(), &route, THREE, &delays, FOUND_BY_THREE)?;
        assert!(rt; polls.is_some(), "{a} {b} {c}");
    }
    Ok(())
}

#[test]
fn a_request_of_16_legs_takes_as_long_as_its_slowest(rt: HostRuntime) -> Result<(), Fail> {
    let alloc = rt.alloc();
    let config = sixteen_legs(alloc)?;
    let route = route_of(alloc, &[config.as_slice()])?;
    let polls = polls_until(&rt, alloc, &route, SIXTEEN, DELAYS, FOUND_BY_SIXTEEN)?;
    assert!(rt; polls.is_some());
    let slowest = polls_until(&rt, alloc, &route, SIXTEEN, &[(8, 15)], FOUND_BY_SIXTEEN)?;
    assert_eq!(rt; polls, slowest);
    Ok(())
}

#[test]
fn a_leg_is_silent_while_others_wait(rt: HostRuntime) -> Result<(), Fail> {
    let route = route_of(rt.alloc(), &[THREE_LEGS[0], TWO_LOOKS])?;
    let wanted = [Hits(3), Marked(Silent(2)), Hits(1)];
    let polls = polls_until(&rt, rt.alloc(), &route, THREE, &[(2, 2)], &wanted)?;
    assert!(rt; polls.is_some());
    Ok(())
}
