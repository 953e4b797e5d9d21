//! Cases of legs over three kinds of backends. Their settings, and what holds where there is none (a case with a
//! setting of another value has one answer, that there is no such setting):
//!
//! - `members` of the class that the legs go to: `one`, `two` or `far` (`one`);
//! - `sessions` of the class, and `sets` of a session, at most (64 and 10);
//! - `failing`: the numbers of the calls that fail; over the wire far away one number (none);
//! - `lacking`: the number of the call that lacks memory, over the wire far away (none);
//! - `numbered`: the greatest number that a session of the pool had before (0).

use crate::far::FarWire;
use crate::happens::Happens;
use crate::plays::answers_to;
use crate::routes::{At, Way, route_of};
use crate::steps::steps_of;
use gw_memory::FakeBackend;
use gw_outside::Backend;
use pool_core::Pool;
use std::alloc::Global;
use test_cases::{Case, Player};
use test_target::TestWorld;
use test_wire::TestWire;
use z_client::ZBackend;
use z_types::{List, Memory, Text, World};

/// Plays legs over links with test targets.
pub(crate) struct OverLinks;

/// Plays legs over targets in memory.
pub(crate) struct OverMemory;

/// Plays legs over a wire whose calls fail or lack memory.
pub(crate) struct OverFar;

impl Player for OverLinks {
    fn play(&self, alloc: Global, case: &Case<'_>) -> Result<Text, Memory> {
        let mut backend = ZBackend::new(alloc, TestWire::new(alloc));
        play_over::<TestWorld, _>(alloc, &mut backend, case)
    }
}

impl Player for OverMemory {
    fn play(&self, alloc: Global, case: &Case<'_>) -> Result<Text, Memory> {
        match calls_in(alloc, case.setting("failing").unwrap_or(""))? {
            Some(calls) => {
                let mut backend = FakeBackend::new(TestWorld, calls);
                play_over::<TestWorld, _>(alloc, &mut backend, case)
            }
            None => no_such_setting(alloc),
        }
    }
}

impl Player for OverFar {
    fn play(&self, alloc: Global, case: &Case<'_>) -> Result<Text, Memory> {
        match (number_in(case, "failing"), number_in(case, "lacking")) {
            (Some(failing), Some(lacking)) => {
                let mut backend = ZBackend::new(alloc, FarWire::new(failing, lacking));
                play_over::<TestWorld, _>(alloc, &mut backend, case)
            }
            _ => no_such_setting(alloc),
        }
    }
}

/// Plays legs over a backend.
fn play_over<W: World, B: Backend<W> + Happens>(
    alloc: Global,
    backend: &mut B,
    case: &Case<'_>,
) -> Result<Text, Memory> {
    match (way_of(case), number_in(case, "numbered")) {
        (Some(way), Some(numbered)) => {
            let steps = steps_of(alloc, case)?;
            let route = route_of(alloc, way)?;
            let mut pool: Pool<W, B::Session> = Pool::after(alloc, route.parts().pool, numbered);
            answers_to(alloc, &route, backend, &mut pool, steps.as_slice())
        }
        _ => no_such_setting(alloc),
    }
}

/// The answer to a case with a setting of a value that there is not.
fn no_such_setting(alloc: Global) -> Result<Text, Memory> {
    Text::copy_of(alloc, b"no such setting")
}

/// The way that the legs go.
fn way_of(case: &Case<'_>) -> Option<Way> {
    Some(Way {
        at: members_of(case.setting("members").unwrap_or("one"))?,
        sessions: case.setting("sessions").unwrap_or("64").parse().ok()?,
        sets: case.setting("sets").unwrap_or("10").parse().ok()?,
    })
}

/// The members of a word.
fn members_of(word: &str) -> Option<At> {
    match word {
        "one" => Some(At::One),
        "two" => Some(At::Two),
        "far" => Some(At::Far),
        _ => None,
    }
}

/// The number of a setting; 0 where it is not set.
fn number_in(case: &Case<'_>, name: &str) -> Option<u64> {
    case.setting(name).unwrap_or("0").parse().ok()
}

/// The numbers of calls, in words.
fn calls_in(alloc: Global, words: &str) -> Result<Option<List<u64>>, Memory> {
    let mut calls = List::new(alloc);
    for word in words.split_whitespace() {
        match word.parse() {
            Ok(call) => calls.push(call)?,
            Err(_) => return Ok(None),
        }
    }
    Ok(Some(calls))
}
