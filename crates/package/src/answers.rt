//! The answers of legs that are done.

ghost use Rattle.std.specs.Prelude.{◌≡◌, ◌+◌, ◌<◌, ◌≤◌, ◌++◌, [], ◌∷◌, IfOk, OnOk, OnErr, vec_capacity, vec_len};
ghost use Rattle.package.specs.steps.Packages.{AreDone};
ghost use Rattle.package.specs.steps.Flights.{AreSaid};

use leg::{Account, Leg, LegAnswer};
use std::alloc::Global;
use std::collections::VecDeque;
use std::mem;
use z_types::{List, Memory, Sitting, World};

/// Puts an answer behind others, for which there is room.
fn put(answers: &mut Vec<(LegAnswer, Account)>, answer: (LegAnswer, Account))
    requires room { vec_len answers.old < vec_capacity answers.old }
    ensures items { answers.new.items ≡ answers.old.items ++ answer ∷ [] }
    ensures len { vec_len answers.new ≡ vec_len answers.old + 1 }
    ensures capacity { vec_capacity answers.old ≤ vec_capacity answers.new }
{
    if answers.push(answer).is_err() {
        unreachable!();
    }
}

/// The answers of legs that are done, in their order, put where there is room for them.
fn answers_in<W: World, S: Sitting<W>>(
    mut answers: Vec<(LegAnswer, Account)>,
    legs: Vec<Leg<W, S>>,
) -> Vec<(LegAnswer, Account)>
    requires none { answers.items ≡ [] }
    requires room { vec_len legs ≤ vec_capacity answers }
    requires done { AreDone legs.items }
    ensures said { AreSaid legs.items result.items }
{
    let mut legs = VecDeque::from_vec(legs);
    while let Some(leg) = legs.pop_front() {
        put(&mut answers, leg.answer());
    }
    answers
}

/// The answers of legs that are done, in their order, and no leg is left; without memory all stay.
pub(crate) fn take_answers<W: World, S: Sitting<W>>(
    alloc: Global,
    legs: &mut List<Leg<W, S>>,
) -> Result<List<(LegAnswer, Account)>, Memory>
    requires done { AreDone legs.old }
    ensures said { IfOk result (AreSaid legs.old) }
    ensures none { OnOk result (legs.new ≡ []) }
    ensures kept { OnErr result (legs.new ≡ legs.old) }
{
    let room = Vec::with_capacity(alloc, legs.len())?;
    let done = mem::replace(legs, List::new(alloc)).into_vec();
    Ok(List::from_vec(answers_in(room, done)))
}
