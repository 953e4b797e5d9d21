//! Legs that are played step by step.

ghost use Rattle.std.specs.Prelude.{◌≡◌, ◌<◌, length, None};
ghost use Rattle.leg.specs.Turns.{IsLegOf};
ghost use Rattle.leg_tests.specs.Played.{ArePlayed};

use crate::asks::ask_of;
use crate::happens::Happens;
use crate::logins::Under;
use crate::steps::Step;
use crate::words::{put_account, put_answer, put_turned, put_turns};
use gw_outside::Backend;
use leg::{Leg, Turned};
use pool_sets::Door;
use route_config::Route;
use std::alloc::Global;
use std::mem;
use z_types::{Memory, Sitting, Text, World};

/// The most turns of a leg that is turned to its end.
const MOST_TURNS: u32 = 3000;

/// The leg that is played and another, the moment, the login of the next leg, and the answers so far.
#[derive(Drop)]
pub(crate) struct Play<W: World, S: Sitting<W>> {
    leg: Option<Leg<W, S>>,
    other: Option<Leg<W, S>>,
    now: u64,
    under: Under,
    line: Text,
}

/// The answers to steps of legs of a route, a line for each.
pub(crate) fn answers_to<W: World, B: Backend<W> + Happens, D: Door<W, B::Session>>(
    alloc: Global,
    route: &Route,
    backend: &mut B,
    door: &mut D,
    steps: &[Step],
) -> Result<Text, Memory>
    requires { 0 < length route.now.legs }
{
    let mut play = new_play(alloc);
    let taken = take_steps(alloc, route, backend, door, &mut play, steps);
    let line = mem::replace(&mut play.line, Text::new(alloc));
    if_taken(taken, line)
}

/// A play without legs and answers.
fn new_play<W: World, S: Sitting<W>>(alloc: Global) -> Play<W, S>
    ensures leg { result.leg ≡ None }
    ensures other { result.other ≡ None }
{
    Play {
        leg: None,
        other: None,
        now: 0,
        under: Under::Nobody,
        line: Text::new(alloc),
    }
}

/// The answers, where all steps were taken.
fn if_taken(taken: Result<(), Memory>, line: Text) -> Result<Text, Memory> {
    taken?;
    Ok(line)
}

/// Takes steps.
fn take_steps<W: World, B: Backend<W> + Happens, D: Door<W, B::Session>>(
    alloc: Global,
    route: &Route,
    backend: &mut B,
    door: &mut D,
    play: &mut Play<W, B::Session>,
    steps: &[Step],
) -> Result<(), Memory>
    requires { ArePlayed W.World B.Session.Sitting
        route.now (D.counts door.old).most play.old.leg play.old.other }
{
    for step in steps {
        take_step(alloc, route, backend, door, play, *step)?;
        play.line.push(b'\n')?;
    }
    Ok(())
}

/// Takes a step.
fn take_step<W: World, B: Backend<W> + Happens, D: Door<W, B::Session>>(
    alloc: Global,
    route: &Route,
    backend: &mut B,
    door: &mut D,
    play: &mut Play<W, B::Session>,
    step: Step,
) -> Result<(), Memory>
    requires { ArePlayed W.World B.Session.Sitting
        route.now (D.counts door.old).most play.old.leg play.old.other }
    ensures { ArePlayed W.World B.Session.Sitting
        route.now (D.counts door.new).most play.new.leg play.new.other }
{
    match step {
        Step::Begin(asked) => {
            play.leg = Some(Leg::new(ask_of(alloc, play.under, asked)?));
            Ok(())
        }
        Step::Turn => turn(alloc, route, backend, door, play),
        Step::Run => run(alloc, route, backend, door, play),
        Step::GiveUp => {
            give_up(door, play);
            Ok(())
        }
        Step::Other => {
            mem::swap(&mut play.leg, &mut play.other);
            Ok(())
        }
        Step::Now(now) => {
            play.now = now;
            Ok(())
        }
        Step::Under(under) => {
            play.under = under;
            Ok(())
        }
        Step::Happen(event) => backend.happen(event),
        Step::Unknown => play.line.append(b"no such step"),
    }
}

/// Turns the leg once, where there is one.
fn turn<W: World, B: Backend<W>, D: Door<W, B::Session>>(
    alloc: Global,
    route: &Route,
    backend: &mut B,
    door: &mut D,
    play: &mut Play<W, B::Session>,
) -> Result<(), Memory>
    requires { ArePlayed W.World B.Session.Sitting
        route.now (D.counts door.old).most play.old.leg play.old.other }
    ensures { ArePlayed W.World B.Session.Sitting
        route.now (D.counts door.new).most play.new.leg play.new.other }
{
    let Some(leg) = &mut play.leg else {
        return play.line.append(b"no leg");
    };
    let turned = leg.turn(alloc, route, backend, door, play.now);
    put_turned(&mut play.line, turned)
}

/// Gives the leg up, where there is one.
fn give_up<W: World, S: Sitting<W>, D: Door<W, S>>(door: &mut D, play: &mut Play<W, S>)
    ensures none { play.new.leg ≡ None }
    ensures other { play.new.other ≡ play.old.other }
    ensures most { (D.counts door.new).most ≡ (D.counts door.old).most }
{
    if let Some(mut leg) = mem::replace(&mut play.leg, None) {
        leg.give_up(door);
    }
}

/// Turns the leg until it is done or lacks memory.
fn run<W: World, B: Backend<W>, D: Door<W, B::Session>>(
    alloc: Global,
    route: &Route,
    backend: &mut B,
    door: &mut D,
    play: &mut Play<W, B::Session>,
) -> Result<(), Memory>
    requires { ArePlayed W.World B.Session.Sitting
        route.now (D.counts door.old).most play.old.leg play.old.other }
    ensures { ArePlayed W.World B.Session.Sitting
        route.now (D.counts door.new).most play.new.leg play.new.other }
{
    let Some(leg) = &mut play.leg else {
        return play.line.append(b"no leg");
    };
    let turns = turns_of(alloc, route, backend, door, leg, play.now);
    if leg.is_done() {
        tell(alloc, play)?;
    } else {
        play.line.append(b"not done")?;
    }
    put_turns(alloc, &mut play.line, turns)
}

/// Turns a leg until it is done or lacks memory, and counts the turns.
fn turns_of<W: World, B: Backend<W>, D: Door<W, B::Session>>(
    alloc: Global,
    route: &Route,
    backend: &mut B,
    door: &mut D,
    leg: &mut Leg<W, B::Session>,
    now: u64,
) -> u32
    requires { IsLegOf W.World B.Session.Sitting route.now (D.counts door.old).most leg.old }
    ensures leg { IsLegOf W.World B.Session.Sitting
        route.now (D.counts door.new).most leg.new }
    ensures most { (D.counts door.new).most ≡ (D.counts door.old).most }
{
    for turns in 0..MOST_TURNS {
        if leg.is_done() {
            return turns;
        }
        if let Turned::Memory = leg.turn(alloc, route, backend, door, now) {
            return turns + 1;
        }
    }
    MOST_TURNS
}

/// Tells what a leg that is done came to, and what it counted.
fn tell<W: World, S: Sitting<W>>(alloc: Global, play: &mut Play<W, S>) -> Result<(), Memory>
    ensures none { play.new.leg ≡ None }
    ensures other { play.new.other ≡ play.old.other }
{
    let Some(leg) = mem::replace(&mut play.leg, None) else {
        return Ok(());
    };
    if !leg.is_done() {
        return Ok(());
    }
    let (answer, account) = leg.answer();
    put_answer(alloc, &mut play.line, &answer)?;
    put_account(alloc, &mut play.line, &account)
}
