//! Sessions that are played step by step. Only what may be asked of a session is asked: a step that may
//! not be taken is told and left out.

ghost use Rattle.std.specs.Prelude.{◌≡◌};
ghost use Rattle.unit_forms.specs.Logins.{HasLogin};
ghost use Rattle.links_tests.specs.Stories.{IsStage, Awaits, IsAtRest, MayAskOf, found_after, hits_after, stage_after};

use crate::asks::{present, scan, search};
use crate::steps::Step;
use crate::words::{put_heard, put_number};
use gw_outside::{Backend, Began, Events, Heard, Opening};
use std::alloc::Global;
use std::mem;
use z_types::{Address, Ask, MOST_NUMBER, Memory, Text, World};

/// What a session waits for.
#[derive(Drop)]
pub(crate) enum Stage<S> {
    /// There is no session.
    None,
    /// The reply to its Init, or to an ask.
    Waits(S, Option<Ask>),
    /// Nothing: it rests.
    Rests(S),
}

/// The session that is played, how many records its set has, how many looks of the last step found no
/// reply, and the answers so far.
#[derive(Drop)]
struct Play<S> {
    stage: Stage<S>,
    hits: u32,
    waits: u32,
    line: Text,
}

/// The answers to steps of a session with the target of an address, a line for each: what is heard, or why
/// a step was not taken.
pub(crate) fn answers_to<W: World, B: Backend<W> + Events>(
    alloc: Global,
    backend: &mut B,
    address: &Address,
    steps: &[Step],
) -> Result<Text, Memory>
    requires { HasLogin address.now }
{
    let mut play = Play {
        stage: Stage::None,
        hits: 0,
        waits: 0,
        line: Text::new(alloc),
    };
    take_steps(alloc, backend, address, &mut play, steps)?;
    Ok(play.line)
}

/// Takes steps.
fn take_steps<W: World, B: Backend<W> + Events>(
    alloc: Global,
    backend: &mut B,
    address: &Address,
    play: &mut Play<B::Session>,
    steps: &[Step],
) -> Result<(), Memory>
    requires login { HasLogin address.now }
    requires stage { IsStage B.Session.Sitting play.old.stage play.old.hits }
{
    for step in steps {
        take_step(alloc, backend, address, play, *step)?;
        play.line.push(b'\n')?;
    }
    Ok(())
}

/// Takes a step.
fn take_step<W: World, B: Backend<W> + Events>(
    alloc: Global,
    backend: &mut B,
    address: &Address,
    play: &mut Play<B::Session>,
    step: Step,
) -> Result<(), Memory>
    requires login { HasLogin address.now }
    requires stage { IsStage B.Session.Sitting play.old.stage play.old.hits }
    ensures { IsStage B.Session.Sitting play.new.stage play.new.hits }
{
    match step {
        Step::Open => open(alloc, backend, address, play),
        Step::Search => ask(alloc, backend, play, search(alloc)?),
        Step::Present(count) => {
            if count == 0 || play.hits < count || MOST_NUMBER < count {
                return play.line.append(b"no such records");
            }
            ask(alloc, backend, play, present(alloc, count)?)
        }
        Step::Scan => ask(alloc, backend, play, scan(alloc)?),
        Step::Look(most) => listen(alloc, backend, play, most),
        Step::Gone(presents) => backend.gone(0, presents),
        Step::Slow(looks) => backend.slow(0, looks),
        Step::Cut => backend.cut(0),
        Step::Arrives => Ok(()),
        Step::Unknown => play.line.append(b"no such step"),
    }
}

/// Opens a session.
fn open<W: World, B: Backend<W>>(
    alloc: Global,
    backend: &mut B,
    address: &Address,
    play: &mut Play<B::Session>,
) -> Result<(), Memory>
    requires { HasLogin address.now }
    ensures { IsStage B.Session.Sitting play.new.stage play.new.hits }
{
    play.stage = Stage::None;
    play.hits = 0;
    match backend.open_(alloc, address) {
        Opening::Session(session) => {
            play.stage = Stage::Waits(session, None);
            Ok(())
        }
        Opening::Failed { linked: false } => play.line.append(b"no session"),
        Opening::Failed { linked: true } => play.line.append(b"no session over the link"),
        Opening::Memory => Err(Memory),
    }
}

/// Asks the session, where it rests.
fn ask<W: World, B: Backend<W>>(
    alloc: Global,
    backend: &mut B,
    play: &mut Play<B::Session>,
    ask: Ask,
) -> Result<(), Memory>
    requires stage { IsStage B.Session.Sitting play.old.stage play.old.hits }
    requires may { MayAskOf play.old.hits ask }
    ensures { IsStage B.Session.Sitting play.new.stage play.new.hits }
{
    match mem::replace(&mut play.stage, Stage::None) {
        Stage::Rests(session) => start(alloc, backend, play, session, ask),
        stage => {
            play.stage = stage;
            play.line.append(b"not asked")
        }
    }
}

/// Asks a session that rests.
#[tactic(auto, using(crate::proofs::PlayLemmas::may_ask))]
fn start<W: World, B: Backend<W>>(
    alloc: Global,
    backend: &mut B,
    play: &mut Play<B::Session>,
    mut session: B::Session,
    ask: Ask,
) -> Result<(), Memory>
    requires none { play.old.stage ≡ Stage.None }
    requires rests { IsAtRest B.Session.Sitting session play.old.hits }
    requires may { MayAskOf play.old.hits ask }
    ensures { IsStage B.Session.Sitting play.new.stage play.new.hits }
{
    match backend.start(alloc, &mut session, &ask) {
        Began::Started => {
            play.stage = Stage::Waits(session, Some(ask));
            Ok(())
        }
        Began::Failed => play.line.append(b"not sent"),
        Began::Memory => Err(Memory),
    }
}

/// Looks for the reply until it has come, at most so many times.
fn listen<W: World, B: Backend<W>>(
    alloc: Global,
    backend: &mut B,
    play: &mut Play<B::Session>,
    most: u32,
) -> Result<(), Memory>
    requires { IsStage B.Session.Sitting play.old.stage play.old.hits }
    ensures { IsStage B.Session.Sitting play.new.stage play.new.hits }
{
    play.waits = 0;
    for waits in 0..most {
        look(alloc, backend, play)?;
        if play.waits == waits {
            return put_waits(alloc, &mut play.line, waits);
        }
    }
    play.line.append(b"not yet")
}

/// Puts how many looks found no reply behind a line, where any did.
fn put_waits(alloc: Global, line: &mut Text, waits: u32) -> Result<(), Memory> {
    if waits == 0 {
        return Ok(());
    }
    put_number(alloc, line, ", looks in vain ", waits)
}

/// Looks for the reply once, where the session waits for one.
fn look<W: World, B: Backend<W>>(
    alloc: Global,
    backend: &mut B,
    play: &mut Play<B::Session>,
) -> Result<(), Memory>
    requires { IsStage B.Session.Sitting play.old.stage play.old.hits }
    ensures { IsStage B.Session.Sitting play.new.stage play.new.hits }
{
    match mem::replace(&mut play.stage, Stage::None) {
        Stage::Waits(session, ask) => hear(alloc, backend, play, session, ask),
        stage => {
            play.stage = stage;
            play.line.append(b"nothing awaited")
        }
    }
}

/// Looks for the reply that a session waits for.
#[tactic(auto, using(crate::proofs::PlayLemmas::awaits_reply, crate::proofs::PlayLemmas::heard_stage))]
fn hear<W: World, B: Backend<W>>(
    alloc: Global,
    backend: &mut B,
    play: &mut Play<B::Session>,
    mut session: B::Session,
    ask: Option<Ask>,
) -> Result<(), Memory>
    requires none { play.old.stage ≡ Stage.None }
    requires awaits { Awaits B.Session.Sitting session ask play.old.hits }
    ensures { IsStage B.Session.Sitting play.new.stage play.new.hits }
{
    let heard = backend.look(alloc, &mut session);
    put_heard(alloc, &mut play.line, &heard)?;
    play.waits = waits_after(&heard, play.waits);
    play.hits = hits_after(&ask, &heard, play.hits);
    play.stage = stage_after(session, ask, &heard);
    Ok(())
}

/// How many looks of a step found no reply after this one.
fn waits_after(heard: &Heard, waits: u32) -> u32 {
    match heard {
        Heard::NotYet => waits.saturating_add(1),
        _ => waits,
    }
}

/// What a session that waits for a reply waits for after what was heard.
fn stage_after<S: Drop>(session: S, ask: Option<Ask>, heard: &Heard) -> Stage<S>
    ensures { result ≡ stage_after session ask heard.now }
{
    match heard {
        Heard::NotYet => Stage::Waits(session, ask),
        Heard::Failed | Heard::Memory => Stage::None,
        _ => Stage::Rests(session),
    }
}

/// How many records the set has after what was heard of what was asked.
fn hits_after(ask: &Option<Ask>, heard: &Heard, hits: u32) -> u32
    ensures { result ≡ hits_after ask.now heard.now hits }
{
    match ask {
        Some(Ask::Search { .. }) => found_after(heard, hits),
        Some(Ask::Present { .. }) | Some(Ask::Scan { .. }) | None => hits,
    }
}

/// How many records the set has after the answer to a search.
fn found_after(heard: &Heard, hits: u32) -> u32
    ensures { result ≡ found_after heard.now hits }
{
    match heard {
        Heard::Hits(found) => *found,
        Heard::Refused(_) => 0,
        _ => hits,
    }
}
