//! Cases of sessions: over the test targets, and over a wire whose looks find what the case says.
//!
//! Steps are those of `steps`. Before them all, the wire is told what it finds: `arrives OCTETS` at one look,
//! `pieces N OCTETS` in pieces of N octets with a look that finds nothing between two. At the end
//! `kept OCTETS` asks whether these are the octets that the session kept, and `sent UNIT ..` whether just
//! these units were sent, each by one call; what else it was is the answer. The setting `address` says with
//! whom sessions are, and `login` inside which login, by an Init that has it.

ghost use Rattle.std.specs.Prelude.{IfOk};
ghost use Rattle.unit_forms.specs.Logins.{HasLogin};

use crate::addresses::address_of;
use crate::octets::{digits_of, octets_of, put_digits};
use crate::played::PlayedWire;
use crate::plays::answers_to;
use crate::steps::{Step, steps_of};
use gw_outside::{Events, Wire};
use std::alloc::Global;
use test_cases::{Case, Player, step_words};
use test_target::TestWorld;
use test_wire::TestWire;
use z_client::ZBackend;
use z_types::{Address, List, Memory, Text};

/// Plays sessions with test targets.
pub(crate) struct OverTargets;

/// Plays sessions with a target whose octets the case says.
pub(crate) struct OverPlayed;

/// What came of a session: its answers, the octets that are kept, in hexadecimal digits, and the wire.
#[derive(Drop)]
struct Ended<N> {
    answers: Text,
    kept: Text,
    wire: N,
}

/// What a session is played with: an address, inside a login or by itself, and the steps.
#[derive(Drop)]
struct Plan {
    address: Address,
    steps: List<Step>,
}

impl Player for OverTargets {
    fn play(&self, alloc: Global, case: &Case<'_>) -> Result<Text, Memory> {
        let plan = plan_of(alloc, case)?;
        Ok(play_over(alloc, TestWire::new(alloc), &plan)?.answers)
    }
}

impl Player for OverPlayed {
    fn play(&self, alloc: Global, case: &Case<'_>) -> Result<Text, Memory> {
        let plan = plan_of(alloc, case)?;
        let ended = play_over(alloc, wire_of(alloc, case)?, &plan)?;
        let mut answers = ended.answers;
        put_ends(alloc, case, &mut answers, (&ended.kept, ended.wire.sent()))?;
        Ok(answers)
    }
}

/// What a case is played with.
fn plan_of(alloc: Global, case: &Case<'_>) -> Result<Plan, Memory>
    ensures { IfOk result (λ plan. HasLogin plan.address) }
{
    let steps = steps_of(alloc, case)?;
    let address = address_of(alloc, case, case.setting("address").unwrap_or(""))?;
    Ok(Plan { address, steps })
}

/// Plays a session over a wire.
fn play_over<N: Wire<TestWorld> + Events + Drop>(
    alloc: Global,
    wire: N,
    plan: &Plan,
) -> Result<Ended<N>, Memory>
    requires { HasLogin plan.now.address }
{
    let mut backend = ZBackend::new(alloc, wire);
    let answers = answers_to::<TestWorld, _>(
        alloc,
        &mut backend,
        &plan.address,
        plan.steps.as_slice(),
    )?;
    let mut kept = Text::new(alloc);
    put_digits(alloc, &mut kept, backend.last())?;
    Ok(Ended {
        answers,
        kept,
        wire: backend.into_wire(),
    })
}

/// The wire of a case.
fn wire_of(alloc: Global, case: &Case<'_>) -> Result<PlayedWire, Memory> {
    let mut wire = PlayedWire::new(alloc);
    for line in case.lines.lines() {
        let words = step_words(alloc, line)?;
        tell_wire(alloc, case, &mut wire, &words)?;
    }
    Ok(wire)
}

/// Tells a wire what the words of a line say of it. What is neither digits nor the name of such never arrives.
fn tell_wire(
    alloc: Global,
    case: &Case<'_>,
    wire: &mut PlayedWire,
    words: &[&str],
) -> Result<(), Memory> {
    match words {
        ["arrives", octets @ ..] => match octets_of(alloc, case, octets)? {
            Some(octets) => wire.bring(alloc, octets.as_slice()),
            None => Ok(()),
        },
        ["pieces", size, octets @ ..] => {
            match (octets_of(alloc, case, octets)?, size.parse::<usize>()) {
                (Some(octets), Ok(size)) => wire.bring_pieces(alloc, octets.as_slice(), size),
                _ => Ok(()),
            }
        }
        _ => Ok(()),
    }
}

/// Puts the answers to what is asked at the end, where these octets were kept and sent.
fn put_ends(
    alloc: Global,
    case: &Case<'_>,
    answers: &mut Text,
    (kept, sent): (&Text, &Text),
) -> Result<(), Memory> {
    for line in case.lines.lines() {
        let words = step_words(alloc, line)?;
        match words.as_slice() {
            ["kept", octets @ ..] => put_end(answers, digits_of(alloc, case, octets, b"")?, kept)?,
            ["sent", units @ ..] => put_end(answers, digits_of(alloc, case, units, b" ")?, sent)?,
            _ => {}
        }
    }
    Ok(())
}

/// Puts a line: empty where just what is wanted was found, else what was; both in hexadecimal digits.
fn put_end(answers: &mut Text, wanted: Option<Text>, found: &Text) -> Result<(), Memory> {
    match wanted {
        Some(wanted) => {
            if wanted != *found {
                answers.append(b"others: ")?;
                answers.append(found.as_slice())?;
            }
        }
        None => answers.append(b"no such octets")?,
    }
    answers.push(b'\n')
}
