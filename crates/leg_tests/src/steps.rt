//! What is done with legs, and happens between two turns of them.

use crate::asks::Asked;
use crate::happens::Event;
use crate::logins::Under;
use std::alloc::Global;
use test_cases::{Case, step_words};
use z_types::{List, Memory};

/// What is done with a leg, or happens between two turns of it.
#[derive(Clone, Copy, Drop)]
pub(crate) enum Step {
    /// `begin ..`: a leg is made, and asked for this.
    Begin(Asked),
    /// `turn`: it is turned once.
    Turn,
    /// `run`: it is turned until it is done, or lacks memory.
    Run,
    /// `give up`: it is given up.
    GiveUp,
    /// `other`: the other leg is played on.
    Other,
    /// `now SECONDS`: the moment of the turns from now on.
    Now(u64),
    /// `login LETTER`, `empty login` or `no login`: that of the legs that are made from now on.
    Under(Under),
    /// `gone N`, `slow N` or `cut`: something happens to the links.
    Happen(Event),
    /// Another line.
    Unknown,
}

/// The steps of a case.
pub(crate) fn steps_of(alloc: Global, case: &Case<'_>) -> Result<List<Step>, Memory> {
    let mut steps = List::new(alloc);
    for line in case.lines.lines() {
        let words = step_words(alloc, line)?;
        if !words.is_empty() {
            steps.push(step_of(&words))?;
        }
    }
    Ok(steps)
}

/// The step of words.
fn step_of(words: &[&str]) -> Step {
    match *words {
        ["begin", "hits", letter] => Step::Begin(Asked::Hits(octet_of(letter))),
        ["begin", "hits", "of", "none", letter] => Step::Begin(Asked::HitsOfNone(octet_of(letter))),
        ["begin", "records", letter, first, count] => records_step(letter, first, count),
        ["begin", "scan"] => Step::Begin(Asked::Scan),
        ["give", "up"] => Step::GiveUp,
        ["no", "login"] => Step::Under(Under::Nobody),
        ["empty", "login"] => Step::Under(Under::Empty),
        ["login", letter] => Step::Under(Under::Letter(octet_of(letter))),
        [word] => bare_step(word),
        [word, number] => counted_step(word, number.parse().ok()),
        _ => Step::Unknown,
    }
}

/// The step that begins a leg for this number of records, from a position on.
fn records_step(letter: &str, first: &str, count: &str) -> Step {
    match (first.parse(), count.parse()) {
        (Ok(first), Ok(count)) => Step::Begin(Asked::Records(octet_of(letter), first, count)),
        _ => Step::Unknown,
    }
}

/// The step of a word alone.
fn bare_step(word: &str) -> Step {
    match word {
        "turn" => Step::Turn,
        "run" => Step::Run,
        "other" => Step::Other,
        "cut" => Step::Happen(Event::Cut),
        _ => Step::Unknown,
    }
}

/// The step of a word with a number.
fn counted_step(word: &str, number: Option<u32>) -> Step {
    match (word, number) {
        ("now", Some(seconds)) => Step::Now(u64::from(seconds)),
        ("gone", Some(presents)) => Step::Happen(Event::Gone(presents)),
        ("slow", Some(looks)) => Step::Happen(Event::Slow(looks)),
        _ => Step::Unknown,
    }
}

/// The first octet of a word.
fn octet_of(word: &str) -> u8 {
    word.bytes().next().unwrap_or(0)
}
