//! The steps of a session, and what happens to its target between two.

use std::alloc::Global;
use test_cases::{Case, step_words};
use z_types::{List, Memory};

/// A step.
#[derive(Clone, Copy, Drop)]
pub(crate) enum Step {
    /// `open`: a link is made, and an Init sent over it.
    Open,
    /// `search`: the set is searched for.
    Search,
    /// `present N`: this number of records of the set is asked for.
    Present(u32),
    /// `scan`: the index is scanned.
    Scan,
    /// `look N`: the reply is looked for until it has come, at most this number of times, else once.
    Look(u32),
    /// `gone N`: this number of Presents finds all sets gone.
    Gone(u32),
    /// `slow N`: replies arrive after this number of looks.
    Slow(u32),
    /// `cut`: all links are cut.
    Cut,
    /// `arrives OCTETS` or `pieces N OCTETS`: what the next looks find, which the wire was told before.
    Arrives,
    /// Another line.
    Unknown,
}

/// The steps of a case, up to what is asked when all were taken.
pub(crate) fn steps_of(alloc: Global, case: &Case<'_>) -> Result<List<Step>, Memory> {
    let mut steps = List::new(alloc);
    for line in case.lines.lines() {
        let words = step_words(alloc, line)?;
        if let Some(step) = step_of(&words) {
            steps.push(step)?;
        }
    }
    Ok(steps)
}

/// The step of words; none where there are none, and where they ask something at the end.
fn step_of(words: &[&str]) -> Option<Step> {
    match *words {
        [] | ["kept", ..] | ["sent", ..] => None,
        ["arrives", ..] | ["pieces", ..] => Some(Step::Arrives),
        [word] => Some(bare_step(word)),
        [word, number] => Some(counted_step(word, number.parse().ok())),
        _ => Some(Step::Unknown),
    }
}

/// The step of a word alone.
fn bare_step(word: &str) -> Step {
    match word {
        "open" => Step::Open,
        "search" => Step::Search,
        "scan" => Step::Scan,
        "look" => Step::Look(1),
        "cut" => Step::Cut,
        _ => Step::Unknown,
    }
}

/// The step of a word with a number.
fn counted_step(word: &str, number: Option<u32>) -> Step {
    match (word, number) {
        ("present", Some(count)) => Step::Present(count),
        ("look", Some(most)) => Step::Look(most),
        ("gone", Some(presents)) => Step::Gone(presents),
        ("slow", Some(looks)) => Step::Slow(looks),
        _ => Step::Unknown,
    }
}
