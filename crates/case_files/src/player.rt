//! The files of cases in the folder where a program runs, played.

use crate::repeats::written_out;
use crate::{Answer, Answers, NoAnswer};
use std::alloc::{AllocError, Global};
use std::fs::read_dir;
use std::{fs, io, rt};

/// Plays each file whose name ends in `.cases`, prints each case whose answer is another, and how many
/// were answered as they have to be.
pub fn play<R: rt::Files + Print + AllocGlobal + Clone + Drop, A: Answers>(
    runtime: &R,
    answers: &A,
) -> io::Result<()> {
    let mut right = 0u64;
    for entry in read_dir(runtime, ".")? {
        let entry = entry?;
        right = right.saturating_add(right_in(runtime, answers, entry.file_name())?);
    }
    println!(runtime; "{right} cases are answered as they have to be")
}

/// How many cases of a file are answered as they have to be; none where it is no file of cases.
fn right_in<R: rt::Files + Print + AllocGlobal + Clone + Drop, A: Answers>(
    runtime: &R,
    answers: &A,
    name: &str,
) -> io::Result<u64> {
    if !name.ends_with(".cases") {
        return Ok(0);
    }
    let text = fs::read_to_string(runtime, name)?;
    let mut right = 0u64;
    let mut subject = "";
    for line in text.lines() {
        match line.strip_prefix("    ") {
            Some(case) => {
                if is_right(runtime, answers, name, subject, case)? {
                    right = right.saturating_add(1);
                }
            }
            None if line.starts_with('#') => {}
            None => subject = line,
        }
    }
    Ok(right)
}

/// Whether a case is answered as it has to be; of one that is not, its subject and the answer are printed.
fn is_right<R: Print + AllocGlobal, A: Answers>(
    runtime: &R,
    answers: &A,
    name: &str,
    subject: &str,
    case: &str,
) -> io::Result<bool> {
    let (call, wanted) = case.split_once(' ').unwrap_or((case, ""));
    let answer = answer_of(runtime.alloc(), answers, call, subject)?;
    let is_right = answer.as_str() == wanted;
    if !is_right {
        println!(runtime; "{name}: {subject}\n    {call} {answer}")?;
    }
    Ok(is_right)
}

/// What a call answers to a subject.
fn answer_of<A: Answers>(
    alloc: Global,
    answers: &A,
    call: &str,
    subject: &str,
) -> Result<String, AllocError> {
    match words_of(alloc, answers, call, subject) {
        Ok(words) => Ok(words),
        Err(NoAnswer::Misspelt) => String::from_str(alloc, "(the case is misspelt)"),
        Err(NoAnswer::Memory) => Err(AllocError),
    }
}

/// The words of that, if there is an answer.
fn words_of<A: Answers>(
    alloc: Global,
    answers: &A,
    call: &str,
    subject: &str,
) -> Result<String, NoAnswer> {
    let subject = written_out(alloc, subject)?;
    let mut out = Answer::new(alloc);
    answers.answer(alloc, call, subject.as_str(), &mut out)?;
    out.into_words()
}
