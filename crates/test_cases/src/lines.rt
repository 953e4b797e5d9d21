//! What the lines of a case say.

use std::alloc::Global;
use z_types::Memory;

/// The value of a setting in lines.
pub(crate) fn value_in<'a>(lines: &'a str, name: &str) -> Option<&'a str> {
    for line in lines.lines() {
        if let Some(value) = value_of(line, name) {
            return Some(value);
        }
    }
    None
}

/// The value of a setting, where a line says it.
fn value_of<'a>(line: &'a str, name: &str) -> Option<&'a str> {
    line.strip_prefix("with ")?
        .strip_prefix(name)?
        .strip_prefix(' ')
}

/// The step of a line, and the answer to it, where the line is a step.
pub(crate) fn step_of(line: &str) -> Option<(&str, &str)> {
    if line.is_empty() || line.starts_with('#') || line.starts_with("with ") {
        return None;
    }
    Some(line.split_once(": ").unwrap_or((line, "")))
}

/// The words of a line's step: none where it is no step.
pub fn step_words(alloc: Global, line: &str) -> Result<Vec<&str>, Memory> {
    let (step, _) = step_of(line).unwrap_or(("", ""));
    Ok(step.split_whitespace().collect(alloc)?)
}

/// The first step that was answered otherwise than its line says, and how; answers are lines.
pub(crate) fn first_wrong<'a>(lines: &'a str, answers: &'a str) -> Option<(&'a str, &'a str)> {
    let mut answers = answers.lines();
    for line in lines.lines() {
        if let Some((_, wanted)) = step_of(line) {
            let answer = answers.next().unwrap_or("no answer");
            if answer != wanted {
                return Some((line, answer));
            }
        }
    }
    None
}
