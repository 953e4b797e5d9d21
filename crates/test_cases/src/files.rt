//! Folders of files of cases, which are played.

use crate::case::{Case, Player};
use crate::lines::first_wrong;
use std::{fs, io, str};
use z_types::Memory;

/// Plays the cases of all files of a folder. It prints the name of each that went otherwise than its lines
/// say, with the first step that did, and gives how many went as they say.
pub fn play_folder<P: Player>(
    rt: &HostRuntime,
    folder: &str,
    shared: &str,
    player: &P,
) -> io::Result<u64> {
    let mut right = 0u64;
    for entry in fs::read_dir(rt, folder)? {
        let text = fs::read_to_string(rt, entry?.path())?;
        right = right.saturating_add(play_file(rt, &text, shared, player)?);
    }
    Ok(right)
}

/// Plays the cases of a file.
fn play_file<P: Player>(rt: &HostRuntime, text: &str, shared: &str, player: &P) -> io::Result<u64> {
    let (head, _) = text.split_once("\ncase ").unwrap_or((text, ""));
    let mut right = 0u64;
    for part in text.split("\ncase ").skip(1) {
        let (name, lines) = part.split_once('\n').unwrap_or((part, ""));
        let case = Case {
            name,
            it: "",
            lines,
            head,
            shared,
        };
        right = right.saturating_add(play_each(rt, case, player)?);
    }
    Ok(right)
}

/// Plays a case once, or once for each of the words that `it` stands for.
fn play_each<P: Player>(rt: &HostRuntime, case: Case<'_>, player: &P) -> io::Result<u64> {
    let Some(words) = case.setting("each") else {
        return play_once(rt, &case, player);
    };
    let mut right = 0u64;
    for it in words.split_whitespace() {
        right = right.saturating_add(play_once(rt, &Case { it, ..case }, player)?);
    }
    Ok(right)
}

/// Plays a case: 1 where it went as its lines say.
fn play_once<P: Player>(rt: &HostRuntime, case: &Case<'_>, player: &P) -> io::Result<u64> {
    let Ok(answers) = player.play(rt.alloc(), case) else {
        return Err(io::Error::from(io::ErrorKind::OutOfMemory));
    };
    let answers = str::from_utf8(answers.as_slice()).unwrap_or("no text");
    match first_wrong(case.lines, answers) {
        None => Ok(1),
        Some((line, answer)) => {
            println!(rt;
                "{} {}: {line}\n  was answered: {answer}",
                case.name, case.it
            )?;
            Ok(0)
        }
    }
}
