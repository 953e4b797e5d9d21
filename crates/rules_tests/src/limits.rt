//! The limits of a connection of Z39.50: 3 units, 2 searches, 1500 records and 1 set. A subject of `allow` tells what was
//! used, and what is wanted.

use case_files::{Answer, NoAnswer, number_of};
use limit_rules::{Spent, Want, allow, room};
use z_types::Limits;

const LIMITS: Limits = Limits {
    units: 3,
    searches: 2,
    records: 1500,
    sets: 1,
};

/// Whether a call is one of these. Its answer is put at the end.
pub(crate) fn is_answered(call: &str, words: &str, out: &mut Answer) -> Result<bool, NoAnswer> {
    match call {
        "allow" => put_allowed(out, words)?,
        "room" => out.print(&room(&LIMITS, number_of(words)?)),
        _ => return Ok(false),
    }
    Ok(true)
}

/// Whether what is wanted is allowed, or which limit is met.
fn put_allowed(out: &mut Answer, words: &str) -> Result<(), NoAnswer> {
    let Some((spent, want)) = words.split_once(" wants ") else {
        return Err(NoAnswer::Misspelt);
    };
    let allowed = allow(&LIMITS, &spent_of(spent)?, &want_of(want)?);
    out.spell(&allowed);
    Ok(())
}

/// Which of the two that were used.
fn spent_of(words: &str) -> Result<Spent, NoAnswer> {
    match words {
        "before" => Ok(Spent {
            units: 2,
            searches: 1,
            records: 500,
            sets: 0,
        }),
        "at" => Ok(Spent {
            units: 3,
            searches: 2,
            records: 501,
            sets: 1,
        }),
        _ => Err(NoAnswer::Misspelt),
    }
}

/// What is wanted; a number is of records.
fn want_of(words: &str) -> Result<Want, NoAnswer> {
    match words {
        "unit" => Ok(Want::Unit),
        "search" => Ok(Want::Search),
        "set" => Ok(Want::NewSet),
        _ => Ok(Want::Records(number_of(words)?)),
    }
}
