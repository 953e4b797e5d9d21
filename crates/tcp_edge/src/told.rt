//! What came of a connection, as the log tells it.

use gw_outside::{Came, Whose};
use std::fmt;
use z_types::Mark;

/// What came of a connection: its requests, with those among them whose mark is not Plain by the kind of their
/// mark, and how many Presents were answered by records that were kept; how it ended; and whose it was.
#[derive(Drop)]
pub struct Told<'a>(pub Came<'a>);

impl fmt::Display for Told<'_> {
    fn fmt<W: fmt::Write>(&self, f: &mut fmt::Formatter<W>) -> fmt::Result {
        let came = &self.0;
        let [link, silent, gone, full] = counts_of(came.marks);
        write!(
            f,
            "{} requests ({link} Link, {silent} Silent, {gone} Gone, {full} Full)",
            came.marks.len(),
        )?;
        if came.cached > 0 {
            write!(f, ", {} from the cache", came.cached)?;
        }
        match came.end {
            Some(end) => write!(f, ", {end:?}")?,
            None => write!(f, ", given up")?,
        }
        tell_whose(f, came.whose)
    }
}

/// Whose a connection was, where that can be told. Nothing of a login is told but the name of a user of the route.
fn tell_whose<W: fmt::Write>(f: &mut fmt::Formatter<W>, whose: Whose<'_>) -> fmt::Result {
    match whose {
        Whose::Untold => Ok(()),
        Whose::Refused(1) => write!(f, ", login refused"),
        Whose::Refused(times) => write!(f, ", login refused {times} times"),
        Whose::Anonymous => write!(f, ", as anonymous"),
        Whose::User(name) => {
            let name = std::str::from_utf8(name.as_slice()).unwrap_or("?");
            write!(f, ", as {name}")
        }
    }
}

/// How many marks are Link, Silent, Gone and Full.
fn counts_of(marks: &[Mark]) -> [usize; 4] {
    let mut counts = [0usize; 4];
    for mark in marks {
        let place = match mark {
            Mark::Plain => continue,
            Mark::Link => 0,
            Mark::Silent(_) => 1,
            Mark::Gone => 2,
            Mark::Full(_) => 3,
        };
        counts[place] = counts[place].saturating_add(1);
    }
    counts
}
