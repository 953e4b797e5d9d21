//! Lines of the log: their time, those that repeat, and those that come once a minute.

use crate::Totals;
use crate::dated::second_of;
use crate::repeats::{Repeats, Times};
use log::sink::{Lines, Memory};
use std::alloc::Global;
use std::test::Fail;
use std::time::Duration;
use std::{io, time};

/// A clock that stands.
#[derive(Drop)]
struct Standing(u64);

impl time::Clock for Standing {
    fn monotonic(&self) -> io::Result<Duration> {
        Ok(Duration::from_secs(self.0))
    }

    fn since_1970(&self) -> io::Result<Duration> {
        Ok(Duration::from_secs(self.0))
    }
}

/// Seconds since 1970, as `date -u` writes them.
const SECONDS: [(u64, &str); 5] = [
    (0, "1970-01-01T00:00:00Z"),
    (951_827_696, "2000-02-29T12:34:56Z"),
    (1_796_113_346, "2026-12-01T08:22:26Z"),
    (253_402_300_799, "9999-12-31T23:59:59Z"),
    (253_402_300_800, "-"),
];

#[test]
fn a_second_is_written_in_utc(rt: HostRuntime) -> Result<(), Fail> {
    for (second, wanted) in SECONDS {
        let text = format!(in rt.alloc(); "{}", second_of(&Standing(second)))?;
        assert_eq!(rt; text.as_str(), wanted);
    }
    Ok(())
}

/// At which seconds something comes, and how often it came where it is logged.
const COMES: [(u64, Option<Times>); 6] = [
    (0, Some(Times(1))),
    (0, None),
    (0, None),
    (1, Some(Times(3))),
    (1, None),
    (5, Some(Times(2))),
];

#[test]
fn a_line_that_repeats_is_logged_once_a_second(rt: HostRuntime) -> Result<(), Fail> {
    let repeats = Repeats::new();
    for (second, wanted) in COMES {
        assert!(rt; repeats.count(second) == wanted, "{second}");
    }
    Ok(())
}

/// The seconds in which connections begin.
const BEGIN: [u64; 7] = [10, 59, 60, 119, 100, 600, 601];

/// What is logged of it: in the first second of a later minute, all so far.
const TOLD: [&str; 2] = [
    "totals: 3 connections open, 0 served, requests 0 Plain, 0 Link, 0 Silent, 0 Gone, 0 Full",
    "totals: 6 connections open, 0 served, requests 0 Plain, 0 Link, 0 Silent, 0 Gone, 0 Full",
];

/// What is logged where connections begin.
fn told_of_beginnings(alloc: Global) -> Lines {
    let log = Memory::new(alloc);
    let totals = Totals::new(alloc);
    for second in BEGIN {
        totals.count_accepted();
        totals.tell_due(&log, second);
    }
    log.into_lines()
}

#[test]
fn totals_are_logged_once_a_minute_in_which_something_happened(
    rt: HostRuntime,
) -> Result<(), Fail> {
    let lines = told_of_beginnings(rt.alloc());
    assert!(rt; lines.len() == TOLD.len());
    for (line, wanted) in lines.as_slice().iter().zip(TOLD) {
        assert!(rt; line.as_str().ends_with(wanted), "{line}");
    }
    Ok(())
}
