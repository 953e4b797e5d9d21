//! The log on the standard error, with the time of each line.

ghost use Rattle.std.specs.Prelude.{[], true, Some};

use httpdate::HttpDate;
use log::kv::Source;
use log::span::Spans;
use log::{Line, Log, Metadata, Record};
use std::fmt::Display;
use std::{fmt, str, time};

/// Writes each record to the standard error of a runtime, a line each, and in front of it the second at which
/// it came, in UTC.
#[derive(Clone, Copy, Drop)]
pub struct DatedConsole<R>(pub R);

impl<R: Eprint + time::Clock> Log for DatedConsole<R> {
    ghost enables = { λ _ _ _. Some true };

    ghost target_of = { λ _. Some [] };

    fn enabled(&self, _metadata: &Metadata<'_>) -> bool {
        true
    }

    fn log<D: Display, K: Source, S: Spans>(&self, record: &Record<'_, D, K, S>) {
        let _ = eprintln!(self.0; "{} {}", second_of(&self.0), Line::new(record));
    }

    fn flush(&self) {}

    fn target(&self) -> &str {
        ""
    }
}

/// A second, as `2026-12-01T08:22:26Z` (RFC 3339).
#[derive(Clone, Copy)]
pub(crate) struct Second {
    date: Option<HttpDate>,
}

/// The second that a clock shows.
pub(crate) fn second_of<R: time::Clock>(clock: &R) -> Second {
    let seconds = match clock.since_1970() {
        Ok(since) => since.as_secs(),
        Err(_) => 0,
    };
    Second {
        date: HttpDate::from_unix_secs(seconds).ok(),
    }
}

impl Display for Second {
    fn fmt<W: fmt::Write>(&self, f: &mut fmt::Formatter<W>) -> fmt::Result {
        match &self.date {
            Some(date) => write_date(f, &date.to_bytes()),
            None => f.write_str("-"),
        }
    }
}

/// Writes a date of HTTP, as `Tue, 01 Dec 2026 08:22:26 GMT`, in the form of RFC 3339.
fn write_date<W: fmt::Write>(f: &mut fmt::Formatter<W>, date: &[u8; 29]) -> fmt::Result {
    write_ascii(f, &date[12..16])?;
    f.write_str(month_of(&date[8..11]))?;
    write_ascii(f, &date[5..7])?;
    f.write_str("T")?;
    write_ascii(f, &date[17..25])?;
    f.write_str("Z")
}

/// Writes octets of ASCII.
fn write_ascii<W: fmt::Write>(f: &mut fmt::Formatter<W>, octets: &[u8]) -> fmt::Result {
    f.write_str(str::from_utf8(octets).map_err(|_| fmt::Error)?)
}

/// The number of a month of this name, between what stands before and behind it.
fn month_of(name: &[u8]) -> &'static str {
    match name {
        b"Jan" => "-01-",
        b"Feb" => "-02-",
        b"Mar" => "-03-",
        b"Apr" => "-04-",
        b"May" => "-05-",
        b"Jun" => "-06-",
        b"Jul" => "-07-",
        b"Aug" => "-08-",
        b"Sep" => "-09-",
        b"Oct" => "-10-",
        b"Nov" => "-11-",
        _ => "-12-",
    }
}
