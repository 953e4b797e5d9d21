//! Files of cases, which a test program plays: what stands in a file, what is asked of it, and what has to
//! be answered. Which calls there are is told by each program.
//!
//! A file has lines of four kinds:
//!
//! - A line that begins with `#` is for its readers.
//! - A line that begins with four spaces is a case: the name of a call, a space, and its answer, as it has
//!   to be.
//! - Any other line is the subject of the cases below it, up to the next. An empty line is the empty
//!   subject.
//!
//! In a subject `\<3 ITEM\>` stands for ITEM three times, where `\#` is the number of each, from 0. A
//! subject that is octets has them in hexadecimal digits, with spaces where a reader wants them. One that is
//! text has `\n`, `\r`, `\t`, `\\` and `\x` with two digits for octets that do not print.
#![tactic(auto)]

mod answer;
mod answers;
mod notation;
mod player;
mod query;
mod repeats;
mod values;

pub use answer::Answer;
pub use answers::{Answers, NoAnswer};
pub use notation::{octets_of_hex, octets_of_text};
pub use player::play;
pub use values::{diag_of_words, number_of, oid_of_words};
