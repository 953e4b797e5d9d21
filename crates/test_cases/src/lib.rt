//! Files of cases, and how they are played: what the programs that play cases share. Of a file's lines
//!
//! - one that is empty or begins with `#` says nothing;
//! - `case NAME` begins a case, whose lines are those up to the next one;
//! - `with NAME VALUE` is a setting: of its case, or before the first case of all cases of the file;
//! - `with each WORD ..` has a case played once for each of these words, which `it` then stands for;
//! - any other is a step, and behind a colon and a space stands what it is answered, if it is anything.
#![tactic(auto)]

mod case;
mod files;
mod lines;

pub use crate::case::{Case, Player};
pub use crate::files::play_folder;
pub use crate::lines::step_words;
