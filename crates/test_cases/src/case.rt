//! A case, and what plays it.

use crate::lines::value_in;
use std::alloc::Global;
use z_types::{Memory, Text};

/// A case: its lines, and where else its settings may stand.
#[derive(Clone, Copy, Drop)]
pub struct Case<'a> {
    /// Its name.
    pub name: &'a str,
    /// What `it` stands for.
    pub it: &'a str,
    /// Its lines.
    pub lines: &'a str,
    /// The lines before the first case of its file.
    pub head: &'a str,
    /// Lines that all files share.
    pub shared: &'a str,
}

/// What plays cases.
pub trait Player {
    /// Plays a case, and gives the answers to its steps, in their order: a line for each.
    fn play(&self, alloc: Global, case: &Case<'_>) -> Result<Text, Memory>;
}

impl<'a> Case<'a> {
    /// The value of a setting: in the case, else in its file, else in what all files share.
    pub fn setting(&self, name: &str) -> Option<&'a str> {
        value_in(self.lines, name)
            .or(value_in(self.head, name))
            .or(value_in(self.shared, name))
    }
}
