//! The brackets and prefix assignments that an unfinished query is within.

ghost use Rattle.std.specs.Prelude.{◌≡◌, ◌≤◌, ◌+◌, [], OnOk, IfErr};
ghost use Rattle.cql_parse.specs.ParserBrackets.{IsFull};
ghost use Rattle.z_types.specs.Bounds.{most_query_depth};

use crate::fault::Stop;
use crate::frame::{Frame, LeftOperand};
use std::alloc::Global;
use std::marker::Model;
use z_types::{MOST_QUERY_DEPTH, Memory, Text};

/// The frames, and how many of them are brackets, at most 48.
#[derive(Drop)]
pub struct Stack {
    /// The frames, the innermost last.
    frames: Vec<Frame>,
    /// How many of them are brackets.
    brackets: u32,
}

impl Model for Stack {
    ghost use Rattle.std.specs.Prelude.{◌≡◌, ◌≤◌, reverse, count_by};
    ghost use Rattle.std.specs.Coded.{codes};
    ghost use Rattle.cql_parse.specs.contracts.tree.Cql as cql;
    ghost use Rattle.cql_parse.specs.ParserBrackets.{Within, is_bracket};
    ghost use Rattle.z_types.specs.Bounds.{most_query_depth};

    ghost Value = { Within };

    ghost coded = { Prim.hlevel (codes, cql.the_row.coded) };

    ghost view = { λ s. record { frames = reverse s.frames.items; brackets = s.brackets } };

    ghost invariant = { λ s.
        (s.brackets ≡ count_by is_bracket s.frames.items) × (s.brackets ≤ most_query_depth) };
}

impl Stack {
    ghost use Rattle.cql_parse.specs.ParserSteps.{IsPushed, IsPopped, LosesBracket};

    /// No frames.
    pub fn new(alloc: Global) -> Stack
        ensures frames { result.frames ≡ [] }
        ensures brackets { result.brackets ≡ 0 }
    {
        Stack {
            frames: Vec::new(alloc),
            brackets: 0,
        }
    }

    /// At most 48 brackets are open.
    pub fn are_few(&self)
        ensures { self.now.brackets ≤ most_query_depth }
    {
        let _ = &self.brackets;
    }

    /// Opens brackets; without memory, or where 48 are open, nothing is changed.
    pub fn push_bracket(&mut self, left: Option<LeftOperand>) -> Result<(), Stop>
        ensures frames { OnOk result (IsPushed self.old (Frame.Bracket left) self.new) }
        ensures brackets { OnOk result (self.new.brackets ≡ self.old.brackets + 1) }
        ensures refused { IfErr result (λ e. IsFull self.old.brackets e) }
    {
        if self.brackets >= MOST_QUERY_DEPTH {
            drop(left);
            return Err(Stop::Deep);
        }
        match self.frames.push(Frame::Bracket(left)) {
            Ok(()) => {
                self.brackets += 1;
                Ok(())
            }
            Err(failed) => {
                drop(failed);
                Err(Stop::Memory)
            }
        }
    }

    /// Begins a prefix assignment; without memory nothing is changed.
    pub fn push_prefix(
        &mut self,
        left: Option<LeftOperand>,
        name: Option<Text>,
        uri: Text,
    ) -> Result<(), Memory>
        ensures frames { OnOk result (IsPushed self.old (Frame.Prefix left name uri) self.new) }
        ensures brackets { self.new.brackets ≡ self.old.brackets }
    {
        self.frames.push(Frame::Prefix(left, name, uri))?;
        Ok(())
    }

    /// Takes the innermost frame out.
    pub fn pop(&mut self) -> Option<Frame>
        ensures frames { IsPopped self.old result self.new }
        ensures brackets { LosesBracket self.old result self.new }
    {
        let frame = self.frames.pop()?;
        if matches!(frame, Frame::Bracket(_)) {
            self.brackets -= 1;
        }
        Some(frame)
    }
}
