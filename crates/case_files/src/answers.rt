//! What a program answers to the calls of its cases.

use crate::Answer;
use hex::FromHexError;
use std::alloc::{AllocError, AllocFailed, Global};
use z_types::Memory;

/// Why a case has no answer.
#[derive(Clone, Copy, Debug, PartialEq, Eq)]
pub enum NoAnswer {
    /// No memory could be had.
    Memory,
    /// The call has another name, or the subject is not written as the call wants it.
    Misspelt,
}

/// The calls that a program's cases name.
pub trait Answers {
    /// Puts what a call answers to a subject at the end.
    fn answer(
        &self,
        alloc: Global,
        call: &str,
        subject: &str,
        out: &mut Answer,
    ) -> Result<(), NoAnswer>;
}

impl From<AllocError> for NoAnswer {
    fn from(_: AllocError) -> NoAnswer {
        NoAnswer::Memory
    }
}

impl<T: Drop> From<AllocFailed<T>> for NoAnswer {
    fn from(_: AllocFailed<T>) -> NoAnswer {
        NoAnswer::Memory
    }
}

impl From<Memory> for NoAnswer {
    fn from(_: Memory) -> NoAnswer {
        NoAnswer::Memory
    }
}

impl From<FromHexError> for NoAnswer {
    fn from(fault: FromHexError) -> NoAnswer {
        match fault {
            FromHexError::OutOfMemory => NoAnswer::Memory,
            _ => NoAnswer::Misspelt,
        }
    }
}
