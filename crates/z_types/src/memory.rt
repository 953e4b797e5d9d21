//! Want of memory, the one answer that has no cause in the input.

ghost use Rattle.z_types.specs.equality.Memory.{memory_exact};

use crate::Exact;
use std::alloc::{AllocError, AllocFailed};

/// No memory could be had. The call changed nothing that its contract does not name.
#[derive(Clone, Copy, Debug, PartialEq, Eq)]
pub struct Memory;

impl From<AllocError> for Memory {
    fn from(_: AllocError) -> Memory {
        Memory
    }
}

impl<T: Drop> From<AllocFailed<T>> for Memory {
    fn from(_: AllocFailed<T>) -> Memory {
        Memory
    }
}

impl Exact for Memory {
    ghost exact_eq = { memory_exact };

    ghost exact_clone = { λ a b h. h };
}
