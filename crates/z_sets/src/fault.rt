//! Why a query has no expansion.

ghost use Rattle.std.specs.Prelude.{◌≡◌};
ghost use Rattle.z_sets.specs.declared.fault.ExpandFault.TheVariants.{Memory as no_memory};

use z_types::{Memory, Text};

/// Why a query has no expansion, in the order of the tests, or that no memory could be had. A number
/// that would pass its type's end is told as that end.
#[derive(Drop)]
pub enum ExpandFault {
    /// The first operand that fails names a result set that does not exist: its name.
    UnknownSet(Text),
    /// The first operand that fails names a result set of other legs: its name.
    OtherLegs(Text),
    /// The query would have more than 4096 nodes: their number.
    TooLarge(u64),
    /// The query would have more than 48 levels: their number.
    TooDeep(u32),
    /// The query would cost more than 900000: its cost.
    TooCostly(u64),
    /// No memory could be had.
    Memory,
}

impl ExpandFault {
    ghost use Rattle.z_sets.specs.Fault.{fault_number};

    /// The number of the refusal, 1 to 5 in the order of the tests, and 0 for want of memory.
    pub fn number(&self) -> u32
        ensures { result ≡ fault_number self.now }
    {
        match self {
            ExpandFault::UnknownSet(_) => 1,
            ExpandFault::OtherLegs(_) => 2,
            ExpandFault::TooLarge(_) => 3,
            ExpandFault::TooDeep(_) => 4,
            ExpandFault::TooCostly(_) => 5,
            ExpandFault::Memory => 0,
        }
    }
}

impl From<Memory> for ExpandFault {
    ghost from_gives = { λ _ e. e ≡ no_memory };

    fn from(_: Memory) -> ExpandFault {
        ExpandFault::Memory
    }
}
