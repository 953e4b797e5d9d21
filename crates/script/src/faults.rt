//! Why a script is refused.

ghost use Rattle.std.specs.Prelude.{◌≡◌};
ghost use Rattle.script.specs.declared.faults.ScriptFault.TheVariants.{Memory as no_memory};

use z_types::Memory;

/// Why a script is refused, or that no memory could be had.
#[derive(Clone, Copy, Debug, PartialEq, Eq)]
pub enum ScriptFault {
    /// The line of this number, counted from 1, is not one of a script, or may not follow those before it.
    Line(u64),
    /// The line of this number, counted from 1, has one event more than a script holds.
    TooMany(u64),
    /// No memory could be had.
    Memory,
}

impl ScriptFault {
    ghost use Rattle.script.specs.Faults.{fault_number};

    /// The number of the refusal: 1 for a line, 2 for too many events, and 0 for want of memory.
    pub fn number(&self) -> u32
        ensures { result ≡ fault_number self.now }
    {
        match self {
            ScriptFault::Line(_) => 1,
            ScriptFault::TooMany(_) => 2,
            ScriptFault::Memory => 0,
        }
    }
}

impl From<Memory> for ScriptFault {
    ghost from_gives = { λ _ e. e ≡ no_memory };

    fn from(_: Memory) -> ScriptFault {
        ScriptFault::Memory
    }
}
