//! Why database names stand for no legs.

ghost use Rattle.std.specs.Prelude.{◌≡◌};
ghost use Rattle.virt_db.specs.declared.fault.DbFault.TheVariants.{Memory as no_memory};

use z_types::{Memory, Text};

/// Why database names stand for no legs, or that no memory could be had.
#[derive(Drop)]
pub enum DbFault {
    /// The first name that is no virtual database; the empty text where nothing is named.
    Unknown(Text),
    /// More than 16 databases are named, or they have more than 16 legs: how many.
    TooMany(u64),
    /// No memory could be had.
    Memory,
}

impl DbFault {
    ghost use Rattle.virt_db.specs.Fault.{fault_number};

    /// The number of the refusal: 1 for `Unknown`, 2 for `TooMany`, and 0 for want of memory.
    pub fn number(&self) -> u32
        ensures { result ≡ fault_number self.now }
    {
        match self {
            DbFault::Unknown(_) => 1,
            DbFault::TooMany(_) => 2,
            DbFault::Memory => 0,
        }
    }
}

impl From<Memory> for DbFault {
    ghost from_gives = { λ _ e. e ≡ no_memory };

    fn from(_: Memory) -> DbFault {
        DbFault::Memory
    }
}
