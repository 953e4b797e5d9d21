//! Why a request is not taken.

ghost use Rattle.std.specs.Prelude.{◌≡◌};
ghost use Rattle.sru_request.specs.declared.faults.HeadFault.TheVariants.{Memory as no_head_memory};
ghost use Rattle.sru_request.specs.declared.faults.QueryFault.TheVariants.{Memory as no_query_memory};
ghost use Rattle.sru_request.specs.Faults.{fault_number};

use z_types::{Memory, SruDiag};

/// Why a head is not taken. Nothing was changed.
#[derive(Clone, Copy, Debug, PartialEq, Eq)]
pub enum HeadFault {
    /// It is no head of a request of HTTP/1.0 or 1.1, or has too many fields.
    BadHttp,
    /// Its method is not GET.
    NotGet,
    /// Its end is not among the most octets that a head may have.
    HeadTooLarge,
    /// No memory could be had.
    Memory,
}

impl HeadFault {
    /// The number of the refusal, 1 to 3 in the order above; 0 for want of memory, which is none.
    pub fn number(self) -> u32
        ensures { result ≡ fault_number self }
    {
        match self {
            HeadFault::BadHttp => 1,
            HeadFault::NotGet => 2,
            HeadFault::HeadTooLarge => 3,
            HeadFault::Memory => 0,
        }
    }
}

impl From<Memory> for HeadFault {
    ghost from_gives = { λ _ e. e ≡ no_head_memory };

    fn from(_: Memory) -> HeadFault {
        HeadFault::Memory
    }
}

/// Why parameters are not taken. Nothing was changed.
#[derive(PartialEq, Eq, Drop)]
pub enum QueryFault {
    /// The diagnostic that answers the request.
    Diag(SruDiag),
    /// No memory could be had.
    Memory,
}

impl From<Memory> for QueryFault {
    ghost from_gives = { λ _ e. e ≡ no_query_memory };

    fn from(_: Memory) -> QueryFault {
        QueryFault::Memory
    }
}
