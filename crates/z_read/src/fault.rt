//! Why a unit is not read.

ghost use Rattle.std.specs.Prelude.{◌≡◌};
ghost use Rattle.z_read.specs.declared.fault.ReadFault.TheVariants.{Memory as no_memory};

use std::fmt;
use unit_forms::Refusal;
use z_types::Memory;

/// The rule that a unit breaks.
#[derive(Clone, Copy, Debug, PartialEq, Eq)]
pub enum ReadFault {
    /// The octets are no element of 1048576 octets at most (X.690, 8.1.1). The place is 0 above the
    /// limit; else the first where a header is due that cannot be read, stands at level 65, or has
    /// contents that pass the end of what holds it; else the first octet behind the element.
    Ber(usize),
    /// The unit has this tag, which is none that is known.
    UnknownUnit(u32),
    /// A field of this tag has to be there and is not.
    Missing(u32),
    /// The field of this tag has a form or contents other than its type is read in.
    BadValue(u32),
    /// The string of this tag stands in constructed form.
    LeftOut(u32),
    /// No memory could be had.
    Memory,
}

impl From<Memory> for ReadFault {
    ghost from_gives = { λ _ e. e ≡ no_memory };

    fn from(_: Memory) -> ReadFault {
        ReadFault::Memory
    }
}

impl ReadFault {
    ghost use Rattle.z_read.specs.Fault.{fault_number};

    /// The fault's place in the order in which faults are told, from 1; want of memory has 6.
    pub fn number(&self) -> u32
        ensures { result ≡ fault_number self.now }
    {
        match self {
            ReadFault::Ber(_) => 1,
            ReadFault::UnknownUnit(_) => 2,
            ReadFault::Missing(_) => 3,
            ReadFault::BadValue(_) => 4,
            ReadFault::LeftOut(_) => 5,
            ReadFault::Memory => 6,
        }
    }

    ghost use Rattle.z_read.specs.Fault.{fault_of};

    /// The fault that a refusal is.
    pub(crate) fn of(refusal: Refusal) -> ReadFault
        ensures { result ≡ fault_of refusal }
    {
        match refusal {
            Refusal::UnknownUnit(number) => ReadFault::UnknownUnit(number),
            Refusal::Missing(number) => ReadFault::Missing(number),
            Refusal::BadValue(number) => ReadFault::BadValue(number),
            Refusal::LeftOut(number) => ReadFault::LeftOut(number),
        }
    }
}

impl fmt::Display for ReadFault {
    ghost use Rattle.std.specs.Prelude.{Some};
    ghost use Rattle.z_read.specs.Fault.{sentence};

    ghost output = { λ fault. Some (sentence fault) };

    fn fmt<W: fmt::Write>(&self, f: &mut fmt::Formatter<W>) -> fmt::Result {
        match self {
            ReadFault::Ber(at) => write!(f, "the octets are no element at octet {at}"),
            ReadFault::UnknownUnit(number) => write!(f, "no unit has the tag {number}"),
            ReadFault::Missing(number) => write!(f, "the field {number} is missing"),
            ReadFault::BadValue(number) => write!(f, "the field {number} has a bad value"),
            ReadFault::LeftOut(number) => write!(f, "the string {number} is in constructed form"),
            ReadFault::Memory => f.write_str("out of memory"),
        }
    }
}
