//! Why octets are no header, no frame or no element.

ghost use Rattle.std.specs.Prelude.{◌≡◌};

/// The rule that octets break, where the next header is due in them. The fault at the earlier place
/// goes first.
#[derive(Clone, Copy, Debug, PartialEq, Eq)]
pub enum BerFault {
    /// The octets end too early: they begin with no element, or no frame, while some continuation of
    /// them does.
    Short,
    /// No tag can come there: a number with a leading octet `80`, one below 31 in the long form, or
    /// one above 2147483647 (X.690, 8.1.2).
    BadTag,
    /// A tag stands there, and no length can come: an indefinite length of a primitive element, more
    /// than 8 octets, or the octet `ff` (X.690, 8.1.3). Of a frame of definite length, also an
    /// indefinite one.
    BadLength,
    /// Of a frame: it would take more than 1048576 octets with any element that can come there. The
    /// number is that of the contents octets where the frame's own definite header says them, else
    /// 1048577.
    TooLarge(u64),
    /// What comes there stands at level 65. Of a frame, contents of definite length are not looked
    /// into, so levels in them do not count.
    TooDeep,
}

impl BerFault {
    ghost use Rattle.z_ber.specs.Fault.{fault_number};

    /// The fault's place in the order of the faults, from 1.
    pub fn number(&self) -> u32
        ensures { result ≡ fault_number self.now }
    {
        match self {
            BerFault::Short => 1,
            BerFault::BadTag => 2,
            BerFault::BadLength => 3,
            BerFault::TooLarge(_) => 4,
            BerFault::TooDeep => 5,
        }
    }
}
