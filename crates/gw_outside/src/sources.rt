//! Where octets come from.

ghost use Rattle.std.specs.Prelude.{◌≡◌, ◌≤◌, ◌<◌, ℕ, List, Option, length};
ghost use Rattle.z_types.specs.Counts.{Rose};
ghost use Rattle.gw_outside.specs.Sources.{GotFits, given_after};

/// What a read gave.
#[derive(Clone, Copy, PartialEq, Eq, Debug)]
pub enum Got {
    /// The next octets, from 1 to the buffer's length of them, at the buffer's front.
    Bytes(usize),
    /// Nothing is left.
    End,
    /// The read failed, and the count of faults rose.
    Failed,
}

/// A stream of octets that can be read.
pub trait Source: Drop {
    /// How many reads failed. It never falls.
    ghost faults: { Self → ℕ };

    /// The octets that are left, where the source tells them.
    ghost left: { Self → Option (List ℕ) };

    /// The octets that were given, where the source tells them.
    ghost given: { Self → Option (List ℕ) };

    /// Reads the next octets into the front of `into`, which is not empty.
    fn read(&mut self, into: &mut [u8]) -> Got
        requires { 0 < length into.old }
        ensures fits { GotFits (left self.old) (left self.new) into.old into.new result }
        ensures given { given self.new ≡ given_after into.new result (given self.old) }
        ensures failed { result ≡ Got.Failed → Rose (faults self.old) (faults self.new) }
        ensures faults { faults self.old ≤ faults self.new };
}
