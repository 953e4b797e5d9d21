//! Where octets go.

ghost use Rattle.std.specs.Prelude.{◌≡◌, ◌≤◌, ◌<◌, ℕ, List, Option, length, IsTrue, false};
ghost use Rattle.z_types.specs.Counts.{Rose};
ghost use Rattle.gw_outside.specs.Sinks.{TookFits, ReceivedPrefix, appended};

/// What a write took.
#[derive(Clone, Copy, PartialEq, Eq, Debug)]
pub enum Took {
    /// The first octets of the piece, from 1 to its length of them.
    Bytes(usize),
    /// The write failed, and the count of faults rose.
    Failed,
}

/// A stream of octets that can be written.
pub trait Sink: Drop {
    /// How many writes failed. It never falls.
    ghost faults: { Self → ℕ };

    /// The octets that were received, where the sink tells them.
    ghost received: { Self → Option (List ℕ) };

    /// Writes a front of `piece`, which is not empty. After `Failed` nothing was received.
    fn write(&mut self, piece: &[u8]) -> Took
        requires { 0 < length piece.now }
        ensures fits { TookFits (received self.old) (received self.new) piece.now result }
        ensures failed { result ≡ Took.Failed → Rose (faults self.old) (faults self.new) }
        ensures faults { faults self.old ≤ faults self.new };
}

/// Writes all of it, or answers `false` after a fault, when a front of it was received, and not all.
pub fn write_all<K: Sink>(sink: &mut K, bytes: &[u8]) -> bool
    ensures all { IsTrue result → K.received sink.new ≡ appended (K.received sink.old) bytes.now }
    ensures part { result ≡ false
        → ReceivedPrefix (K.received sink.old) (K.received sink.new) bytes.now }
    ensures cause { result ≡ false → Rose (K.faults sink.old) (K.faults sink.new) }
    ensures faults { K.faults sink.old ≤ K.faults sink.new }
{
    let mut done = 0;
    while done < bytes.len() {
        match sink.write(&bytes[done..]) {
            Took::Bytes(count) => done += count,
            Took::Failed => return false,
        }
    }
    true
}
