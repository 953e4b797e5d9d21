//! Files that are read whole.

ghost use Rattle.std.specs.Prelude.{◌≡◌, ◌≢◌, ◌≤◌, ℕ, List, Option, IfSome};
ghost use Rattle.z_types.specs.Counts.{Rose};
ghost use Rattle.gw_outside.specs.Files.{FileFits};

use std::alloc::Global;
use z_types::Text;

/// What the read of a file gave.
#[derive(Drop)]
pub enum FileGot {
    /// Its octets, at most as many as the limit.
    Whole(Text),
    /// It is longer than the limit.
    Longer,
    /// It could not be read, and the count of faults rose.
    Failed,
    /// No memory could be had.
    Memory,
}

/// Files by their names.
pub trait Files {
    /// How many reads failed. It never falls.
    ghost faults: { Self → ℕ };

    /// The octets of the file of a name, where they are told. Reading changes none.
    ghost contents: { Self → List ℕ → Option (List ℕ) };

    /// The name of the file whose read failed last, where it is told.
    ghost last_failed: { Self → Option (List ℕ) };

    /// Reads the file of that name whole, unless it is longer than `limit` octets.
    fn read_all(&mut self, alloc: Global, name: &Text, limit: usize) -> FileGot
        ensures fits { FileFits (contents self.old name.now) limit result }
        ensures failed { result ≡ FileGot.Failed → Rose (faults self.old) (faults self.new) }
        ensures named { result ≡ FileGot.Failed
            → IfSome (last_failed self.new) (λ last. last ≡ name.now) }
        ensures kept { result ≢ FileGot.Failed → last_failed self.new ≡ last_failed self.old }
        ensures contents { (other : List ℕ) → contents self.new other ≡ contents self.old other }
        ensures faults { faults self.old ≤ faults self.new };
}
