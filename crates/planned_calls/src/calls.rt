//! The calls of an object, and which of them fail.

ghost use Rattle.std.specs.Prelude.{◌≡◌};
ghost use Rattle.planned_calls.specs.Calls.{is_to_fail};

use z_types::List;

/// How many calls were made, and the numbers of those that are to fail, counted from 1.
#[derive(Drop)]
pub struct Calls {
    failing: List<u64>,
    made: u64,
}

impl Calls {
    ghost use Rattle.planned_calls.specs.Planned.{after_call, fails_next, new_calls};

    /// No call was made; those of these numbers are to fail.
    pub fn new(failing: List<u64>) -> Calls
        ensures { result ≡ new_calls failing }
    {
        Calls { failing, made: 0 }
    }

    /// Counts a call, and tells whether it is to fail.
    pub fn next_fails(&mut self) -> bool
        ensures counted { self.new ≡ after_call self.old }
        ensures fails { result ≡ fails_next self.old }
    {
        self.made = self.made.saturating_add(1);
        is_to_fail(self.failing.as_slice(), self.made)
    }
}

/// Whether the call of a number is to fail.
fn is_to_fail(failing: &[u64], call: u64) -> bool
    ensures { result ≡ is_to_fail failing.now call }
{
    failing.iter().any(|number| *number == call)
}
