//! What is left of a text where memory fails.

ghost use Rattle.std.specs.Prelude.{◌≡◌, take, OnOk, OnErr};

use z_types::{Memory, Text};

/// The answer that was given; where memory failed, the text is cut to what stood there before.
pub(crate) fn cut_on_error(
    out: &mut Text,
    start: usize,
    answer: Result<(), Memory>,
) -> Result<(), Memory>
    ensures value { result ≡ answer }
    ensures ok { OnOk answer (out.new ≡ out.old) }
    ensures err { OnErr answer (out.new ≡ take start out.old) }
{
    if answer.is_err() {
        out.truncate(start);
    }
    answer
}
