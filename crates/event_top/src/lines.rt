//! What is printed of connections that were served.

ghost use Rattle.std.specs.Prelude.{◌≡◌, IfOk};
ghost use Rattle.event_top.specs.Lines.{served_line};

use std::alloc::Global;
use z_types::{Memory, Text};

/// The line of an accept that failed.
pub(crate) const ACCEPT_FAULT: &[u8] = b"accept fault\n";

/// The line of a wait that failed.
pub(crate) const POLL_FAULT: &[u8] = b"poll fault\n";

/// The line of so many connections that were served.
pub(crate) fn served_line(alloc: Global, number: u64) -> Result<Text, Memory>
    ensures { IfOk result (λ line. line ≡ served_line number) }
{
    let digits = format!(in alloc; "{number}")?;
    let mut line = Text::new(alloc);
    line.append(b"served ")?;
    line.append(digits.as_bytes())?;
    line.append(b"\n")?;
    Ok(line)
}
