//! A whole script.

ghost use Rattle.std.specs.Prelude.{IfOk, length};
ghost use Rattle.script.specs.Events.{AreEvents};
ghost use Rattle.script.specs.Script.{IsScript};

use crate::events::Events;
use crate::line::{first_line, said_by};
use crate::{Event, ScriptFault};
use std::alloc::Global;
use z_types::{List, Text};

/// The events of a script's octets, for targets of these names, or the first line that is refused.
/// `Line` has the number, counted from 1, of a line that is none of a script or may not follow those
/// before it, and `TooMany` that of the line with the first event past 1000000.
pub fn read_script(
    alloc: Global,
    text: &[u8],
    targets: &List<Text>,
) -> Result<List<Event>, ScriptFault>
    ensures script { IsScript targets.now text.now result }
    ensures events { IfOk result (AreEvents (length targets.now)) }
{
    let mut events = Events::new(alloc)?;
    let mut rest = Some(text);
    let mut number = 1u64;
    while let Some(text) = rest {
        let (line, others) = first_line(text);
        events.put_said(said_by(alloc, targets, line)?, number)?;
        number += 1;
        rest = others;
    }
    Ok(events.into_list())
}
