//! The lines that refusals print.

ghost use Rattle.std.specs.Prelude.{◌≡◌, IfOk};
ghost use Rattle.gateway_config.specs.ConfigRead.{IsTold};
ghost use Rattle.gateway_config.specs.Lines.{fault_line, config_line, Says};
ghost use Rattle.gateway_config.specs.Outside.{sink_writes};

use crate::status::Status;
use gw_outside::{Sink, write_all};
use route_text::RouteFault;
use std::alloc::Global;
use z_types::{Memory, Text};

/// How the program is used.
pub const USAGE: &[u8] =
    b"usage: check CONFIG | replay CONFIG SCRIPT | load N | serve CONFIG PORT WORKERS | events CONFIG PORT MOST\n";

/// Prints a line, as far as the sink takes it.
pub fn say<K: Sink>(out: &mut K, line: &[u8])
    ensures { Says (sink_writes K.Sink out.old out.new) line.now }
{
    let _ = write_all(out, line);
}

/// Prints a text.
pub fn print_text<K: Sink>(out: &mut K, text: &[u8]) -> Status
    ensures { IsTold text.now (sink_writes K.Sink out.old out.new) result }
{
    if write_all(out, text) {
        Status::Ok
    } else {
        Status::WriteFault
    }
}

/// The line of a file that could not be read.
pub(crate) fn fault_line(alloc: Global, name: &Text) -> Result<Text, Memory>
    ensures { IfOk result (λ line. line ≡ fault_line name.now) }
{
    let mut line = Text::new(alloc);
    line.append(b"read fault ")?;
    line.append(name.as_slice())?;
    line.append(b"\n")?;
    Ok(line)
}

/// The line of a configuration that is refused.
pub(crate) fn config_line(alloc: Global, fault: &RouteFault) -> Result<Text, Memory>
    ensures { IfOk result (λ line. line ≡ config_line fault.now) }
{
    let digits = format!(in alloc; "{}", fault.number())?;
    let what = fault.what(alloc)?;
    let mut line = Text::new(alloc);
    line.append(b"config ")?;
    line.append(digits.as_bytes())?;
    line.append(b" ")?;
    line.append(what.as_slice())?;
    line.append(b"\n")?;
    Ok(line)
}
