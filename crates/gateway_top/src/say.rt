//! The lines of checks and replays.

ghost use Rattle.std.specs.Prelude.{◌≡◌, IfOk};
ghost use Rattle.gateway_top.specs.Lines.{script_line, check_line, real_target_line};

use route_config::Route;
use std::alloc::Global;
use z_types::{Memory, Text};

/// The line of a script that is refused.
pub(crate) fn script_line(alloc: Global, number: u64) -> Result<Text, Memory>
    ensures { IfOk result (λ line. line ≡ script_line number) }
{
    let digits = format!(in alloc; "{number}")?;
    let mut line = Text::new(alloc);
    line.append(b"script line ")?;
    line.append(digits.as_bytes())?;
    line.append(b"\n")?;
    Ok(line)
}

/// The line of a configuration that is good.
pub(crate) fn check_line(alloc: Global, route: &Route) -> Result<Text, Memory>
    ensures { IfOk result (λ line. line ≡ check_line route.now) }
{
    let databases = format!(in alloc; "{}", route.parts().databases.len())?;
    let classes = format!(in alloc; "{}", route.parts().classes.len())?;
    let mut line = Text::new(alloc);
    line.append(b"ok databases ")?;
    line.append(databases.as_bytes())?;
    line.append(b" classes ")?;
    line.append(classes.as_bytes())?;
    line.append(b"\n")?;
    Ok(line)
}

/// The line of a replay that would ask a target that is no test target.
pub(crate) fn real_target_line(alloc: Global, name: &Text) -> Result<Text, Memory>
    ensures { IfOk result (λ line. line ≡ real_target_line name.now) }
{
    let mut line = Text::new(alloc);
    line.append(b"real target ")?;
    line.append(name.as_slice())?;
    line.append(b"\n")?;
    Ok(line)
}
