//! Scripts of replays and the events that they say, over the targets `alpha`, `alphabet`, `a b` and `7`.

use case_files::{Answer, NoAnswer};
use script::{Event, ScriptFault, read_script};
use std::alloc::Global;
use z_types::{List, Memory, Text};

/// Whether a call is one of these. Its answer is put at the end.
pub(crate) fn is_answered(
    alloc: Global,
    call: &str,
    text: &[u8],
    out: &mut Answer,
) -> Result<bool, NoAnswer> {
    match call {
        "script" => put_script(alloc, out, text)?,
        "events" => put_count(alloc, out, text)?,
        "script_fault" => out.print(&fault_of(text)?.number()),
        _ => return Ok(false),
    }
    Ok(true)
}

/// The events of a script, or why it is none.
fn put_script(alloc: Global, out: &mut Answer, text: &[u8]) -> Result<(), NoAnswer> {
    match read_script(alloc, text, &targets(alloc)?) {
        Ok(events) => put_events(out, events.as_slice()),
        Err(ScriptFault::Memory) => return Err(NoAnswer::Memory),
        Err(fault) => out.spell(&fault),
    }
    Ok(())
}

/// How many events a script has, or why it is none.
fn put_count(alloc: Global, out: &mut Answer, text: &[u8]) -> Result<(), NoAnswer> {
    match read_script(alloc, text, &List::new(alloc)) {
        Ok(events) => out.print(&events.len()),
        Err(ScriptFault::Memory) => return Err(NoAnswer::Memory),
        Err(fault) => out.spell(&fault),
    }
    Ok(())
}

/// The names of the targets: two at one place in the alphabet, one with a space, and one that is a number.
fn targets(alloc: Global) -> Result<List<Text>, Memory> {
    let mut names = List::new(alloc);
    for name in [b"alpha".as_slice(), b"alphabet", b"a b", b"7"] {
        names.push(Text::copy_of(alloc, name)?)?;
    }
    Ok(names)
}

/// A fault of this name.
fn fault_of(name: &[u8]) -> Result<ScriptFault, NoAnswer> {
    match name {
        b"Line" => Ok(ScriptFault::Line(7)),
        b"TooMany" => Ok(ScriptFault::TooMany(7)),
        b"Memory" => Ok(ScriptFault::Memory),
        _ => Err(NoAnswer::Misspelt),
    }
}

/// Puts events at the end, each in brackets.
fn put_events(out: &mut Answer, events: &[Event]) {
    for event in events {
        out.put("[");
        put_event(out, event);
        out.put("]");
    }
}

/// Puts an event at the end, its targets by their places.
fn put_event(out: &mut Answer, event: &Event) {
    match event {
        Event::Feed(client, octets) => {
            put_numbers(out, "feed ", &[*client]);
            out.put(" ");
            out.put_hex(octets.as_slice());
        }
        Event::End(client) => put_numbers(out, "end ", &[*client]),
        Event::Step(client) => put_numbers(out, "step ", &[*client]),
        Event::Run(client) => put_numbers(out, "run ", &[*client]),
        Event::Tick(seconds) => put_numbers(out, "tick ", &[*seconds]),
        Event::Gone(target, presents) => put_numbers(out, "gone ", &[*target, *presents]),
        Event::Cut(target) => put_numbers(out, "cut ", &[*target]),
        Event::Slow(target, looks) => put_numbers(out, "slow ", &[*target, *looks]),
    }
}

/// Puts numbers at the end, behind the name of what they are of.
fn put_numbers(out: &mut Answer, name: &str, numbers: &[u32]) {
    out.put(name);
    out.put_numbers(" ", numbers);
}
