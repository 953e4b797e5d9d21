//! A script, read and played.

ghost use Rattle.std.specs.Prelude.{◌≤◌, ℕ, length, Some};
ghost use Rattle.script.specs.Events.{AreEvents};
ghost use Rattle.gateway_top.specs.Outcome.{IsRefusal, Played, ScriptPlayed, ScriptDone};
ghost use Rattle.gateway_config.specs.Outside.{file_reads, sink_writes};
ghost use Rattle.replay_top.specs.Outside.{wire_calls};

use crate::say::script_line;
use gateway_config::{Status, say, unread};
use gw_outside::{Events, FileGot, Files, Sink, Wire, write_all};
use replay_shares::replay::print;
use replay_top::run;
use route_config::{Route, target_names};
use script::{Event, ScriptFault, read_script};
use std::alloc::Global;
use z_client::ZSession;
use z_types::{List, Sitting, Text, World};

/// The most octets of a script.
const SCRIPT_LIMIT: usize = 16_777_216;

/// Plays the script of a name.
pub(crate) fn play_script<W: World, N: Wire<W> + Events, F: Files, K: Sink>(
    alloc: Global,
    route: &Route,
    wire: &mut N,
    files: &mut F,
    name: &Text,
    out: &mut K,
) -> Status
    ensures { ScriptDone W.World
        (wire_calls N.Watched ⟦<ZSession<W, N::Link> as Sitting<W>>⟧ wire.old wire.new)
        route.now name.now
        (file_reads F.Files files.old files.new) (sink_writes K.Sink out.old out.new) result }
{
    match files.read_all(alloc, name, SCRIPT_LIMIT) {
        FileGot::Whole(text) => play_text(alloc, route, wire, text.as_slice(), out),
        FileGot::Longer => refuse(alloc, out, 0),
        FileGot::Failed => unread(alloc, out, name),
        FileGot::Memory => Status::Memory,
    }
}

/// Plays a script of these octets.
fn play_text<W: World, N: Wire<W> + Events, K: Sink>(
    alloc: Global,
    route: &Route,
    wire: &mut N,
    text: &[u8],
    out: &mut K,
) -> Status
    requires { length text.now ≤ 16777216 }
    ensures { ScriptPlayed W.World
        (wire_calls N.Watched ⟦<ZSession<W, N::Link> as Sitting<W>>⟧ wire.old wire.new) route.now
        (Some text.now) (sink_writes K.Sink out.old out.new) result }
{
    let Ok(names) = target_names(alloc, route) else {
        return Status::Memory;
    };
    match read_script(alloc, text, &names) {
        Ok(events) => play(alloc, route, wire, &events, out),
        Err(ScriptFault::Line(number)) => refuse(alloc, out, number),
        Err(ScriptFault::TooMany(number)) => refuse(alloc, out, number),
        Err(ScriptFault::Memory) => Status::Memory,
    }
}

/// Refuses a script at a line.
fn refuse<K: Sink>(alloc: Global, out: &mut K, number: u64) -> Status
    ensures { IsRefusal number (sink_writes K.Sink out.old out.new) result }
{
    match script_line(alloc, number) {
        Ok(line) => {
            say(out, line.as_slice());
            Status::Script
        }
        Err(_) => Status::Memory,
    }
}

/// Plays events, and prints the page of their report.
fn play<W: World, N: Wire<W> + Events, K: Sink>(
    alloc: Global,
    route: &Route,
    wire: &mut N,
    events: &List<Event>,
    out: &mut K,
) -> Status
    requires { (targets : ℕ) × AreEvents targets events.now }
    ensures { Played W.World
        (wire_calls N.Watched ⟦<ZSession<W, N::Link> as Sitting<W>>⟧ wire.old wire.new)
        route.now events.now (sink_writes K.Sink out.old out.new) result }
{
    let Ok(report) = run(alloc, route, events, wire) else {
        return Status::Memory;
    };
    let Ok(text) = print(alloc, &report) else {
        return Status::Memory;
    };
    if write_all(out, text.as_slice()) {
        Status::Ok
    } else {
        Status::WriteFault
    }
}
