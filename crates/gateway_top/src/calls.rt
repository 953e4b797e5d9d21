//! The top call, which the program makes.

ghost use Rattle.gateway_top.specs.Outcome.{IsDone, ReplayDone, CheckDone, RoutePlayed, IsMemoryOr, IsTargetRefusal, IsTextPrinted};
ghost use Rattle.gateway_config.specs.Outside.{file_reads, sink_writes};
ghost use Rattle.replay_top.specs.Outside.{wire_calls};
ghost use Rattle.gateway_top.specs.Headline.{IsReplayHeadline, IsCheckHeadline, IsLoadHeadline};
ghost use Rattle.gateway_top.specs.Targets.{first_real};
ghost use Rattle.gateway_top.specs.Lines.{check_line};

use crate::load::load;
use crate::play::play_script;
use crate::say::{check_line, real_target_line};
use crate::targets::first_real;
use crate::words::{check_of, load_of, replay_of};
use gateway_config::{ConfigRead, Status, USAGE, read_config, refuse_config, say, unread};
use gw_outside::{Events, Files, Sink, Wire, write_all};
use route_config::Route;
use std::alloc::Global;
use z_client::ZSession;
use z_types::{Sitting, Text, World};

/// Does what the words after the program's name say, and answers how it ended. It prints only when
/// its work is done. The words are refused first, then the configuration, then a target that is no test
/// target, then the script.
pub fn top<W: World, N: Wire<W> + Events, F: Files, K: Sink>(
    alloc: Global,
    words: &[Text],
    files: &mut F,
    out: &mut K,
    wire: &mut N,
) -> Status
    // At Ok the page of one report is printed, of the answers that a route with private sessions gives,
    // of sums that an exact wire counted, and of marks that have their counted cause.
    ensures headline { IsReplayHeadline W.World
        (wire_calls N.Watched ⟦<ZSession<W, N::Link> as Sitting<W>>⟧ wire.old wire.new) words.now
        (file_reads F.Files files.old files.new) (sink_writes K.Sink out.old out.new) result }

    // At Ok of `check` the sizes of the configuration's route are printed.
    ensures checked { IsCheckHeadline words.now
        (file_reads F.Files files.old files.new) (sink_writes K.Sink out.old out.new) result }

    // At Ok of `load` the line of one report is printed, of the events of so many clients.
    ensures loaded { IsLoadHeadline W.World
        (wire_calls N.Watched ⟦<ZSession<W, N::Link> as Sitting<W>>⟧ wire.old wire.new) words.now
        (sink_writes K.Sink out.old out.new) result }

    // Each status comes exactly as its definition says, with what is printed.
    ensures done { IsDone W.World
        (wire_calls N.Watched ⟦<ZSession<W, N::Link> as Sitting<W>>⟧ wire.old wire.new) words.now
        (file_reads F.Files files.old files.new) (sink_writes K.Sink out.old out.new) result }
{
    if let Some(config) = check_of(words) {
        return check(alloc, config, files, out);
    }
    if let Some((config, script)) = replay_of(words) {
        return replay(alloc, config, script, files, out, wire);
    }
    match load_of(words) {
        Some(clients) => load(alloc, clients, out, wire),
        None => {
            say(out, USAGE);
            Status::Words
        }
    }
}

/// Checks the configuration of one file.
fn check<F: Files, K: Sink>(alloc: Global, config: &Text, files: &mut F, out: &mut K) -> Status
    ensures { CheckDone config.now
        (file_reads F.Files files.old files.new) (sink_writes K.Sink out.old out.new) result }
{
    match read_config(alloc, files, config) {
        ConfigRead::Taken(route) => print_check(alloc, &route, out),
        ConfigRead::Refused(fault) => refuse_config(alloc, out, &fault),
        ConfigRead::Failed => unread(alloc, out, config),
        ConfigRead::Memory => Status::Memory,
    }
}

/// Prints the sizes of a route.
fn print_check<K: Sink>(alloc: Global, route: &Route, out: &mut K) -> Status
    ensures { IsTextPrinted (check_line route.now) (sink_writes K.Sink out.old out.new) result }
{
    match check_line(alloc, route) {
        Ok(line) => {
            if write_all(out, line.as_slice()) {
                Status::Ok
            } else {
                Status::WriteFault
            }
        }
        Err(_) => Status::Memory,
    }
}

/// Replays the script of one file by the configuration of another.
fn replay<W: World, N: Wire<W> + Events, F: Files, K: Sink>(
    alloc: Global,
    config: &Text,
    script: &Text,
    files: &mut F,
    out: &mut K,
    wire: &mut N,
) -> Status
    ensures { ReplayDone W.World
        (wire_calls N.Watched ⟦<ZSession<W, N::Link> as Sitting<W>>⟧ wire.old wire.new)
        config.now script.now
        (file_reads F.Files files.old files.new) (sink_writes K.Sink out.old out.new) result }
{
    match read_config(alloc, files, config) {
        ConfigRead::Taken(route) => play_route(alloc, &route, script, files, out, wire),
        ConfigRead::Refused(fault) => refuse_config(alloc, out, &fault),
        ConfigRead::Failed => unread(alloc, out, config),
        ConfigRead::Memory => Status::Memory,
    }
}

/// Plays the script of a file by a route, all of whose targets have to be test targets.
fn play_route<W: World, N: Wire<W> + Events, F: Files, K: Sink>(
    alloc: Global,
    route: &Route,
    script: &Text,
    files: &mut F,
    out: &mut K,
    wire: &mut N,
) -> Status
    ensures { IsMemoryOr result (sink_writes K.Sink out.old out.new)
        (RoutePlayed W.World
        (wire_calls N.Watched ⟦<ZSession<W, N::Link> as Sitting<W>>⟧ wire.old wire.new)
        (first_real route.now) route.now script.now
        (file_reads F.Files files.old files.new) (sink_writes K.Sink out.old out.new) result) }
{
    match first_real(route) {
        Some(name) => refuse_target(alloc, out, name),
        None => play_script(alloc, route, wire, files, script, out),
    }
}

/// Refuses a route for the target of this name.
fn refuse_target<K: Sink>(alloc: Global, out: &mut K, name: &Text) -> Status
    ensures { IsTargetRefusal name.now (sink_writes K.Sink out.old out.new) result }
{
    match real_target_line(alloc, name) {
        Ok(line) => {
            say(out, line.as_slice());
            Status::RealTarget
        }
        Err(_) => Status::Memory,
    }
}
