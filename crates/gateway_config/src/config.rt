//! The configuration of a command, read and refused.

ghost use Rattle.std.specs.Prelude.{◌≡◌, ◌≤◌, ℕ, List};
ghost use Rattle.gateway_config.specs.ConfigRead.{IsConfigRead, IsConfigRefusal, IsUnreadTold};
ghost use Rattle.gateway_config.specs.Outside.{file_reads, sink_writes};

use crate::lines::{config_line, fault_line, say};
use crate::status::Status;
use gw_outside::{FileGot, Files, Sink};
use route_config::Route;
use route_text::{RouteFault, read_route};
use std::alloc::Global;
use z_types::Text;

/// The most octets of a configuration.
const CONFIG_LIMIT: usize = 262_144;

/// What reading a configuration gave.
#[derive(Drop)]
pub enum ConfigRead {
    /// Its route.
    Taken(Route),
    /// Why it is refused.
    Refused(RouteFault),
    /// The file could not be read.
    Failed,
    /// No memory could be had.
    Memory,
}

/// Reads the configuration of a name.
pub fn read_config<F: Files>(alloc: Global, files: &mut F, name: &Text) -> ConfigRead
    ensures read { IsConfigRead name.now (file_reads F.Files files.old files.new) result }
    ensures contents { (other : List ℕ) →
        F.contents files.new other ≡ F.contents files.old other }
    ensures faults { F.faults files.old ≤ F.faults files.new }
{
    match files.read_all(alloc, name, CONFIG_LIMIT) {
        FileGot::Whole(text) => match read_route(alloc, text.as_slice()) {
            Ok(route) => ConfigRead::Taken(route),
            Err(RouteFault::Memory) => ConfigRead::Memory,
            Err(fault) => ConfigRead::Refused(fault),
        },
        FileGot::Longer => match Text::copy_of(alloc, b"bytes") {
            Ok(what) => ConfigRead::Refused(RouteFault::TooMany(what, 262_145)),
            Err(_) => ConfigRead::Memory,
        },
        FileGot::Failed => ConfigRead::Failed,
        FileGot::Memory => ConfigRead::Memory,
    }
}

/// Refuses a configuration.
pub fn refuse_config<K: Sink>(alloc: Global, out: &mut K, fault: &RouteFault) -> Status
    ensures { IsConfigRefusal fault.now (sink_writes K.Sink out.old out.new) result }
{
    match config_line(alloc, fault) {
        Ok(line) => {
            say(out, line.as_slice());
            Status::Config
        }
        Err(_) => Status::Memory,
    }
}

/// Tells that the file of a name could not be read.
pub fn unread<K: Sink>(alloc: Global, out: &mut K, name: &Text) -> Status
    ensures { IsUnreadTold name.now (sink_writes K.Sink out.old out.new) result }
{
    match fault_line(alloc, name) {
        Ok(line) => {
            say(out, line.as_slice());
            Status::ReadFault
        }
        Err(_) => Status::Memory,
    }
}
