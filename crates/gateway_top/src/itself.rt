//! What the program tells of itself.

ghost use Rattle.gateway_top.specs.Itself.{IsProgramDone, help_text, own_text};
ghost use Rattle.gateway_config.specs.Outside.{file_reads, sink_writes};
ghost use Rattle.replay_top.specs.Outside.{wire_calls};
ghost use Rattle.std.specs.Prelude.{◌≡◌};
ghost use Rattle.std.specs.Option.{option_copied};

use crate::calls::top;
use gateway_config::{Status, print_text};
use gw_outside::{Events, Files, Sink, Wire};
use std::alloc::Global;
use z_client::ZSession;
use z_types::{Sitting, Text, World};

/// What the program is, and its words.
const HELP: &[u8] = b"Zaklumen, a gateway for Z39.50 and SRU.\n\n\
check CONFIG               reads a configuration, and prints how many databases and classes it has\n\
replay CONFIG SCRIPT       plays what a script says of clients, time and targets, and prints what clients are answered\n\
load N                     plays N clients of four requests each, and prints how many octets, searches and links that took\n\
serve CONFIG PORT WORKERS  serves clients at a port of this machine, as many at once as there are workers (1 to 64)\n\
events CONFIG PORT MOST    serves clients on one thread, as many at once as MOST says (1 to 1000)\n\
serve .. --listen ADDRESS  the same, at another address of this machine than 127.0.0.1\n\
serve .. --quiet           the same, and logs no connection that begins or ends\n\
--help                     prints this\n\
--version                  prints the version\n";

/// What `--version` prints.
const VERSION: &[u8] = b"zaklumen 0.1.0\n";

/// One command: what the program tells of itself, and else what `top` does.
pub fn command<W: World, N: Wire<W> + Events, F: Files, K: Sink>(
    alloc: Global,
    words: &[Text],
    files: &mut F,
    out: &mut K,
    wire: &mut N,
) -> Status
    ensures { IsProgramDone W.World
        (wire_calls N.Watched ⟦<ZSession<W, N::Link> as Sitting<W>>⟧ wire.old wire.new) words.now
        (file_reads F.Files files.old files.new) (sink_writes K.Sink out.old out.new) result }
{
    match own_text(words) {
        Some(text) => print_text(out, text),
        None => top(alloc, words, files, out, wire),
    }
}

/// What `--help` prints.
fn help() -> &'static [u8]
    ensures { result.now ≡ help_text }
{
    HELP
}

/// The text of the program's own that these words ask for.
fn own_text(words: &[Text]) -> Option<&'static [u8]>
    ensures { option_copied result ≡ own_text words.now }
{
    match words {
        [word] if word.as_slice() == b"--help".as_slice() => Some(help()),
        [word] if word.as_slice() == b"--version".as_slice() => Some(VERSION),
        _ => None,
    }
}
