//! The commands over the built-in test targets.

ghost use Rattle.gateway_config.specs.Outside.{file_reads, sink_writes};
ghost use Rattle.gateway_top.specs.OverTests.{IsReplayedOverTests};

use gateway_top::{Status, command};
use gw_outside::{Files, Sink};
use std::alloc::Global;
use tcp_edge::test_wire::TestWire;
use test_target::TestWorld;
use z_types::{Text, World};

/// Does one command but `serve`, over a new wire to the built-in test targets. So what is printed of a replay
/// asks nothing of the targets, nor of the wire, but that members of a group mean the same.
pub(crate) fn command_over_tests<F: Files, K: Sink>(
    alloc: Global,
    words: &[Text],
    files: &mut F,
    out: &mut K,
) -> Status
    ensures replayed { IsReplayedOverTests ⟦<TestWorld as World>⟧ words.now
        (file_reads F.Files files.old files.new) (sink_writes K.Sink out.old out.new) result }
{
    let mut wire = TestWire::new(alloc);
    command::<TestWorld, _, _, _>(alloc, words, files, out, &mut wire)
}
