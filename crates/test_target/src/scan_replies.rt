//! How a peer answers a Scan.

ghost use Rattle.std.specs.Prelude.{◌≡◌, IfOk, Ok};
ghost use Rattle.test_target.specs.Peer.{scan_reply, scan_failed, scanned};

use crate::worlds::scan_at;
use gw_outside::TargetAnswer;
use std::alloc::Global;
use z_types::{Asked, Diag, List, Memory, Reply, Scan, ScanAnswer, Text, copy};

/// The reply to a Scan.
pub(crate) fn scan_reply(alloc: Global, target: u32, scan: &Scan) -> Result<Reply, Memory>
    ensures { IfOk result (λ reply. reply ≡ scan_reply target scan.now scan.now.ask) }
{
    let ref_id = copy(&scan.ref_id)?;
    match &scan.ask {
        Asked::Bad(diag) => scan_failed(alloc, ref_id, copy(diag)?),
        Asked::Good(ask) => match scan_at(alloc, target, &scan.dbs, ask) {
            TargetAnswer::Good(answer) => Ok(scanned_reply(alloc, ref_id, answer)),
            TargetAnswer::Refused(diag) => scan_failed(alloc, ref_id, diag),
            TargetAnswer::Memory => Err(Memory),
        },
    }
}

/// The reply to a scan that found entries.
fn scanned_reply(alloc: Global, ref_id: Option<Text>, answer: ScanAnswer) -> Reply
    ensures { result ≡ scanned ref_id (Ok answer) }
{
    Reply::Scan {
        ref_id,
        status: 0,
        answer,
        diags: List::new(alloc),
    }
}

/// The reply to a scan that failed.
fn scan_failed(alloc: Global, ref_id: Option<Text>, diag: Diag) -> Result<Reply, Memory>
    ensures { IfOk result (λ reply. reply ≡ scan_failed ref_id diag) }
{
    let mut diags = List::new(alloc);
    diags.push(diag)?;
    Ok(Reply::Scan {
        ref_id,
        status: 6,
        answer: ScanAnswer {
            position: None,
            entries: List::new(alloc),
        },
        diags,
    })
}
