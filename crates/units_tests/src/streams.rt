//! Streams of octets that come in pieces, and the units that a framer hands out of them.

use case_files::{Answer, NoAnswer};
use std::alloc::Global;
use z_frame::{Framed, Framer};
use z_types::Memory;

/// Where the last unit of a stream ends, how many units there are, and how the stream goes on behind them.
#[derive(Clone, Copy, PartialEq, Eq)]
struct Cut {
    ended: u64,
    units: u32,
    behind: Framed,
}

/// Whether a call is one of these. Its answer is put at the end.
pub(crate) fn is_answered(
    alloc: Global,
    call: &str,
    octets: &[u8],
    out: &mut Answer,
) -> Result<bool, NoAnswer> {
    match call {
        "stream" => put_cut(out, cut_by(alloc, octets, 1000)?),
        "stream_by_256" => put_cut(out, cut_by(alloc, octets, 256)?),
        "stream_by_any" => put_cuts(alloc, out, octets)?,
        _ => return Ok(false),
    }
    Ok(true)
}

/// What is handed out of a stream.
fn put_cut(out: &mut Answer, cut: Cut) {
    out.print(&cut.units);
    out.put(" units to ");
    out.print(&cut.ended);
    out.put(" ");
    out.spell(&cut.behind);
}

/// What is handed out of a stream, however it is cut into pieces of one size.
fn put_cuts(alloc: Global, out: &mut Answer, octets: &[u8]) -> Result<(), Memory> {
    let by_one = cut_by(alloc, octets, 1)?;
    put_cut(out, by_one);
    for piece in 2..octets.len().saturating_add(1) {
        if cut_by(alloc, octets, piece)? != by_one {
            out.put(" but otherwise by ");
            out.print(&piece);
        }
    }
    Ok(())
}

/// What a framer hands out of a stream that comes in pieces of so many octets.
fn cut_by(alloc: Global, stream: &[u8], piece: usize) -> Result<Cut, Memory> {
    let mut framer = Framer::new(alloc);
    let mut cut = Cut {
        ended: 0,
        units: 0,
        behind: Framed::NeedMore,
    };
    for octets in stream.chunks(piece.max(1)) {
        framer.feed(octets)?;
        take_units(&mut framer, &mut cut, stream.len());
        if cut.behind != Framed::NeedMore {
            return Ok(cut);
        }
    }
    cut.behind = framer.next();
    Ok(cut)
}

/// Takes the units that have come whole, at most so many, and says how the stream goes on behind them.
fn take_units(framer: &mut Framer, cut: &mut Cut, most: usize) {
    for _ in 0..most {
        match framer.next() {
            Framed::Unit(start, end) => {
                let len = framer.unit(start, end).len() as u64;
                if start != cut.ended || len != end.saturating_sub(start) {
                    cut.behind = Framed::Bad(start);
                    return;
                }
                cut.ended = end;
                cut.units = cut.units.saturating_add(1);
            }
            behind => {
                cut.behind = behind;
                return;
            }
        }
    }
}
