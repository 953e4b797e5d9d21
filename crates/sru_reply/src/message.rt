//! Messages of HTTP.

ghost use Rattle.std.specs.Prelude.{◌≡◌, ◌++◌, IfOk, OnOk, codes};
ghost use Rattle.std.specs.Fmt.{decimal};
ghost use Rattle.sru_reply.specs.Message.{line, fields, head, message};

use crate::xml::put_number;
use std::alloc::Global;
use z_types::{Memory, Text};

/// The most octets of a head, for its room.
const HEAD_ROOM: usize = 160;

/// A status line.
#[tactic(auto, unfolding(crate::specs::Message::line))]
fn put_status_line(out: &mut Text, status: &[u8]) -> Result<(), Memory>
    ensures { OnOk result (out.new ≡ out.old ++ line (codes "HTTP/1.1 " ++ status.now)) }
{
    out.append(b"HTTP/1.1 ")?;
    out.append(status)?;
    out.append(b"\r\n")
}

/// The line of a body's length.
#[tactic(auto, unfolding(crate::specs::Message::line))]
fn put_length_line(alloc: Global, out: &mut Text, count: usize) -> Result<(), Memory>
    ensures { OnOk result (out.new ≡ out.old ++ line (codes "Content-Length: " ++ decimal count)) }
{
    out.append(b"Content-Length: ")?;
    put_number(alloc, out, count as u128)?;
    out.append(b"\r\n")
}

/// A line.
#[tactic(auto, unfolding(crate::specs::Message::line))]
fn put_line(out: &mut Text, text: &[u8]) -> Result<(), Memory>
    ensures { OnOk result (out.new ≡ out.old ++ line text.now) }
{
    out.append(text)?;
    out.append(b"\r\n")
}

/// The fields, for a body of that many octets.
fn put_fields(alloc: Global, out: &mut Text, count: usize) -> Result<(), Memory>
    ensures { OnOk result (out.new ≡ out.old ++ fields count) }
{
    put_line(out, b"Content-Type: text/xml; charset=utf-8")?;
    put_length_line(alloc, out, count)?;
    put_line(out, b"Connection: close")?;
    put_line(out, b"")
}

/// A head, for a body of that many octets.
#[tactic(auto, unfolding(crate::specs::Message::head))]
fn put_head(alloc: Global, out: &mut Text, status: &[u8], count: usize) -> Result<(), Memory>
    ensures { OnOk result (out.new ≡ out.old ++ head status.now count) }
{
    put_status_line(out, status)?;
    put_fields(alloc, out, count)
}

/// A message. Its octets are put once, into memory taken at once.
pub(crate) fn message(alloc: Global, status: &[u8], body: &[u8]) -> Result<Text, Memory>
    ensures { IfOk result (λ text. text ≡ message status.now body.now) }
{
    let room = body.len().saturating_add(HEAD_ROOM);
    let mut out = Text::from_vec(Vec::with_capacity(alloc, room)?);
    put_head(alloc, &mut out, status, body.len())?;
    out.append(body)?;
    Ok(out)
}
