//! The response to a searchRetrieve request (SRU 1.2, Response Parameters).

ghost use Rattle.std.specs.Prelude.{◌≡◌, ◌+◌, ◌++◌, length, IfOk, OnOk, codes};
ghost use Rattle.sru_reply.specs.Reply.{diagnostic, next_position, is_last, count_of, found, refused, answered, response_fields, root, response, reply};
ghost use Rattle.sru_reply.specs.Xml.{element};

use crate::diagnostic::put_diagnostic;
use crate::message::message;
use crate::record::put_records;
use crate::xml::{put_element, put_end, put_number_element, put_start, put_start_with};
use std::alloc::Global;
use z_types::{Memory, SruAnswer, SruDiag, SruItem, Text};

/// The name of a response.
const ROOT: &[u8] = b"zs:searchRetrieveResponse";

/// The namespace of responses.
const NAMESPACE: &[u8] = b"http://www.loc.gov/zing/srw/";

/// Room for what stands around a record.
const RECORD_ROOM: usize = 320;

/// Whether no record is given, or the last one is.
fn is_last(answer: &SruAnswer) -> bool
    ensures { result ≡ is_last answer.now }
{
    answer.items.len() == 0 || u128::from(answer.count) < behind(answer)
}

/// The position behind the records that are given.
fn behind(answer: &SruAnswer) -> u128
    ensures { result ≡ answer.now.start + length answer.now.items }
{
    u128::from(answer.start) + answer.items.len() as u128
}

/// The position of the record behind those that are given, where there is one.
#[tactic(auto, unfolding(crate::specs::Reply::next_position))]
fn put_next_position(alloc: Global, out: &mut Text, answer: &SruAnswer) -> Result<(), Memory>
    ensures { OnOk result (out.new ≡ out.old ++ next_position answer.now) }
{
    if is_last(answer) {
        return Ok(());
    }
    put_number_element(alloc, out, b"zs:nextRecordPosition", behind(answer))
}

/// The element of a diagnostic in place of records.
#[tactic(auto, unfolding(crate::specs::Xml::element))]
fn put_diagnostics(alloc: Global, out: &mut Text, diag: &SruDiag) -> Result<(), Memory>
    ensures { OnOk result (out.new ≡ out.old
        ++ element (codes "zs:diagnostics") (diagnostic diag.now)) }
{
    put_start(out, b"zs:diagnostics")?;
    put_diagnostic(alloc, out, diag)?;
    put_end(out, b"zs:diagnostics")
}

/// How many records there are.
fn put_count(alloc: Global, out: &mut Text, count: u32) -> Result<(), Memory>
    ensures { OnOk result (out.new ≡ out.old ++ count_of count) }
{
    put_number_element(alloc, out, b"zs:numberOfRecords", u128::from(count))
}

/// The records of a search.
#[tactic(auto, unfolding(crate::specs::Reply::found))]
fn put_found(alloc: Global, out: &mut Text, answer: &SruAnswer) -> Result<(), Memory>
    ensures { OnOk result (out.new ≡ out.old ++ found answer.now) }
{
    put_count(alloc, out, answer.count)?;
    put_records(alloc, out, answer)?;
    put_next_position(alloc, out, answer)
}

/// No records, and the diagnostic in their place.
#[tactic(auto, unfolding(crate::specs::Reply::refused))]
fn put_refused(alloc: Global, out: &mut Text, diag: &SruDiag) -> Result<(), Memory>
    ensures { OnOk result (out.new ≡ out.old ++ refused diag.now) }
{
    put_count(alloc, out, 0)?;
    put_diagnostics(alloc, out, diag)
}

/// What is answered.
fn put_answered(alloc: Global, out: &mut Text, answer: &SruAnswer) -> Result<(), Memory>
    ensures { OnOk result (out.new ≡ out.old ++ answered answer.now answer.now.refused) }
{
    match &answer.refused {
        None => put_found(alloc, out, answer),
        Some(diag) => put_refused(alloc, out, diag),
    }
}

/// The version, and what is answered.
#[tactic(auto, unfolding(crate::specs::Reply::response_fields))]
fn put_fields(alloc: Global, out: &mut Text, answer: &SruAnswer) -> Result<(), Memory>
    ensures { OnOk result (out.new ≡ out.old ++ response_fields answer.now) }
{
    put_element(out, b"zs:version", answer.version.as_slice())?;
    put_answered(alloc, out, answer)
}

/// The element of a response.
fn put_root(alloc: Global, out: &mut Text, answer: &SruAnswer) -> Result<(), Memory>
    ensures { OnOk result (out.new ≡ out.old ++ root answer.now) }
{
    put_start_with(out, ROOT, b"xmlns:zs", NAMESPACE)?;
    put_fields(alloc, out, answer)?;
    put_end(out, ROOT)
}

/// The response.
fn put_response(alloc: Global, out: &mut Text, answer: &SruAnswer) -> Result<(), Memory>
    ensures { OnOk result (out.new ≡ out.old ++ response answer.now) }
{
    out.append(b"<?xml version=\"1.0\" encoding=\"UTF-8\"?>")?;
    put_root(alloc, out, answer)
}

/// Room for a response whose records stand as they are.
fn room(items: &[SruItem]) -> usize {
    let mut room = RECORD_ROOM;
    for item in items {
        room = room.saturating_add(RECORD_ROOM);
        if let SruItem::Data(octets) = item {
            room = room.saturating_add(octets.len());
        }
    }
    room
}

/// The reply to a searchRetrieve request: a message of HTTP whose Content-Length is that of the
/// response behind its head. It takes time linear in the octets of the reply.
pub fn reply_text(alloc: Global, answer: &SruAnswer) -> Result<Text, Memory>
    ensures { IfOk result (λ text. text ≡ reply answer.now) }
{
    let room = room(answer.items.as_slice());
    let mut body = Text::from_vec(Vec::with_capacity(alloc, room)?);
    put_response(alloc, &mut body, answer)?;
    message(alloc, b"200 OK", body.as_slice())
}
