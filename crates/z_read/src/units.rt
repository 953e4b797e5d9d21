//! Units, by their tags (ANSI/NISO Z39.50-2003, PDU).

ghost use Rattle.std.specs.Prelude.{IfOk, IfSome};
ghost use Rattle.z_types.specs.declared.requests.Request.TheVariants as AskRequest;
ghost use Rattle.z_types.specs.declared.replies.Reply.TheVariants as GivenReply;
ghost use Rattle.unit_forms.specs.Reading.Answers.{read_as};
ghost use Rattle.unit_forms.specs.Reading.CloseUnit.{close_in};
ghost use Rattle.unit_forms.specs.Reading.InitRequest.{init_in};
ghost use Rattle.unit_forms.specs.Reading.PresentRequest.{present_in};
ghost use Rattle.unit_forms.specs.Reading.Responses.{init_reply_in, search_reply_in, present_reply_in, scan_reply_in};
ghost use Rattle.unit_forms.specs.Reading.ScanRequest.{scan_in};
ghost use Rattle.unit_forms.specs.Reading.SearchRequest.{search_in};
ghost use Rattle.unit_forms.specs.Reading.Units.{request_of, reply_of};
ghost use Rattle.z_types.specs.Numbers.{HasNumbersInRange};
ghost use Rattle.unit_forms.specs.Logins.{AsksWithLogin};
ghost use Rattle.unit_forms.specs.Reading.Units.{IsReading, IsOnlyReading};
ghost use Rattle.z_read.specs.Read.{IsRequestRead, IsReplyRead};
ghost use Rattle.z_fields.specs.Answers.{IsOrMemory};

use crate::close_unit::close_in;
use crate::init_request::init_in;
use crate::present_request::present_in;
use crate::responses::{init_reply_in, present_reply_in, scan_reply_in, search_reply_in};
use crate::scan_request::scan_in;
use crate::search_request::search_in;
use crate::{ReadFault, one_answer};
use std::alloc::Global;
use unit_forms::tags;
use z_fields::{Field, FieldFault, Fields};
use z_types::{Memory, Reply, Request};

/// The request that an Init is.
fn init_of(alloc: Global, field: &Field<'_>) -> Result<Request, FieldFault>
    ensures { IsOrMemory (read_as AskRequest.Init (init_in field.now.inner)) result }
{
    Ok(Request::Init(init_in(alloc, &Fields::with_index(alloc, field)?)?))
}

/// The request that a Search is.
fn search_of(alloc: Global, field: &Field<'_>) -> Result<Request, FieldFault>
    ensures { IsOrMemory (read_as AskRequest.Search (search_in field.now.inner)) result }
{
    Ok(Request::Search(search_in(alloc, &Fields::with_index(alloc, field)?)?))
}

/// The request that a Present is.
fn present_of(alloc: Global, field: &Field<'_>) -> Result<Request, FieldFault>
    ensures { IsOrMemory (read_as AskRequest.Present (present_in field.now.inner)) result }
{
    Ok(Request::Present(present_in(alloc, &Fields::with_index(alloc, field)?)?))
}

/// The request that a Scan is.
fn scan_of(alloc: Global, field: &Field<'_>) -> Result<Request, FieldFault>
    ensures { IsOrMemory (read_as AskRequest.Scan (scan_in field.now.inner)) result }
{
    Ok(Request::Scan(scan_in(alloc, &Fields::with_index(alloc, field)?)?))
}

/// The request that a Close is.
fn close_of(alloc: Global, field: &Field<'_>) -> Result<Request, FieldFault>
    ensures { IsOrMemory (read_as AskRequest.Close (close_in field.now.inner)) result }
{
    Ok(Request::Close(close_in(alloc, &Fields::with_index(alloc, field)?)?))
}

/// The reply that an InitializeResponse is.
fn init_reply_of(alloc: Global, field: &Field<'_>) -> Result<Reply, FieldFault>
    ensures { IsOrMemory (init_reply_in field.now.inner) result }
{
    init_reply_in(alloc, &Fields::with_index(alloc, field)?)
}

/// The reply that a SearchResponse is.
fn search_reply_of(alloc: Global, field: &Field<'_>) -> Result<Reply, FieldFault>
    ensures { IsOrMemory (search_reply_in field.now.inner) result }
{
    search_reply_in(alloc, &Fields::with_index(alloc, field)?)
}

/// The reply that a PresentResponse is.
fn present_reply_of(alloc: Global, field: &Field<'_>) -> Result<Reply, FieldFault>
    ensures { IsOrMemory (present_reply_in field.now.inner) result }
{
    present_reply_in(alloc, &Fields::with_index(alloc, field)?)
}

/// The reply that a ScanResponse is.
fn scan_reply_of(alloc: Global, field: &Field<'_>) -> Result<Reply, FieldFault>
    ensures { IsOrMemory (scan_reply_in field.now.inner) result }
{
    scan_reply_in(alloc, &Fields::with_index(alloc, field)?)
}

/// The reply that a Close is.
fn close_reply_of(alloc: Global, field: &Field<'_>) -> Result<Reply, FieldFault>
    ensures { IsOrMemory (read_as GivenReply.Close (close_in field.now.inner)) result }
{
    Ok(Reply::Close(close_in(alloc, &Fields::with_index(alloc, field)?)?))
}

/// The request that an element is.
#[tactic(auto, unfolding(unit_forms::specs::Reading::Units::request_of))]
fn request_of(alloc: Global, field: &Field<'_>) -> Result<Request, FieldFault>
    ensures { IsOrMemory (request_of field.now) result }
{
    let tag = field.tag();
    if tag.class != 2 {
        return Err(FieldFault::unknown_unit(tag.number));
    }
    match tag.number {
        tags::INIT_REQUEST => init_of(alloc, field),
        tags::SEARCH_REQUEST => search_of(alloc, field),
        tags::PRESENT_REQUEST => present_of(alloc, field),
        tags::SCAN_REQUEST => scan_of(alloc, field),
        tags::CLOSE => close_of(alloc, field),
        number => Err(FieldFault::unknown_unit(number)),
    }
}

/// The reply that an element is.
#[tactic(auto, unfolding(unit_forms::specs::Reading::Units::reply_of))]
fn reply_of(alloc: Global, field: &Field<'_>) -> Result<Reply, FieldFault>
    ensures { IsOrMemory (reply_of field.now) result }
{
    let tag = field.tag();
    if tag.class != 2 {
        return Err(FieldFault::unknown_unit(tag.number));
    }
    match tag.number {
        tags::INIT_RESPONSE => init_reply_of(alloc, field),
        tags::SEARCH_RESPONSE => search_reply_of(alloc, field),
        tags::PRESENT_RESPONSE => present_reply_of(alloc, field),
        tags::SCAN_RESPONSE => scan_reply_of(alloc, field),
        tags::CLOSE => close_reply_of(alloc, field),
        number => Err(FieldFault::unknown_unit(number)),
    }
}

/// The request that octets are, by the fields of its table; or the first rule that they break: they are
/// no element, a unit that is not known, a missing field, a bad value, a string in constructed form. Its
/// numbers are in the ranges of their fields, and the login of an Init is one that can be written.
#[tactic(auto, using(crate::proofs::ReadLemmas::read_root, crate::proofs::ReadLemmas::refused_root, crate::proofs::NumbersRead::field_numbers, crate::proofs::LoginsRead::root_login))]
pub fn read_request(alloc: Global, unit: &[u8]) -> Result<Request, ReadFault>
    ensures read { IsRequestRead unit.now result }
    ensures numbers { IfOk result HasNumbersInRange }
    ensures login { IfOk result AsksWithLogin }
{
    match Field::of_unit(unit) {
        Ok(field) => match request_of(alloc, &field) {
            Ok(request) => Ok(request),
            Err(FieldFault::Refused(refusal)) => Err(ReadFault::of(refusal)),
            Err(FieldFault::Memory) => Err(ReadFault::Memory),
        },
        Err(at) => Err(ReadFault::Ber(at)),
    }
}

/// The request that a unit is read as, or `None` where it is refused. Its numbers are in the ranges of
/// their fields, and the login of an Init is one that can be written.
pub fn read_unit(alloc: Global, unit: &[u8]) -> Result<Option<Request>, Memory>
    ensures read { IfOk result (IsReading unit.now) }
    ensures only { IfOk result (IsOnlyReading unit.now) }
    ensures numbers { IfOk result (λ read. IfSome read HasNumbersInRange) }
    ensures login { IfOk result (λ read. IfSome read AsksWithLogin) }
{
    one_answer();
    match read_request(alloc, unit) {
        Ok(request) => Ok(Some(request)),
        Err(ReadFault::Ber(_)) => Ok(None),
        Err(ReadFault::UnknownUnit(_)) => Ok(None),
        Err(ReadFault::Missing(_)) => Ok(None),
        Err(ReadFault::BadValue(_)) => Ok(None),
        Err(ReadFault::LeftOut(_)) => Ok(None),
        Err(ReadFault::Memory) => Err(Memory),
    }
}

/// The reply that octets are, or the first rule that they break, as for a request.
#[tactic(auto, using(crate::proofs::ReadLemmas::read_root, crate::proofs::ReadLemmas::refused_root))]
pub fn read_reply(alloc: Global, unit: &[u8]) -> Result<Reply, ReadFault>
    ensures { IsReplyRead unit.now result }
{
    match Field::of_unit(unit) {
        Ok(field) => match reply_of(alloc, &field) {
            Ok(reply) => Ok(reply),
            Err(FieldFault::Refused(refusal)) => Err(ReadFault::of(refusal)),
            Err(FieldFault::Memory) => Err(ReadFault::Memory),
        },
        Err(at) => Err(ReadFault::Ber(at)),
    }
}
