//! Replies in their written form (ANSI/NISO Z39.50-2003, InitializeResponse, SearchResponse,
//! PresentResponse, ScanResponse and Close).

ghost use Rattle.std.specs.Prelude.{◌≡◌, ◌++◌, length, IfOk, OnOk, OnErr};
ghost use Rattle.unit_forms.specs.Fields.{tree_field};
ghost use Rattle.unit_forms.specs.Replies.{implementation_fields, init_reply_fields, search_reply_fields, present_reply_fields, spell_reply};
ghost use Rattle.unit_forms.specs.Tags.{init_response, search_response, present_response};
ghost use Rattle.z_write.specs.Heads.{search_reply_head};
ghost use Rattle.z_write.specs.Kept.{StillBegins};

use crate::cut::cut_on_error;
use crate::fields::{
    boolean_len, number_len, octets_len, optional_number_len, put_boolean, put_header, put_number,
    put_octets, put_optional_number, put_ref_id, ref_id_len,
};
use crate::lengths::sum_of;
use crate::records::{body_len, put_body};
use crate::requests::{init_fields_len, put_close, put_init_fields};
use crate::scans::put_scan_reply;
use std::alloc::Global;
use unit_forms::tags;
use z_ber::Tag;
use z_types::{Body, Init, Memory, Reply, Text};

/// Who answers an Init.
#[tactic(auto, using(crate::proofs::KeptFront::kept_on), unfolding(unit_forms::specs::Replies::implementation_fields))]
fn put_implementation(out: &mut Text) -> Result<(), Memory>
    ensures ok { OnOk result (out.new ≡ out.old ++ implementation_fields) }
    ensures err { OnErr result (StillBegins out.old out.new) }
{
    put_octets(out, tags::IMPLEMENTATION_ID, b"mp")?;
    put_octets(out, tags::IMPLEMENTATION_NAME, b"gateway")?;
    put_octets(out, tags::IMPLEMENTATION_VERSION, b"1")
}

#[tactic(auto, unfolding(unit_forms::specs::Replies::implementation_fields))]
fn implementation_len() -> Result<usize, Memory>
    ensures { IfOk result (λ len. len ≡ length (implementation_fields)) }
{
    sum_of(&[
        octets_len(tags::IMPLEMENTATION_ID, b"mp")?,
        octets_len(tags::IMPLEMENTATION_NAME, b"gateway")?,
        octets_len(tags::IMPLEMENTATION_VERSION, b"1")?,
    ])
}

/// The fields of the answer to an Init.
#[tactic(auto, using(crate::proofs::KeptFront::kept_on))]
fn put_init_reply_fields(out: &mut Text, init: &Init, accepted: bool) -> Result<(), Memory>
    ensures ok { OnOk result (out.new ≡ out.old ++ init_reply_fields init.now accepted) }
    ensures err { OnErr result (StillBegins out.old out.new) }
{
    put_init_fields(out, init)?;
    put_boolean(out, tags::INIT_RESULT, accepted)?;
    put_implementation(out)
}

fn init_reply_fields_len(init: &Init, accepted: bool) -> Result<usize, Memory>
    ensures { IfOk result (λ len. len ≡ length (init_reply_fields init.now accepted)) }
{
    sum_of(&[
        init_fields_len(init)?,
        boolean_len(tags::INIT_RESULT, accepted)?,
        implementation_len()?,
    ])
}

/// The fields of a SearchResponse as far as the next position.
#[tactic(auto, using(crate::proofs::KeptFront::kept_on))]
fn put_search_reply_head(
    out: &mut Text,
    ref_id: &Option<Text>,
    count: u32,
    returned: u32,
    next: u32,
) -> Result<(), Memory>
    ensures ok { OnOk result (out.new ≡ out.old
        ++ search_reply_head ref_id.now count returned next) }
    ensures err { OnErr result (StillBegins out.old out.new) }
{
    put_ref_id(out, ref_id)?;
    put_number(out, tags::RESULT_COUNT, count)?;
    put_number(out, tags::NUMBER_OF_RECORDS_RETURNED, returned)?;
    put_number(out, tags::NEXT_RESULT_SET_POSITION, next)
}

fn search_reply_head_len(
    ref_id: &Option<Text>,
    count: u32,
    returned: u32,
    next: u32,
) -> Result<usize, Memory>
    ensures { IfOk result (λ len. len ≡ length (search_reply_head ref_id.now count returned next)) }
{
    sum_of(&[
        ref_id_len(ref_id)?,
        number_len(tags::RESULT_COUNT, count)?,
        number_len(tags::NUMBER_OF_RECORDS_RETURNED, returned)?,
        number_len(tags::NEXT_RESULT_SET_POSITION, next)?,
    ])
}

/// The fields of a SearchResponse.
#[tactic(auto, using(crate::proofs::KeptFront::kept_on), unfolding(unit_forms::specs::Replies::search_reply_fields))]
fn put_search_reply_fields(
    out: &mut Text,
    ref_id: &Option<Text>,
    count: u32,
    returned: u32,
    next: u32,
    ok: bool,
    status: Option<u32>,
    body: &Body,
) -> Result<(), Memory>
    ensures ok { OnOk result (out.new ≡ out.old
        ++ search_reply_fields ref_id.now count returned next ok status body.now) }
    ensures err { OnErr result (StillBegins out.old out.new) }
{
    put_search_reply_head(out, ref_id, count, returned, next)?;
    put_boolean(out, tags::SEARCH_STATUS, ok)?;
    put_optional_number(out, tags::PRESENT_STATUS, status)?;
    put_body(out, body)
}

#[tactic(auto, unfolding(unit_forms::specs::Replies::search_reply_fields))]
fn search_reply_fields_len(
    ref_id: &Option<Text>,
    count: u32,
    returned: u32,
    next: u32,
    ok: bool,
    status: Option<u32>,
    body: &Body,
) -> Result<usize, Memory>
    ensures { IfOk result (λ len. len ≡
        length (search_reply_fields ref_id.now count returned next ok status body.now)) }
{
    sum_of(&[
        search_reply_head_len(ref_id, count, returned, next)?,
        boolean_len(tags::SEARCH_STATUS, ok)?,
        optional_number_len(tags::PRESENT_STATUS, status)?,
        body_len(body)?,
    ])
}

/// The fields of a PresentResponse.
#[tactic(auto, using(crate::proofs::KeptFront::kept_on), unfolding(unit_forms::specs::Replies::present_reply_fields))]
fn put_present_reply_fields(
    out: &mut Text,
    ref_id: &Option<Text>,
    returned: u32,
    next: u32,
    status: u32,
    body: &Body,
) -> Result<(), Memory>
    ensures ok { OnOk result (out.new ≡ out.old
        ++ present_reply_fields ref_id.now returned next status body.now) }
    ensures err { OnErr result (StillBegins out.old out.new) }
{
    put_ref_id(out, ref_id)?;
    put_number(out, tags::NUMBER_OF_RECORDS_RETURNED, returned)?;
    put_number(out, tags::NEXT_RESULT_SET_POSITION, next)?;
    put_number(out, tags::PRESENT_STATUS, status)?;
    put_body(out, body)
}

#[tactic(auto, unfolding(unit_forms::specs::Replies::present_reply_fields))]
fn present_reply_fields_len(
    ref_id: &Option<Text>,
    returned: u32,
    next: u32,
    status: u32,
    body: &Body,
) -> Result<usize, Memory>
    ensures { IfOk result (λ len. len ≡
        length (present_reply_fields ref_id.now returned next status body.now)) }
{
    sum_of(&[
        ref_id_len(ref_id)?,
        number_len(tags::NUMBER_OF_RECORDS_RETURNED, returned)?,
        number_len(tags::NEXT_RESULT_SET_POSITION, next)?,
        number_len(tags::PRESENT_STATUS, status)?,
        body_len(body)?,
    ])
}

/// The answer to an Init.
#[tactic(auto, using(crate::proofs::KeptFront::kept_on))]
fn put_init_reply(out: &mut Text, init: &Init, accepted: bool) -> Result<(), Memory>
    ensures ok { OnOk result (out.new ≡ out.old
        ++ tree_field init_response (init_reply_fields init.now accepted)) }
    ensures err { OnErr result (StillBegins out.old out.new) }
{
    let len = init_reply_fields_len(init, accepted)?;
    put_header(out, Tag::constructed_context(tags::INIT_RESPONSE), len)?;
    put_init_reply_fields(out, init, accepted)
}

/// The answer to a Search.
#[tactic(auto, using(crate::proofs::KeptFront::kept_on))]
fn put_search_reply(
    out: &mut Text,
    ref_id: &Option<Text>,
    count: u32,
    returned: u32,
    next: u32,
    ok: bool,
    status: Option<u32>,
    body: &Body,
) -> Result<(), Memory>
    ensures ok { OnOk result (out.new ≡ out.old
        ++ tree_field search_response (search_reply_fields ref_id.now count returned next ok status body.now)) }
    ensures err { OnErr result (StillBegins out.old out.new) }
{
    let len = search_reply_fields_len(ref_id, count, returned, next, ok, status, body)?;
    put_header(out, Tag::constructed_context(tags::SEARCH_RESPONSE), len)?;
    put_search_reply_fields(out, ref_id, count, returned, next, ok, status, body)
}

/// The answer to a Present.
#[tactic(auto, using(crate::proofs::KeptFront::kept_on))]
fn put_present_reply(
    out: &mut Text,
    ref_id: &Option<Text>,
    returned: u32,
    next: u32,
    status: u32,
    body: &Body,
) -> Result<(), Memory>
    ensures ok { OnOk result (out.new ≡ out.old
        ++ tree_field present_response (present_reply_fields ref_id.now returned next status body.now)) }
    ensures err { OnErr result (StillBegins out.old out.new) }
{
    let len = present_reply_fields_len(ref_id, returned, next, status, body)?;
    put_header(out, Tag::constructed_context(tags::PRESENT_RESPONSE), len)?;
    put_present_reply_fields(out, ref_id, returned, next, status, body)
}

/// A reply, or a part of it.
fn put_unit(out: &mut Text, reply: &Reply) -> Result<(), Memory>
    ensures ok { OnOk result (out.new ≡ out.old ++ spell_reply reply.now) }
    ensures err { OnErr result (StillBegins out.old out.new) }
{
    match reply {
        Reply::Init { init, result } => put_init_reply(out, init, *result),
        Reply::Search {
            ref_id,
            count,
            returned,
            next,
            ok,
            status,
            body,
        } => put_search_reply(out, ref_id, *count, *returned, *next, *ok, *status, body),
        Reply::Present {
            ref_id,
            returned,
            next,
            status,
            body,
        } => put_present_reply(out, ref_id, *returned, *next, *status, body),
        Reply::Scan {
            ref_id,
            status,
            answer,
            diags,
        } => put_scan_reply(out, ref_id, *status, answer, diags),
        Reply::Close(close) => put_close(out, close),
    }
}

/// Appends a reply in its one written form; without memory nothing is changed. An empty list of
/// records is left out.
pub fn put_reply(out: &mut Text, reply: &Reply) -> Result<(), Memory>
    ensures ok { OnOk result (out.new ≡ out.old ++ spell_reply reply.now) }
    ensures err { OnErr result (out.new ≡ out.old) }
{
    let start = out.len();
    let put = put_unit(out, reply);
    cut_on_error(out, start, put)
}

/// A reply in its one written form, as a text of its own.
pub fn write_reply(alloc: Global, reply: &Reply) -> Result<Text, Memory>
    ensures { IfOk result (λ unit. unit ≡ spell_reply reply.now) }
{
    let mut out = Text::new(alloc);
    put_reply(&mut out, reply)?;
    Ok(out)
}
