//! Requests in their written form (ANSI/NISO Z39.50-2003, InitializeRequest, SearchRequest,
//! PresentRequest, ScanRequest and Close).

ghost use Rattle.std.specs.Prelude.{◌≡◌, List, ◌++◌, ◌<◌, ◌^◌, length, IfOk, OnOk, OnErr};
ghost use Rattle.unit_forms.specs.Fields.{integer_field, tree_field, optional};
ghost use Rattle.unit_forms.specs.Requests.{init_fields, init_request_fields, database_names, element_name_field, syntax_field, search_fields, composition_field, present_fields, scan_ask_fields, scan_asked_fields, scan_fields, close_fields, spell_request};
ghost use Rattle.unit_forms.specs.Tags.{result_set_start_point, id_authentication, init_request, search_request, present_request, scan_request, query as query_tag, close as close_tag};
ghost use Rattle.unit_forms.specs.Query.{asked_octets};
ghost use Rattle.z_write.specs.Heads.{search_head, present_head};
ghost use Rattle.z_write.specs.Kept.{StillBegins};

use crate::cut::cut_on_error;
use crate::fields::{
    bits_len, boolean_len, integer_len, number_len, octets_len, optional_identifier_len,
    optional_number_len, optional_object_identifier_len, optional_octets_len, put_bits,
    put_boolean, put_elements, put_header, put_integer, put_number, put_octets,
    put_optional_identifier, put_optional_number, put_optional_object_identifier,
    put_optional_octets, put_ref_id, ref_id_len,
};
use crate::lengths::{element_len, sum_of};
use crate::queries::{operand_len, put_operand};
use crate::structures::{asked_len, put_asked};
use std::alloc::Global;
use unit_forms::tags;
use z_ber::Tag;
use z_types::{
    Asked, Close, Init, List, Memory, Oid, Present, Request, RpnQuery, Scan, ScanAsk, Search, Text,
};

/// The fields that an Init and its answer share.
#[tactic(auto, using(crate::proofs::KeptFront::kept_on), unfolding(unit_forms::specs::Requests::init_fields))]
pub(crate) fn put_init_fields(out: &mut Text, init: &Init) -> Result<(), Memory>
    ensures ok { OnOk result (out.new ≡ out.old ++ init_fields init.now) }
    ensures err { OnErr result (StillBegins out.old out.new) }
{
    put_ref_id(out, &init.ref_id)?;
    put_bits(out, tags::PROTOCOL_VERSION, init.versions)?;
    put_bits(out, tags::OPTIONS, init.options)?;
    put_number(out, tags::PREFERRED_MESSAGE_SIZE, init.preferred)?;
    put_number(out, tags::EXCEPTIONAL_RECORD_SIZE, init.exceptional)
}

#[tactic(auto, unfolding(unit_forms::specs::Requests::init_fields))]
pub(crate) fn init_fields_len(init: &Init) -> Result<usize, Memory>
    ensures { IfOk result (λ len. len ≡ length (init_fields init.now)) }
{
    sum_of(&[
        ref_id_len(&init.ref_id)?,
        bits_len(tags::PROTOCOL_VERSION, init.versions)?,
        bits_len(tags::OPTIONS, init.options)?,
        number_len(tags::PREFERRED_MESSAGE_SIZE, init.preferred)?,
        number_len(tags::EXCEPTIONAL_RECORD_SIZE, init.exceptional)?,
    ])
}

/// What idAuthentication has in it, where there is a login.
fn put_login(out: &mut Text, login: &Option<Text>) -> Result<(), Memory>
    ensures ok { OnOk result (out.new ≡ out.old
        ++ optional (tree_field id_authentication) login.now) }
    ensures err { OnErr result (StillBegins out.old out.new) }
{
    match login {
        Some(login) => put_elements(out, tags::ID_AUTHENTICATION, login.as_slice()),
        None => Ok(()),
    }
}

fn login_len(login: &Option<Text>) -> Result<usize, Memory>
    ensures { IfOk result
        (λ len. len ≡ length (optional (tree_field id_authentication) login.now)) }
{
    match login {
        Some(login) => {
            element_len(
                Tag::constructed_context(tags::ID_AUTHENTICATION),
                login.len(),
            )
        }
        None => Ok(0),
    }
}

/// The fields of an Init.
#[tactic(auto, using(crate::proofs::KeptFront::kept_on), unfolding(unit_forms::specs::Requests::init_request_fields))]
fn put_init_request_fields(out: &mut Text, init: &Init) -> Result<(), Memory>
    ensures ok { OnOk result (out.new ≡ out.old ++ init_request_fields init.now) }
    ensures err { OnErr result (StillBegins out.old out.new) }
{
    put_init_fields(out, init)?;
    put_login(out, &init.login)
}

#[tactic(auto, unfolding(unit_forms::specs::Requests::init_request_fields))]
fn init_request_fields_len(init: &Init) -> Result<usize, Memory>
    ensures { IfOk result (λ len. len ≡ length (init_request_fields init.now)) }
{
    sum_of(&[init_fields_len(init)?, login_len(&init.login)?])
}

/// Names of databases, one after another.
fn put_database_names(out: &mut Text, dbs: &[Text]) -> Result<(), Memory>
    ensures ok { OnOk result (out.new ≡ out.old ++ database_names dbs.now) }
    ensures err { OnErr result (StillBegins out.old out.new) }
{
    for name in dbs {
        put_octets(out, tags::DATABASE_NAME, name.as_slice())?;
    }
    Ok(())
}

fn database_names_len(dbs: &[Text]) -> Result<usize, Memory>
    ensures { IfOk result (λ len. len ≡ length (database_names dbs.now)) }
{
    let mut len = 0;
    for name in dbs {
        len = sum_of(&[len, octets_len(tags::DATABASE_NAME, name.as_slice())?])?;
    }
    Ok(len)
}

/// A field of databases.
#[tactic(auto, using(crate::proofs::KeptFront::kept_on))]
fn put_databases(out: &mut Text, number: u32, dbs: &List<Text>) -> Result<(), Memory>
    requires { number < 2 ^ 31 }
    ensures ok { OnOk result (out.new ≡ out.old ++ tree_field number (database_names dbs.now)) }
    ensures err { OnErr result (StillBegins out.old out.new) }
{
    let tag = Tag::constructed_context(number);
    put_header(out, tag, database_names_len(dbs.as_slice())?)?;
    put_database_names(out, dbs.as_slice())
}

fn databases_len(number: u32, dbs: &List<Text>) -> Result<usize, Memory>
    requires { number < 2 ^ 31 }
    ensures { IfOk result (λ len. len ≡ length (tree_field number (database_names dbs.now))) }
{
    let tag = Tag::constructed_context(number);
    element_len(tag, database_names_len(dbs.as_slice())?)
}

/// A field of an element set name, where it is there.
#[tactic(auto, using(crate::proofs::KeptFront::kept_on))]
fn put_element_name(out: &mut Text, number: u32, name: &Option<Text>) -> Result<(), Memory>
    requires { number < 2 ^ 31 }
    ensures ok { OnOk result (out.new ≡ out.old ++ optional (element_name_field number) name.now) }
    ensures err { OnErr result (StillBegins out.old out.new) }
{
    match name {
        Some(name) => {
            let len = octets_len(tags::GENERIC_ELEMENT_SET_NAME, name.as_slice())?;
            put_header(out, Tag::constructed_context(number), len)?;
            put_octets(out, tags::GENERIC_ELEMENT_SET_NAME, name.as_slice())
        }
        None => Ok(()),
    }
}

fn element_name_len(number: u32, name: &Option<Text>) -> Result<usize, Memory>
    requires { number < 2 ^ 31 }
    ensures { IfOk result (λ len. len ≡ length (optional (element_name_field number) name.now)) }
{
    match name {
        Some(name) => {
            let len = octets_len(tags::GENERIC_ELEMENT_SET_NAME, name.as_slice())?;
            element_len(Tag::constructed_context(number), len)
        }
        None => Ok(0),
    }
}

/// The record syntax, where it is there.
fn put_syntax(out: &mut Text, syntax: &Option<Oid>) -> Result<(), Memory>
    ensures ok { OnOk result (out.new ≡ out.old ++ syntax_field syntax.now) }
    ensures err { OnErr result (StillBegins out.old out.new) }
{
    put_optional_identifier(out, tags::PREFERRED_RECORD_SYNTAX, syntax)
}

fn syntax_len(syntax: &Option<Oid>) -> Result<usize, Memory>
    ensures { IfOk result (λ len. len ≡ length (syntax_field syntax.now)) }
{
    optional_identifier_len(tags::PREFERRED_RECORD_SYNTAX, syntax)
}

/// The fields of a Search as far as its databases.
#[tactic(auto, using(crate::proofs::KeptFront::kept_on))]
fn put_search_head(out: &mut Text, search: &Search) -> Result<(), Memory>
    ensures ok { OnOk result (out.new ≡ out.old ++ search_head search.now) }
    ensures err { OnErr result (StillBegins out.old out.new) }
{
    put_ref_id(out, &search.ref_id)?;
    put_number(out, tags::SMALL_SET_UPPER_BOUND, search.small)?;
    put_number(out, tags::LARGE_SET_LOWER_BOUND, search.large)?;
    put_number(out, tags::MEDIUM_SET_PRESENT_NUMBER, search.medium)?;
    put_boolean(out, tags::REPLACE_INDICATOR, search.replace)?;
    put_octets(out, tags::RESULT_SET_NAME, search.set_name.as_slice())?;
    put_databases(out, tags::DATABASE_NAMES, &search.dbs)
}

fn search_head_len(search: &Search) -> Result<usize, Memory>
    ensures { IfOk result (λ len. len ≡ length (search_head search.now)) }
{
    sum_of(&[
        ref_id_len(&search.ref_id)?,
        number_len(tags::SMALL_SET_UPPER_BOUND, search.small)?,
        number_len(tags::LARGE_SET_LOWER_BOUND, search.large)?,
        number_len(tags::MEDIUM_SET_PRESENT_NUMBER, search.medium)?,
        boolean_len(tags::REPLACE_INDICATOR, search.replace)?,
        octets_len(tags::RESULT_SET_NAME, search.set_name.as_slice())?,
        databases_len(tags::DATABASE_NAMES, &search.dbs)?,
    ])
}

/// The field of a query.
#[tactic(auto, using(crate::proofs::KeptFront::kept_on))]
fn put_query_field(alloc: Global, out: &mut Text, asked: &Asked<RpnQuery>) -> Result<(), Memory>
    ensures ok { OnOk result (out.new ≡ out.old ++ tree_field query_tag (asked_octets asked.now)) }
    ensures err { OnErr result (StillBegins out.old out.new) }
{
    put_header(
        out,
        Tag::constructed_context(tags::QUERY),
        asked_len(alloc, asked)?,
    )?;
    put_asked(alloc, out, asked)
}

/// The fields of a Search.
#[tactic(auto, using(crate::proofs::KeptFront::kept_on), unfolding(unit_forms::specs::Requests::search_fields))]
fn put_search_fields(alloc: Global, out: &mut Text, search: &Search) -> Result<(), Memory>
    ensures ok { OnOk result (out.new ≡ out.old ++ search_fields search.now) }
    ensures err { OnErr result (StillBegins out.old out.new) }
{
    put_search_head(out, search)?;
    put_element_name(
        out,
        tags::SMALL_SET_ELEMENT_SET_NAMES,
        &search.small_element,
    )?;
    put_element_name(
        out,
        tags::MEDIUM_SET_ELEMENT_SET_NAMES,
        &search.medium_element,
    )?;
    put_syntax(out, &search.syntax)?;
    put_query_field(alloc, out, &search.query)
}

#[tactic(auto, unfolding(unit_forms::specs::Requests::search_fields))]
fn search_fields_len(alloc: Global, search: &Search) -> Result<usize, Memory>
    ensures { IfOk result (λ len. len ≡ length (search_fields search.now)) }
{
    let query = asked_len(alloc, &search.query)?;
    sum_of(&[
        search_head_len(search)?,
        element_name_len(tags::SMALL_SET_ELEMENT_SET_NAMES, &search.small_element)?,
        element_name_len(tags::MEDIUM_SET_ELEMENT_SET_NAMES, &search.medium_element)?,
        syntax_len(&search.syntax)?,
        element_len(Tag::constructed_context(tags::QUERY), query)?,
    ])
}

/// The record composition of a Present.
fn put_composition(out: &mut Text, asked: &Asked<Option<Text>>) -> Result<(), Memory>
    ensures ok { OnOk result (out.new ≡ out.old ++ composition_field asked.now) }
    ensures err { OnErr result (StillBegins out.old out.new) }
{
    match asked {
        Asked::Good(name) => put_element_name(out, tags::RECORD_COMPOSITION_SIMPLE, name),
        Asked::Bad(_) => Ok(()),
    }
}

fn composition_len(asked: &Asked<Option<Text>>) -> Result<usize, Memory>
    ensures { IfOk result (λ len. len ≡ length (composition_field asked.now)) }
{
    match asked {
        Asked::Good(name) => element_name_len(tags::RECORD_COMPOSITION_SIMPLE, name),
        Asked::Bad(_) => Ok(0),
    }
}

/// The place that a Present begins at.
fn put_start(out: &mut Text, present: &Present) -> Result<(), Memory>
    ensures ok { OnOk result (out.new ≡ out.old
        ++ integer_field result_set_start_point present.now.start) }
    ensures err { OnErr result (StillBegins out.old out.new) }
{
    put_integer(out, tags::RESULT_SET_START_POINT, present.start)
}

/// The fields of a Present as far as the number of records.
#[tactic(auto, using(crate::proofs::KeptFront::kept_on))]
fn put_present_head(out: &mut Text, present: &Present) -> Result<(), Memory>
    ensures ok { OnOk result (out.new ≡ out.old ++ present_head present.now) }
    ensures err { OnErr result (StillBegins out.old out.new) }
{
    put_ref_id(out, &present.ref_id)?;
    put_octets(out, tags::RESULT_SET_ID, present.set_name.as_slice())?;
    put_start(out, present)?;
    put_number(out, tags::NUMBER_OF_RECORDS_REQUESTED, present.number)
}

fn present_head_len(present: &Present) -> Result<usize, Memory>
    ensures { IfOk result (λ len. len ≡ length (present_head present.now)) }
{
    sum_of(&[
        ref_id_len(&present.ref_id)?,
        octets_len(tags::RESULT_SET_ID, present.set_name.as_slice())?,
        integer_len(tags::RESULT_SET_START_POINT, present.start)?,
        number_len(tags::NUMBER_OF_RECORDS_REQUESTED, present.number)?,
    ])
}

/// The fields of a Present.
#[tactic(auto, using(crate::proofs::KeptFront::kept_on), unfolding(unit_forms::specs::Requests::present_fields))]
fn put_present_fields(out: &mut Text, present: &Present) -> Result<(), Memory>
    ensures ok { OnOk result (out.new ≡ out.old ++ present_fields present.now) }
    ensures err { OnErr result (StillBegins out.old out.new) }
{
    put_present_head(out, present)?;
    put_composition(out, &present.element)?;
    put_syntax(out, &present.syntax)
}

#[tactic(auto, unfolding(unit_forms::specs::Requests::present_fields))]
fn present_fields_len(present: &Present) -> Result<usize, Memory>
    ensures { IfOk result (λ len. len ≡ length (present_fields present.now)) }
{
    sum_of(&[
        present_head_len(present)?,
        composition_len(&present.element)?,
        syntax_len(&present.syntax)?,
    ])
}

/// What a scan asks for.
#[tactic(auto, using(crate::proofs::KeptFront::kept_on), unfolding(unit_forms::specs::Requests::scan_ask_fields))]
fn put_scan_ask(out: &mut Text, ask: &ScanAsk) -> Result<(), Memory>
    ensures ok { OnOk result (out.new ≡ out.old ++ scan_ask_fields ask.now) }
    ensures err { OnErr result (StillBegins out.old out.new) }
{
    put_optional_object_identifier(out, &ask.attr_set)?;
    put_operand(out, &ask.attrs, &ask.term)?;
    put_optional_number(out, tags::STEP_SIZE, ask.step)?;
    put_number(out, tags::NUMBER_OF_TERMS_REQUESTED, ask.number)?;
    put_optional_number(out, tags::PREFERRED_POSITION_IN_RESPONSE, ask.position)
}

#[tactic(auto, unfolding(unit_forms::specs::Requests::scan_ask_fields))]
fn scan_ask_len(ask: &ScanAsk) -> Result<usize, Memory>
    ensures { IfOk result (λ len. len ≡ length (scan_ask_fields ask.now)) }
{
    sum_of(&[
        optional_object_identifier_len(&ask.attr_set)?,
        operand_len(&ask.attrs, &ask.term)?,
        optional_number_len(tags::STEP_SIZE, ask.step)?,
        number_len(tags::NUMBER_OF_TERMS_REQUESTED, ask.number)?,
        optional_number_len(tags::PREFERRED_POSITION_IN_RESPONSE, ask.position)?,
    ])
}

/// What a Scan asks for, where it is not refused.
fn put_scan_asked(out: &mut Text, asked: &Asked<ScanAsk>) -> Result<(), Memory>
    ensures ok { OnOk result (out.new ≡ out.old ++ scan_asked_fields asked.now) }
    ensures err { OnErr result (StillBegins out.old out.new) }
{
    match asked {
        Asked::Good(ask) => put_scan_ask(out, ask),
        Asked::Bad(_) => Ok(()),
    }
}

fn scan_asked_len(asked: &Asked<ScanAsk>) -> Result<usize, Memory>
    ensures { IfOk result (λ len. len ≡ length (scan_asked_fields asked.now)) }
{
    match asked {
        Asked::Good(ask) => scan_ask_len(ask),
        Asked::Bad(_) => Ok(0),
    }
}

/// The fields of a Scan.
#[tactic(auto, using(crate::proofs::KeptFront::kept_on), unfolding(unit_forms::specs::Requests::scan_fields))]
fn put_scan_fields(out: &mut Text, scan: &Scan) -> Result<(), Memory>
    ensures ok { OnOk result (out.new ≡ out.old ++ scan_fields scan.now) }
    ensures err { OnErr result (StillBegins out.old out.new) }
{
    put_ref_id(out, &scan.ref_id)?;
    put_databases(out, tags::SCAN_DATABASE_NAMES, &scan.dbs)?;
    put_scan_asked(out, &scan.ask)
}

#[tactic(auto, unfolding(unit_forms::specs::Requests::scan_fields))]
fn scan_fields_len(scan: &Scan) -> Result<usize, Memory>
    ensures { IfOk result (λ len. len ≡ length (scan_fields scan.now)) }
{
    sum_of(&[
        ref_id_len(&scan.ref_id)?,
        databases_len(tags::SCAN_DATABASE_NAMES, &scan.dbs)?,
        scan_asked_len(&scan.ask)?,
    ])
}

/// The fields of a Close.
#[tactic(auto, using(crate::proofs::KeptFront::kept_on), unfolding(unit_forms::specs::Requests::close_fields))]
fn put_close_fields(out: &mut Text, close: &Close) -> Result<(), Memory>
    ensures ok { OnOk result (out.new ≡ out.old ++ close_fields close.now) }
    ensures err { OnErr result (StillBegins out.old out.new) }
{
    put_ref_id(out, &close.ref_id)?;
    put_number(out, tags::CLOSE_REASON, close.reason)?;
    put_optional_octets(out, tags::DIAGNOSTIC_INFORMATION, &close.info)
}

#[tactic(auto, unfolding(unit_forms::specs::Requests::close_fields))]
fn close_fields_len(close: &Close) -> Result<usize, Memory>
    ensures { IfOk result (λ len. len ≡ length (close_fields close.now)) }
{
    sum_of(&[
        ref_id_len(&close.ref_id)?,
        number_len(tags::CLOSE_REASON, close.reason)?,
        optional_octets_len(tags::DIAGNOSTIC_INFORMATION, &close.info)?,
    ])
}

/// An Init.
#[tactic(auto, using(crate::proofs::KeptFront::kept_on))]
fn put_init(out: &mut Text, init: &Init) -> Result<(), Memory>
    ensures ok { OnOk result (out.new ≡ out.old
        ++ tree_field init_request (init_request_fields init.now)) }
    ensures err { OnErr result (StillBegins out.old out.new) }
{
    put_header(
        out,
        Tag::constructed_context(tags::INIT_REQUEST),
        init_request_fields_len(init)?,
    )?;
    put_init_request_fields(out, init)
}

/// A Search.
#[tactic(auto, using(crate::proofs::KeptFront::kept_on))]
fn put_search(alloc: Global, out: &mut Text, search: &Search) -> Result<(), Memory>
    ensures ok { OnOk result (out.new ≡ out.old
        ++ tree_field search_request (search_fields search.now)) }
    ensures err { OnErr result (StillBegins out.old out.new) }
{
    put_header(
        out,
        Tag::constructed_context(tags::SEARCH_REQUEST),
        search_fields_len(alloc, search)?,
    )?;
    put_search_fields(alloc, out, search)
}

/// A Present.
#[tactic(auto, using(crate::proofs::KeptFront::kept_on))]
fn put_present(out: &mut Text, present: &Present) -> Result<(), Memory>
    ensures ok { OnOk result (out.new ≡ out.old
        ++ tree_field present_request (present_fields present.now)) }
    ensures err { OnErr result (StillBegins out.old out.new) }
{
    put_header(
        out,
        Tag::constructed_context(tags::PRESENT_REQUEST),
        present_fields_len(present)?,
    )?;
    put_present_fields(out, present)
}

/// A Scan.
#[tactic(auto, using(crate::proofs::KeptFront::kept_on))]
fn put_scan(out: &mut Text, scan: &Scan) -> Result<(), Memory>
    ensures ok { OnOk result (out.new ≡ out.old ++ tree_field scan_request (scan_fields scan.now)) }
    ensures err { OnErr result (StillBegins out.old out.new) }
{
    put_header(
        out,
        Tag::constructed_context(tags::SCAN_REQUEST),
        scan_fields_len(scan)?,
    )?;
    put_scan_fields(out, scan)
}

/// A Close, of either side.
#[tactic(auto, using(crate::proofs::KeptFront::kept_on))]
pub(crate) fn put_close(out: &mut Text, close: &Close) -> Result<(), Memory>
    ensures ok { OnOk result (out.new ≡ out.old ++ tree_field close_tag (close_fields close.now)) }
    ensures err { OnErr result (StillBegins out.old out.new) }
{
    put_header(
        out,
        Tag::constructed_context(tags::CLOSE),
        close_fields_len(close)?,
    )?;
    put_close_fields(out, close)
}

/// A request, or a part of it.
#[tactic(auto, using(crate::proofs::KeptFront::kept_on))]
fn put_unit(alloc: Global, out: &mut Text, request: &Request) -> Result<(), Memory>
    ensures ok { OnOk result (out.new ≡ out.old ++ spell_request request.now) }
    ensures err { OnErr result (StillBegins out.old out.new) }
{
    match request {
        Request::Init(init) => put_init(out, init),
        Request::Search(search) => put_search(alloc, out, search),
        Request::Present(present) => put_present(out, present),
        Request::Scan(scan) => put_scan(out, scan),
        Request::Close(close) => put_close(out, close),
    }
}

/// Appends a request in its one written form; without memory nothing is changed. What a request
/// has that was refused is left out.
pub fn put_request(alloc: Global, out: &mut Text, request: &Request) -> Result<(), Memory>
    ensures ok { OnOk result (out.new ≡ out.old ++ spell_request request.now) }
    ensures err { OnErr result (out.new ≡ out.old) }
{
    let start = out.len();
    let put = put_unit(alloc, out, request);
    cut_on_error(out, start, put)
}

/// A request in its one written form, as a text of its own.
pub fn write_request(alloc: Global, request: &Request) -> Result<Text, Memory>
    ensures { IfOk result (λ unit. unit ≡ spell_request request.now) }
{
    let mut out = Text::new(alloc);
    put_request(alloc, &mut out, request)?;
    Ok(out)
}
