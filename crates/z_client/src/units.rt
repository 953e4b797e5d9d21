//! The units that are sent to targets (ANSI/NISO Z39.50-2003, 3.2.1 to 3.2.3 and 3.2.8). The referenceId
//! of a client is never passed on.

ghost use Rattle.std.specs.Prelude.{◌≡◌, IfOk};
ghost use Rattle.z_types.specs.declared.ask.Ask.TheVariants as Asks;
ghost use Rattle.unit_forms.specs.Logins.{IsLoginIf};
ghost use Rattle.gw_outside.specs.Wires.{IsRequestUnit};
ghost use Rattle.z_client.specs.Units.{init_request, request_of, IsAskUnit};

use crate::typed::ask_is_typed;
use std::alloc::Global;
use z_laws::{written_requests_are_read, written_requests_are_units};
use z_types::{
    Ask, Asked, Init, List, MOST_UNIT_OCTETS, Memory, OWN_OPTIONS, OWN_VERSIONS, Oid, Present,
    Request, Scan, ScanAsk, Search, SetKey, Text, copy,
};
use z_write::write_request;

/// The unit of the Init that opens a session, with this login, if any.
#[tactic(auto, using(crate::proofs::UnitLemmas::init_is_unit))]
pub(crate) fn init_unit(alloc: Global, login: Option<Text>) -> Result<Text, Memory>
    requires { IsLoginIf login }
    ensures { IfOk result (λ unit. IsRequestUnit unit (init_request login)) }
{
    written_requests_are_units();
    written_requests_are_read();
    let init = Init {
        ref_id: None,
        versions: OWN_VERSIONS,
        options: OWN_OPTIONS,
        preferred: MOST_UNIT_OCTETS as u32,
        exceptional: MOST_UNIT_OCTETS as u32,
        login,
    };
    write_request(alloc, &Request::Init(init))
}

/// The unit of an ask.
#[tactic(auto, using(crate::proofs::UnitLemmas::ask_is_unit))]
pub(crate) fn ask_unit(alloc: Global, ask: &Ask) -> Result<Text, Memory>
    ensures { IfOk result (λ unit. IsAskUnit ask.now unit) }
{
    written_requests_are_units();
    written_requests_are_read();
    ask_is_typed(ask);
    let request = request_of(ask)?;
    write_request(alloc, &request)
}

/// The request that an ask is.
fn request_of(ask: &Ask) -> Result<Request, Memory>
    ensures { IfOk result (λ request. request ≡ request_of ask.now) }
{
    match ask {
        Ask::Search { name, key } => search_request(name, key),
        Ask::Present {
            name,
            first,
            count,
            syntax,
            element,
        } => present_request(name, *first, *count, syntax, element),
        Ask::Scan { dbs, ask } => scan_request(dbs, ask),
    }
}

/// A Search that shows no records.
fn search_request(name: &Text, key: &SetKey) -> Result<Request, Memory>
    ensures { IfOk result (λ request. request ≡ request_of (Asks.Search name.now key.now)) }
{
    Ok(Request::Search(Search {
        ref_id: None,
        small: 0,
        large: 1,
        medium: 0,
        replace: true,
        set_name: copy(name)?,
        dbs: copy(&key.dbs)?,
        small_element: None,
        medium_element: None,
        syntax: None,
        query: Asked::Good(copy(&key.query)?),
    }))
}

/// A Present of records of a set.
fn present_request(
    name: &Text,
    first: u32,
    count: u32,
    syntax: &Option<Oid>,
    element: &Option<Text>,
) -> Result<Request, Memory>
    ensures { IfOk result (λ request. request
        ≡ request_of (Asks.Present name.now first count syntax.now element.now)) }
{
    Ok(Request::Present(Present {
        ref_id: None,
        set_name: copy(name)?,
        start: i64::from(first),
        number: count,
        element: Asked::Good(copy(element)?),
        syntax: copy(syntax)?,
    }))
}

/// A Scan as it is asked.
fn scan_request(dbs: &List<Text>, ask: &ScanAsk) -> Result<Request, Memory>
    ensures { IfOk result (λ request. request ≡ request_of (Asks.Scan dbs.now ask.now)) }
{
    Ok(Request::Scan(Scan {
        ref_id: None,
        dbs: copy(dbs)?,
        ask: Asked::Good(copy(ask)?),
    }))
}
