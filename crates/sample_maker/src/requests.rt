//! The requests that each client sends (ANSI/NISO Z39.50-2003, InitializeRequest, SearchRequest,
//! PresentRequest and Close).

ghost use Rattle.std.specs.Prelude.{◌≡◌, [], ◌∷◌, IfOk};
ghost use Rattle.sample_maker.specs.Requests.{close_request, init_request, present_request, search_request, title, titles_with};

use std::alloc::Global;
use z_types::{
    Asked, Attr, Close, Init, List, MOST_UNIT_OCTETS, Memory, OWN_VERSIONS, Oid, Present, Request,
    Rpn, RpnQuery, Search, Term, Text,
};

/// The attribute set bib-1.
const BIB1_ATTRIBUTES: [u32; 6] = [1, 2, 840, 10003, 3, 1];

/// The record syntax XML.
const XML: [u32; 7] = [1, 2, 840, 10003, 5, 109, 10];

/// The options 0 to 14.
const OPTIONS: u32 = 0x7fff;

/// Use, of the attribute types of bib-1.
const USE: u32 = 1;

/// Title, of the values of Use.
const TITLE: u32 = 4;

/// The name of each client's result set.
const SET: &[u8] = b"1";

/// An Init of versions 1 to 3, the options 0 to 14, and the largest units.
pub(crate) fn init_request() -> Request
    ensures { result ≡ init_request }
{
    Request::Init(Init {
        ref_id: None,
        versions: OWN_VERSIONS,
        options: OPTIONS,
        preferred: MOST_UNIT_OCTETS,
        exceptional: MOST_UNIT_OCTETS,
        login: None,
    })
}

/// A Search for the titles with a letter, which asks for none of their records.
pub(crate) fn search_request(alloc: Global, letter: u8) -> Result<Request, Memory>
    ensures { IfOk result (λ asked. asked ≡ search_request letter) }
{
    let attr_set = Oid::copy_of(alloc, &BIB1_ATTRIBUTES)?;
    let root = titles_with(alloc, letter)?;
    Ok(Request::Search(Search {
        ref_id: None,
        small: 0,
        large: 1,
        medium: 0,
        replace: true,
        set_name: Text::copy_of(alloc, SET)?,
        dbs: one(alloc, Text::copy_of(alloc, b"Default")?)?,
        small_element: None,
        medium_element: None,
        syntax: None,
        query: Asked::Good(RpnQuery { attr_set, root }),
    }))
}

/// The titles with a letter.
fn titles_with(alloc: Global, letter: u8) -> Result<Rpn, Memory>
    ensures { IfOk result (λ root. root ≡ titles_with letter) }
{
    let title = Attr {
        set: None,
        kind: USE,
        value: TITLE,
    };
    let term = Term::General(Text::copy_of(alloc, &[letter])?);
    Ok(Rpn::leaf(one(alloc, title)?, term))
}

/// A Present of the first record, as XML.
pub(crate) fn present_request(alloc: Global) -> Result<Request, Memory>
    ensures { IfOk result (λ asked. asked ≡ present_request) }
{
    Ok(Request::Present(Present {
        ref_id: None,
        set_name: Text::copy_of(alloc, SET)?,
        start: 1,
        number: 1,
        element: Asked::Good(None),
        syntax: Some(Oid::copy_of(alloc, &XML)?),
    }))
}

/// A Close, as all is done.
pub(crate) fn close_request() -> Request
    ensures { result ≡ close_request }
{
    Request::Close(Close {
        ref_id: None,
        reason: 0,
        info: None,
    })
}

/// The list of one item.
fn one<T: Drop>(alloc: Global, item: T) -> Result<List<T>, Memory>
    ensures { IfOk result (λ list. list ≡ item ∷ []) }
{
    let mut list = List::new(alloc);
    list.push(item)?;
    Ok(list)
}
