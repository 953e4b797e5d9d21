//! Values of each shared type, two of a type: a copy equals the value that it is of, and not the other. What
//! values are compared by is proved of every type; here it is called at each.

use case_files::{Answer, NoAnswer};
use std::alloc::Global;
use z_types::{
    Address, Attr, Body, Close, End, Exact, Init, KnownSet, Limits, List, Mark, Memory, Oid, Reply,
    Request, Rpn, RpnQuery, Schema, SetKey, Term, Text, Work, copy, same,
};

/// Whether a call is one of these. Its answer is put at the end.
pub(crate) fn is_answered(
    alloc: Global,
    call: &str,
    words: &str,
    out: &mut Answer,
) -> Result<bool, NoAnswer> {
    if call != "copy" {
        return Ok(false);
    }
    let is_alone = match words {
        "structure" | "operator" | "key" | "set" | "fetch" => differ_in_query(alloc, words)?,
        "request" | "close" | "reply" | "mark" | "end" => differ_in_number(words)?,
        _ => differ_in_route(alloc, words)?,
    };
    out.put(if is_alone {
        "equals its source alone"
    } else {
        "does not"
    });
    Ok(true)
}

/// Whether a value's copy equals the value and not the other.
fn differ<T: Exact + Drop>(
    value: Result<T, Memory>,
    other: Result<T, Memory>,
) -> Result<bool, Memory> {
    let value = value?;
    let other = other?;
    let again = copy(&value)?;
    Ok(same(&again, &value) && !same(&again, &other))
}

/// The same of values with queries.
fn differ_in_query(alloc: Global, words: &str) -> Result<bool, Memory> {
    match words {
        "structure" => differ(structure(alloc, 1, 2), structure(alloc, 2, 1)),
        "operator" => differ(joined(alloc, true), joined(alloc, false)),
        "key" => differ(key(alloc, 1), key(alloc, 2)),
        "set" => differ(known_set(alloc, 1), known_set(alloc, 2)),
        _ => differ(fetch(alloc, 1), fetch(alloc, 2)),
    }
}

/// The same of values that differ in a number.
fn differ_in_number(words: &str) -> Result<bool, Memory> {
    match words {
        "request" => differ(Ok(Request::Init(init(1))), Ok(Request::Init(init(2)))),
        "close" => differ(Ok(Request::Close(close(0))), Ok(Request::Close(close(6)))),
        "reply" => differ(Ok(present_reply(0)), Ok(present_reply(5))),
        "mark" => differ(Ok(Mark::Silent(1)), Ok(Mark::Full(1))),
        _ => differ(Ok(End::Cut(1)), Ok(End::Cut(2))),
    }
}

/// The same of what a route names.
fn differ_in_route(alloc: Global, words: &str) -> Result<bool, NoAnswer> {
    match words {
        "address" => Ok(differ(far(alloc), Ok(Address::Test(210)))?),
        "limits" => Ok(differ(Ok(limits(1)), Ok(limits(2)))?),
        "schema" => Ok(differ(schema(alloc, b"F"), schema(alloc, b"B"))?),
        _ => Err(NoAnswer::Misspelt),
    }
}

/// An address of a host.
fn far(alloc: Global) -> Result<Address, Memory> {
    Ok(Address::Tcp(text(alloc, b"a")?, 210))
}

fn text(alloc: Global, bytes: &[u8]) -> Result<Text, Memory> {
    Text::copy_of(alloc, bytes)
}

/// A list of this one item.
fn only<T: Drop>(alloc: Global, item: T) -> Result<List<T>, Memory> {
    let mut items = List::new(alloc);
    items.push(item)?;
    Ok(items)
}

/// A query of one operand, a number.
fn query(alloc: Global, number: i64) -> Result<RpnQuery, Memory> {
    let attr = Attr {
        set: None,
        kind: 1,
        value: 4,
    };
    Ok(RpnQuery {
        attr_set: Oid::copy_of(alloc, &[1, 2, 840, 10003, 3, 1])?,
        root: Rpn::leaf(only(alloc, attr)?, Term::Number(number)),
    })
}

/// Two operands, numbers, joined by And.
fn structure(alloc: Global, left: i64, right: i64) -> Result<Rpn, Memory> {
    let left = query(alloc, left)?.root;
    Rpn::and(alloc, left, query(alloc, right)?.root)
}

/// Two sets, joined by Or or by And-not.
fn joined(alloc: Global, is_or: bool) -> Result<Rpn, Memory> {
    let left = Rpn::operand(text(alloc, b"a")?);
    let right = Rpn::operand(text(alloc, b"b")?);
    if is_or {
        Rpn::or(alloc, left, right)
    } else {
        Rpn::and_not(alloc, left, right)
    }
}

/// The key of a query in one database.
fn key(alloc: Global, number: i64) -> Result<SetKey, Memory> {
    Ok(SetKey {
        dbs: only(alloc, text(alloc, b"a")?)?,
        query: query(alloc, number)?,
    })
}

fn known_set(alloc: Global, hits: u32) -> Result<KnownSet, Memory> {
    Ok(KnownSet {
        name: text(alloc, b"1")?,
        legs: only(alloc, 0)?,
        query: query(alloc, 1)?,
        hits: only(alloc, hits)?,
    })
}

fn fetch(alloc: Global, first: u32) -> Result<Work, Memory> {
    Ok(Work::Fetch {
        login: None,
        legs: only(alloc, 0)?,
        query: query(alloc, 1)?,
        hits: only(alloc, 3)?,
        first,
        count: 1,
        syntax: None,
        element: None,
    })
}

fn init(preferred: u32) -> Init {
    Init {
        ref_id: None,
        versions: 1,
        options: 1,
        preferred,
        exceptional: 1,
        login: None,
    }
}

fn close(reason: u32) -> Close {
    Close {
        ref_id: None,
        reason,
        info: None,
    }
}

/// A PresentResponse of a presentStatus.
fn present_reply(status: u32) -> Reply {
    Reply::Present {
        ref_id: None,
        returned: 1,
        next: 1,
        status,
        body: Body::None,
    }
}

fn limits(sets: u32) -> Limits {
    Limits {
        units: 1,
        searches: 1,
        records: 1,
        sets,
    }
}

/// A schema that asks for an element set.
fn schema(alloc: Global, element: &[u8]) -> Result<Schema, Memory> {
    Ok(Schema {
        name: text(alloc, b"dc")?,
        uri: text(alloc, b"dc")?,
        element: text(alloc, element)?,
    })
}
