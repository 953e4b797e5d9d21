//! The fields of requests as words, each behind its name. Fields that are absent are left out, numbers of
//! versions and options are in hexadecimal digits.

use case_files::Answer;
use z_types::{
    Asked, Close, Diag, Init, List, Oid, Present, Request, RpnQuery, Scan, ScanAsk, Search, Text,
};

/// Puts the fields of a request at the end.
pub(crate) fn put_request(out: &mut Answer, request: &Request) {
    match request {
        Request::Init(init) => put_init(out, init),
        Request::Search(search) => put_search(out, search),
        Request::Present(present) => put_present(out, present),
        Request::Scan(scan) => put_scan(out, scan),
        Request::Close(close) => put_close(out, close),
    }
}

/// Puts a text at the end, behind its name.
pub(crate) fn put_text(out: &mut Answer, name: &str, text: &Text) {
    out.put(name);
    out.put_quoted(text.as_slice());
}

/// Puts a text at the end, where there is one.
pub(crate) fn put_some_text(out: &mut Answer, name: &str, text: &Option<Text>) {
    if let Some(text) = text {
        put_text(out, name, text);
    }
}

/// Puts a number at the end, behind its name.
pub(crate) fn put_number(out: &mut Answer, name: &str, number: u32) {
    out.put(name);
    out.print(&number);
}

/// Puts a number at the end, where there is one.
pub(crate) fn put_some_number(out: &mut Answer, name: &str, number: Option<u32>) {
    if let Some(number) = number {
        put_number(out, name, number);
    }
}

/// Puts an object identifier at the end, where there is one.
fn put_some_oid(out: &mut Answer, name: &str, oid: &Option<Oid>) {
    if let Some(oid) = oid {
        out.put(name);
        out.put_numbers(".", oid.arcs());
    }
}

/// Puts the names of databases at the end.
fn put_databases(out: &mut Answer, names: &List<Text>) {
    for name in names.as_slice() {
        put_text(out, " database ", name);
    }
}

/// Puts the fields of an Init at the end, asked or answered.
pub(crate) fn put_init(out: &mut Answer, init: &Init) {
    out.put("Init");
    put_some_text(out, " ref ", &init.ref_id);
    out.put(" versions ");
    out.put_bits(init.versions);
    out.put(" options ");
    out.put_bits(init.options);
    put_number(out, " preferred ", init.preferred);
    put_number(out, " exceptional ", init.exceptional);
    put_some_text(out, " login ", &init.login);
}

/// Puts the fields of a Search at the end.
fn put_search(out: &mut Answer, search: &Search) {
    out.put("Search");
    put_some_text(out, " ref ", &search.ref_id);
    put_bounds(out, search);
    put_text(out, " set ", &search.set_name);
    put_databases(out, &search.dbs);
    put_some_text(out, " small_element ", &search.small_element);
    put_some_text(out, " medium_element ", &search.medium_element);
    put_some_oid(out, " syntax ", &search.syntax);
    match &search.query {
        Asked::Good(query) => put_query(out, query),
        Asked::Bad(diag) => put_not_served(out, diag),
    }
}

/// Puts the bounds of a Search and its replace indicator at the end.
fn put_bounds(out: &mut Answer, search: &Search) {
    put_number(out, " small ", search.small);
    put_number(out, " large ", search.large);
    put_number(out, " medium ", search.medium);
    out.put(" replace ");
    out.print(&search.replace);
}

/// Puts a query at the end, behind its attribute set.
fn put_query(out: &mut Answer, query: &RpnQuery) {
    out.put(" @attrset ");
    out.put_numbers(".", query.attr_set.arcs());
    out.put(" ");
    out.put_query(&query.root);
}

/// Puts the diagnostic by which a request is not served at the end.
pub(crate) fn put_not_served(out: &mut Answer, diag: &Diag) {
    put_number(out, " not served ", diag.condition);
    put_text(out, " ", &diag.addinfo);
}

/// Puts the fields of a Present at the end.
fn put_present(out: &mut Answer, present: &Present) {
    out.put("Present");
    put_some_text(out, " ref ", &present.ref_id);
    put_text(out, " set ", &present.set_name);
    out.put(" start ");
    out.print(&present.start);
    put_number(out, " number ", present.number);
    put_some_oid(out, " syntax ", &present.syntax);
    match &present.element {
        Asked::Good(element) => put_some_text(out, " element ", element),
        Asked::Bad(diag) => put_not_served(out, diag),
    }
}

/// Puts the fields of a Scan at the end.
fn put_scan(out: &mut Answer, scan: &Scan) {
    out.put("Scan");
    put_some_text(out, " ref ", &scan.ref_id);
    put_databases(out, &scan.dbs);
    match &scan.ask {
        Asked::Good(ask) => put_ask(out, ask),
        Asked::Bad(diag) => put_not_served(out, diag),
    }
}

/// Puts what a Scan asks for at the end.
fn put_ask(out: &mut Answer, ask: &ScanAsk) {
    put_some_oid(out, " attrset ", &ask.attr_set);
    put_some_number(out, " step ", ask.step);
    put_number(out, " number ", ask.number);
    out.put(" ");
    out.put_attributes(ask.attrs.as_slice());
    out.put_term(&ask.term);
    put_some_number(out, " position ", ask.position);
}

/// Puts the fields of a Close at the end.
pub(crate) fn put_close(out: &mut Answer, close: &Close) {
    out.put("Close");
    put_some_text(out, " ref ", &close.ref_id);
    put_number(out, " reason ", close.reason);
    put_some_text(out, " info ", &close.info);
}
