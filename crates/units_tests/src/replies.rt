//! The fields of replies as words, as those of requests.

use crate::fields::{put_close, put_init, put_number, put_some_number, put_some_text, put_text};
use case_files::Answer;
use z_types::{Body, Diag, Form, Item, NamedRecord, Oid, Reply, ScanAnswer, ScanEntry, Text};
use z_write::weight;

/// Puts the fields of a reply at the end.
pub(crate) fn put_reply(out: &mut Answer, reply: &Reply) {
    match reply {
        Reply::Init { init, result } => {
            put_init(out, init);
            out.put(" result ");
            out.print(result);
        }
        Reply::Search { .. } => put_search(out, reply),
        Reply::Present { .. } => put_present(out, reply),
        Reply::Scan { .. } => put_scan(out, reply),
        Reply::Close(close) => put_close(out, close),
    }
}

/// Puts the fields of a SearchResponse at the end.
fn put_search(out: &mut Answer, reply: &Reply) {
    if let Reply::Search {
        ref_id,
        count,
        returned,
        next,
        ok,
        status,
        body,
    } = reply
    {
        put_head(out, "Search", ref_id);
        put_number(out, " count ", *count);
        put_counts(out, *returned, *next);
        out.put(" ok ");
        out.print(ok);
        put_some_number(out, " status ", *status);
        put_body(out, body);
    }
}

/// Puts the fields of a PresentResponse at the end.
fn put_present(out: &mut Answer, reply: &Reply) {
    if let Reply::Present {
        ref_id,
        returned,
        next,
        status,
        body,
    } = reply
    {
        put_head(out, "Present", ref_id);
        put_counts(out, *returned, *next);
        put_number(out, " status ", *status);
        put_body(out, body);
    }
}

/// Puts the fields of a ScanResponse at the end.
fn put_scan(out: &mut Answer, reply: &Reply) {
    if let Reply::Scan {
        ref_id,
        status,
        answer,
        diags,
    } = reply
    {
        put_head(out, "Scan", ref_id);
        put_number(out, " status ", *status);
        put_answer(out, answer);
        put_diags(out, diags.as_slice());
    }
}

/// Puts the weights of the records of a reply at the end, in octets.
pub(crate) fn put_weights(out: &mut Answer, reply: &Reply) {
    out.put("octets");
    match reply {
        Reply::Search { body, .. } | Reply::Present { body, .. } => put_body_weights(out, body),
        _ => {}
    }
}

/// Puts the weights of the records of a response at the end.
fn put_body_weights(out: &mut Answer, body: &Body) {
    if let Body::Records(records) = body {
        for record in records.as_slice() {
            out.put(" ");
            out.print(&weight(record));
        }
    }
}

/// Puts the name of a reply and the referenceId at the end.
fn put_head(out: &mut Answer, name: &str, ref_id: &Option<Text>) {
    out.put(name);
    put_some_text(out, " ref ", ref_id);
}

/// Puts the number returned and the next position at the end.
fn put_counts(out: &mut Answer, returned: u32, next: u32) {
    put_number(out, " returned ", returned);
    put_number(out, " next ", next);
}

/// Puts what a response has for records at the end.
fn put_body(out: &mut Answer, body: &Body) {
    match body {
        Body::None => {}
        Body::Records(records) => put_records(out, records.as_slice()),
        Body::Diag(diag) => {
            out.put(" one");
            put_diag(out, diag);
        }
        Body::Diags(diags) => put_diags(out, diags.as_slice()),
    }
}

/// Puts diagnostics at the end.
fn put_diags(out: &mut Answer, diags: &[Diag]) {
    for diag in diags {
        put_diag(out, diag);
    }
}

/// Puts a diagnostic at the end: its set, its condition, and what it tells more.
fn put_diag(out: &mut Answer, diag: &Diag) {
    out.put(" diag ");
    out.put_numbers(".", diag.set.arcs());
    put_number(out, " ", diag.condition);
    put_text(out, " ", &diag.addinfo);
}

/// Puts records at the end.
fn put_records(out: &mut Answer, records: &[NamedRecord]) {
    for record in records {
        out.put(" record");
        put_some_text(out, " name ", &record.name);
        put_item(out, &record.item);
    }
}

/// Puts a record at the end, or the diagnostic in its place.
fn put_item(out: &mut Answer, item: &Item) {
    match item {
        Item::Record {
            syntax,
            form,
            bytes,
        } => put_record(out, syntax, *form, bytes),
        Item::Surrogate(diag) => put_diag(out, diag),
    }
}

/// Puts a record at the end.
fn put_record(out: &mut Answer, syntax: &Oid, form: Form, octets: &Text) {
    out.put(" syntax ");
    out.put_numbers(".", syntax.arcs());
    out.put(" form ");
    out.spell(&form);
    out.put(" ");
    out.put_hex(octets.as_slice());
}

/// Puts the entries that a scan found at the end.
fn put_answer(out: &mut Answer, answer: &ScanAnswer) {
    put_some_number(out, " position ", answer.position);
    for entry in answer.entries.as_slice() {
        put_entry(out, entry);
    }
}

/// Puts an entry at the end.
fn put_entry(out: &mut Answer, entry: &ScanEntry) {
    out.put(" entry ");
    out.put_term(&entry.term);
    put_some_number(out, " occurrences ", entry.occurrences);
}
