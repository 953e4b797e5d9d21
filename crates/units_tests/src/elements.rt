//! Headers, frames and elements of X.690:2021.

use case_files::{Answer, NoAnswer};
use z_ber::{BerFault, Element, definite_frame, elements, header, read_written_element, whole};

/// Whether a call is one of these. Its answer is put at the end.
pub(crate) fn is_answered(call: &str, octets: &[u8], out: &mut Answer) -> Result<bool, NoAnswer> {
    match call {
        "header" => put_header(out, octets),
        "definite_frame" => put_size(out, definite_frame(octets)),
        "whole" => put_size(out, whole(octets)),
        "elements" => put_place(out, elements(octets)),
        "unit" => put_unit(out, octets),
        "first" => put_first(out, octets),
        "children" => put_children(out, octets),
        "again" => put_again(out, octets),
        "written" => put_written(out, octets),
        _ => return Ok(false),
    }
    Ok(true)
}

/// The number of a tag, the size of the header, and the length.
fn put_header(out: &mut Answer, octets: &[u8]) {
    match header(octets) {
        Ok(found) => {
            put_number(out, "tag ", found.tag.number);
            out.put(" size ");
            out.print(&found.size);
            put_length(out, found.length);
        }
        Err(fault) => out.spell(&fault),
    }
}

/// A number behind its name.
fn put_number(out: &mut Answer, name: &str, number: u32) {
    out.put(name);
    out.print(&number);
}

/// A length, if it is definite.
fn put_length(out: &mut Answer, length: Option<u64>) {
    match length {
        Some(length) => {
            out.put(" length ");
            out.print(&length);
        }
        None => out.put(" indefinite"),
    }
}

/// The size of a frame, or why there is none.
fn put_size(out: &mut Answer, size: Result<usize, BerFault>) {
    match size {
        Ok(size) => out.print(&size),
        Err(fault) => out.spell(&fault),
    }
}

/// Where octets are no elements, if they are none.
fn put_place(out: &mut Answer, place: Result<(), usize>) {
    match place {
        Ok(()) => out.put("ok"),
        Err(at) => put_none_at(out, at),
    }
}

/// Where octets are no unit, if they are none.
fn put_unit(out: &mut Answer, octets: &[u8]) {
    match Element::of_unit(octets) {
        Ok(_) => out.put("ok"),
        Err(at) => put_none_at(out, at),
    }
}

/// The place where octets are none.
fn put_none_at(out: &mut Answer, at: usize) {
    out.put("none at ");
    out.print(&at);
}

/// The tag of the element that octets begin with.
fn put_first(out: &mut Answer, octets: &[u8]) {
    match Element::first(octets) {
        Ok(element) => put_number(out, "tag ", element.tag().number),
        Err(fault) => out.spell(&fault),
    }
}

/// The children of the element that octets begin with, each with its tag, its body, and the tags of its own.
fn put_children(out: &mut Answer, octets: &[u8]) {
    match Element::first(octets) {
        Ok(element) => put_each(out, element),
        Err(fault) => out.spell(&fault),
    }
}

/// The children that an element still lends.
fn put_each(out: &mut Answer, mut element: Element<'_>) {
    for _ in 0..element.body().len() {
        match element.next_child() {
            Ok(Some(child)) => put_child(out, child),
            Ok(None) => break,
            Err(fault) => out.spell(&fault),
        }
    }
}

/// A child: its tag, its body, and the tags of its own.
fn put_child(out: &mut Answer, child: Element<'_>) {
    put_number(out, "tag ", child.tag().number);
    out.put(" body ");
    out.put_hex(child.body());
    out.put(" of");
    put_tags(out, child);
    out.put(";");
}

/// The tags of the children that an element still lends.
fn put_tags(out: &mut Answer, mut element: Element<'_>) {
    for _ in 0..element.body().len() {
        if !put_next_tag(out, &mut element) {
            break;
        }
    }
}

/// The tag of the next child, if there is one.
fn put_next_tag(out: &mut Answer, element: &mut Element<'_>) -> bool {
    match element.next_child() {
        Ok(Some(child)) => put_number(out, " ", child.tag().number),
        Ok(None) => return false,
        Err(fault) => out.spell(&fault),
    }
    true
}

/// The tags of the first child, of the first once more, and of the second.
fn put_again(out: &mut Answer, octets: &[u8]) {
    match Element::first(octets) {
        Ok(mut element) => {
            out.put("tags");
            put_next_tag(out, &mut element);
            put_next_tag(out, &mut element.again());
            put_next_tag(out, &mut element);
        }
        Err(fault) => out.spell(&fault),
    }
}

/// The element in its written form that octets begin with.
fn put_written(out: &mut Answer, octets: &[u8]) {
    match read_written_element(octets) {
        Some(found) => {
            put_number(out, "tag ", found.tag.number);
            out.put(" contents ");
            out.put_hex(found.contents);
            out.put(" rest ");
            out.put_hex(found.rest);
        }
        None => out.put("none"),
    }
}
