//! Requests and replies that octets are, and the one form that they are written in. What holds a unit is
//! written for both at once: where it ends, it has a unit to drop.

use crate::{fields, replies};
use case_files::{Answer, NoAnswer};
use std::alloc::Global;
use z_read::{ReadFault, read_reply, read_request};
use z_types::{Asked, Memory, Reply, Request, Text};
use z_write::{put_reply, put_request, write_reply, write_request};

/// A request or a reply.
pub(crate) trait Unit: Sized + Drop {
    /// The unit that octets are.
    fn read(alloc: Global, octets: &[u8]) -> Result<Self, ReadFault>;

    /// Its octets.
    fn write(&self, alloc: Global) -> Result<Text, Memory>;

    /// Puts its octets behind others.
    fn put(&self, alloc: Global, octets: &mut Text) -> Result<(), Memory>;

    /// Puts whether it is served at the end.
    fn put_service(&self, out: &mut Answer);

    /// Puts its fields at the end.
    fn put_fields(&self, out: &mut Answer);
}

impl Unit for Request {
    fn read(alloc: Global, octets: &[u8]) -> Result<Request, ReadFault> {
        read_request(alloc, octets)
    }

    fn write(&self, alloc: Global) -> Result<Text, Memory> {
        write_request(alloc, self)
    }

    fn put(&self, alloc: Global, octets: &mut Text) -> Result<(), Memory> {
        put_request(alloc, octets, self)
    }

    fn put_service(&self, out: &mut Answer) {
        match self {
            Request::Search(search) => put_asked(out, &search.query),
            Request::Present(present) => put_asked(out, &present.element),
            Request::Scan(scan) => put_asked(out, &scan.ask),
            _ => out.put("read"),
        }
    }

    fn put_fields(&self, out: &mut Answer) {
        fields::put_request(out, self);
    }
}

impl Unit for Reply {
    fn read(alloc: Global, octets: &[u8]) -> Result<Reply, ReadFault> {
        read_reply(alloc, octets)
    }

    fn write(&self, alloc: Global) -> Result<Text, Memory> {
        write_reply(alloc, self)
    }

    fn put(&self, _: Global, octets: &mut Text) -> Result<(), Memory> {
        put_reply(octets, self)
    }

    fn put_service(&self, out: &mut Answer) {
        out.put("read");
    }

    fn put_fields(&self, out: &mut Answer) {
        replies::put_reply(out, self);
    }
}

/// Whether what is asked for is served, or the diagnostic by which it is not.
fn put_asked<T>(out: &mut Answer, asked: &Asked<T>) {
    out.put("read");
    if let Asked::Bad(diag) = asked {
        fields::put_not_served(out, diag);
    }
}

/// Whether a call is one of these. Its answer is put at the end.
pub(crate) fn is_answered(
    alloc: Global,
    call: &str,
    octets: &[u8],
    out: &mut Answer,
) -> Result<bool, NoAnswer> {
    match call {
        "read_request" => put_read::<Request>(alloc, out, octets)?,
        "write_request" => put_written::<Request>(alloc, out, octets)?,
        "request" => put_fields::<Request>(alloc, out, octets)?,
        _ => return is_answered_of_reply(alloc, call, octets, out),
    }
    Ok(true)
}

/// The same of replies.
fn is_answered_of_reply(
    alloc: Global,
    call: &str,
    octets: &[u8],
    out: &mut Answer,
) -> Result<bool, NoAnswer> {
    match call {
        "read_reply" => put_read::<Reply>(alloc, out, octets)?,
        "write_reply" => put_written::<Reply>(alloc, out, octets)?,
        "reply" => put_fields::<Reply>(alloc, out, octets)?,
        "weights" => put_weights(alloc, out, octets)?,
        _ => return Ok(false),
    }
    Ok(true)
}

/// Whether octets are a unit that is served, or why not.
fn put_read<U: Unit>(alloc: Global, out: &mut Answer, octets: &[u8]) -> Result<(), NoAnswer> {
    match U::read(alloc, octets) {
        Ok(unit) => {
            unit.put_service(out);
            Ok(())
        }
        Err(fault) => put_fault(out, fault),
    }
}

/// The fields of the unit that octets are, or why they are none.
fn put_fields<U: Unit>(alloc: Global, out: &mut Answer, octets: &[u8]) -> Result<(), NoAnswer> {
    match U::read(alloc, octets) {
        Ok(unit) => {
            unit.put_fields(out);
            Ok(())
        }
        Err(fault) => put_fault(out, fault),
    }
}

/// The weights of the records of the reply that octets are, or why they are none.
fn put_weights(alloc: Global, out: &mut Answer, octets: &[u8]) -> Result<(), NoAnswer> {
    match read_reply(alloc, octets) {
        Ok(reply) => {
            replies::put_weights(out, &reply);
            Ok(())
        }
        Err(fault) => put_fault(out, fault),
    }
}

/// Why octets are no unit.
pub(crate) fn put_fault(out: &mut Answer, fault: ReadFault) -> Result<(), NoAnswer> {
    if fault == ReadFault::Memory {
        return Err(NoAnswer::Memory);
    }
    out.spell(&fault);
    Ok(())
}

/// The written form of the unit that octets are, or why they are none.
fn put_written<U: Unit>(alloc: Global, out: &mut Answer, octets: &[u8]) -> Result<(), NoAnswer> {
    match U::read(alloc, octets) {
        Ok(unit) => put_octets(alloc, out, &unit),
        Err(fault) => put_fault(out, fault),
    }
}

/// The octets of a unit, and what is wrong with them: behind others they are the same, and what is read of them
/// is written in them.
fn put_octets<U: Unit>(alloc: Global, out: &mut Answer, unit: &U) -> Result<(), NoAnswer> {
    let alone = unit.write(alloc)?;
    out.put_hex(alone.as_slice());
    let mut behind = Text::copy_of(alloc, b"x")?;
    unit.put(alloc, &mut behind)?;
    if behind.as_slice().strip_prefix(b"x") != Some(alone.as_slice()) {
        out.put(" but not behind others");
    }
    if !is_written_again::<U>(alloc, &alone)? {
        out.put(" but what is read of them in others");
    }
    Ok(())
}

/// Whether the unit that octets are is written in them.
pub(crate) fn is_written_again<U: Unit>(alloc: Global, octets: &Text) -> Result<bool, NoAnswer> {
    match U::read(alloc, octets.as_slice()) {
        Ok(unit) => Ok(unit.write(alloc)? == *octets),
        Err(ReadFault::Memory) => Err(NoAnswer::Memory),
        Err(_) => Ok(false),
    }
}
