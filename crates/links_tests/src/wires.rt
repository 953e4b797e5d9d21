//! Cases of links with test targets, turn by turn: units are sent, and what arrives is read. Turns are those
//! of `turns`.

use crate::turns::{Turn, turn_of};
use crate::words::{put_number, put_record};
use gw_outside::{Dialled, Events, Looked, Sent, Wire};
use std::alloc::Global;
use test_cases::{Case, Player, step_words};
use test_target::TestWorld;
use test_wire::TestWire;
use z_read::read_reply;
use z_types::{Address, Body, Item, List, Memory, NamedRecord, Reply, Text};

/// Plays links with test targets.
pub(crate) struct OverLinks;

impl Player for OverLinks {
    fn play(&self, alloc: Global, case: &Case<'_>) -> Result<Text, Memory> {
        let mut links = Vec::new(alloc);
        let mut answers = Text::new(alloc);
        let mut wire = TestWire::new(alloc);
        take_turns(alloc, &mut wire, &mut links, case, &mut answers)?;
        Ok(answers)
    }
}

/// Takes the turns of a case.
fn take_turns<N: Wire<TestWorld> + Events>(
    alloc: Global,
    wire: &mut N,
    links: &mut Vec<N::Link>,
    case: &Case<'_>,
    answers: &mut Text,
) -> Result<(), Memory> {
    for line in case.lines.lines() {
        let words = step_words(alloc, line)?;
        if !words.is_empty() {
            let turn = turn_of(alloc, case, &words)?;
            take_turn(alloc, wire, links, &turn, answers)?;
            answers.push(b'\n')?;
        }
    }
    Ok(())
}

/// Takes a turn.
fn take_turn<N: Wire<TestWorld> + Events>(
    alloc: Global,
    wire: &mut N,
    links: &mut Vec<N::Link>,
    turn: &Turn,
    answer: &mut Text,
) -> Result<(), Memory> {
    match turn {
        Turn::Dial(address) => dial(alloc, wire, links, address, answer),
        Turn::Send(place, unit) => send(alloc, wire, links.get_mut(*place), unit, answer),
        Turn::Look(place) => look(alloc, wire, links.get_mut(*place), answer),
        Turn::Gone(presents) => wire.gone(0, *presents),
        Turn::Slow(looks) => wire.slow(0, *looks),
        Turn::Cut => wire.cut(0),
        Turn::Unknown => answer.append(b"no such turn"),
    }
}

/// Makes a link.
fn dial<N: Wire<TestWorld>>(
    alloc: Global,
    wire: &mut N,
    links: &mut Vec<N::Link>,
    address: &Address,
    answer: &mut Text,
) -> Result<(), Memory> {
    match wire.dial(alloc, address) {
        Dialled::Link(link) => {
            links.push(link)?;
            Ok(())
        }
        Dialled::Failed => answer.append(b"no link"),
        Dialled::Memory => Err(Memory),
    }
}

/// Sends a unit over a link.
fn send<N: Wire<TestWorld>>(
    alloc: Global,
    wire: &mut N,
    link: Option<&mut N::Link>,
    unit: &Text,
    answer: &mut Text,
) -> Result<(), Memory> {
    let Some(link) = link else {
        return answer.append(b"no link");
    };
    match wire.send(alloc, link, unit.as_slice()) {
        Sent::Sent => Ok(()),
        Sent::Failed => answer.append(b"not sent"),
        Sent::Memory => Err(Memory),
    }
}

/// Looks at a link, and reads what arrived.
fn look<N: Wire<TestWorld>>(
    alloc: Global,
    wire: &mut N,
    link: Option<&mut N::Link>,
    answer: &mut Text,
) -> Result<(), Memory> {
    let Some(link) = link else {
        return answer.append(b"no link");
    };
    match wire.look(alloc, link) {
        Looked::Arrived => read(alloc, wire, link, answer),
        Looked::NotYet => answer.append(b"not yet"),
        Looked::Failed => answer.append(b"failed"),
        Looked::Memory => Err(Memory),
    }
}

/// Reads a reply that arrived, and consumes it.
fn read<N: Wire<TestWorld>>(
    alloc: Global,
    wire: &mut N,
    link: &mut N::Link,
    answer: &mut Text,
) -> Result<(), Memory> {
    let arrived = wire.arrived(link);
    let count = arrived.len();
    put_arrived(alloc, answer, arrived)?;
    wire.consume(link, count);
    Ok(())
}

/// Puts the reply that octets are.
fn put_arrived(alloc: Global, answer: &mut Text, octets: &[u8]) -> Result<(), Memory> {
    match read_reply(alloc, octets) {
        Ok(reply) => put_reply(alloc, answer, &reply),
        Err(_) => answer.append(b"no reply"),
    }
}

/// Puts what a reply says.
fn put_reply(alloc: Global, answer: &mut Text, reply: &Reply) -> Result<(), Memory> {
    match reply {
        Reply::Init { .. } => answer.append(b"opened"),
        Reply::Search { count, .. } => put_number(alloc, answer, "hits ", *count),
        Reply::Present { body, .. } => put_body(alloc, answer, body),
        _ => answer.append(b"other"),
    }
}

/// Puts the records of a reply, or its diagnostic.
fn put_body(alloc: Global, answer: &mut Text, body: &Body) -> Result<(), Memory> {
    match body {
        Body::Records(records) => put_records(alloc, answer, records),
        Body::Diag(diag) => put_number(alloc, answer, "refused ", diag.condition),
        _ => answer.append(b"other"),
    }
}

/// Puts the octets of records, one behind another.
fn put_records(
    alloc: Global,
    answer: &mut Text,
    records: &List<NamedRecord>,
) -> Result<(), Memory> {
    for named in records.as_slice() {
        if let Item::Record { bytes, .. } = &named.item {
            put_record(alloc, answer, bytes.as_slice())?;
        }
    }
    Ok(())
}
