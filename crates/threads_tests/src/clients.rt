//! Workers with clients in memory, each of which sends an Init and a Search, or a Present too.

ghost use Rattle.std.specs.Prelude.{IfOk};
ghost use Rattle.gw_outside.specs.Accepts.{IsUntouched};

use gw_memory::{FakeBackend, MemoryAccept, MemoryClock, MemorySink, MemorySource};
use gw_outside::{Sink, Source};
use serve_top::serve::{Listed, Worker};
use std::alloc::Global;
use test_target::TestWorld;
use z_types::{End, List, Memory, Text};

/// An Init.
pub(crate) const INIT: &[u8] = b"\
    \xb4\x13\x83\x02\x05\xe0\x84\x03\x01\xff\xfe\x85\x03\x10\x00\x00\x86\x03\x10\x00\x00";

/// A Search for the letter `a` as title.
pub(crate) const SEARCH: &[u8] = b"\
    \xb6\x3e\x8d\x01\x00\x8e\x01\x01\x8f\x01\x00\x90\x01\xff\x91\x01\x31\xb2\x0a\x9f\x69\x07Default\
    \xb5\x21\xa1\x1f\x06\x07\x2a\x86\x48\xce\x13\x03\x01\xa0\x14\xbf\x66\x11\xbf\x2c\x0a\x30\x08\
    \x9f\x78\x01\x01\x9f\x79\x01\x04\x9f\x2d\x01a";

/// What an Init and a Search are answered: there are three hits.
pub(crate) const ANSWERED: &[u8] = b"\
    \xb5\x29\x83\x02\x05\xe0\x84\x03\x01\xc1\x02\x85\x03\x10\x00\x00\x86\x03\x10\x00\x00\x8c\x01\xff\
    \x9f\x6e\x02mp\x9f\x6f\x07gateway\x9f\x70\x011\
    \xb7\x0c\x97\x01\x03\x98\x01\x00\x99\x01\x01\x96\x01\xff";

/// A Present of the first record, in XML.
const PRESENT: &[u8] = b"\
    \xb8\x15\x9f\x1f\x011\x9e\x01\x01\x9d\x01\x01\x9f\x68\x08\x2a\x86\x48\xce\x13\x05\x6d\x0a";

/// What it is answered.
const RECORD: &[u8] = b"\
    \xb9\x3a\x98\x01\x01\x99\x01\x02\x9b\x01\x00\xbc\x2f\x30\x2d\x80\x07Default\xa1\x22\xa1\x20\
    \x28\x1e\x06\x08\x2a\x86\x48\xce\x13\x05\x6d\x0a\x81\x12<r>0.Default.4</r>";

/// A worker over memory.
pub(crate) type Memories = Worker<
    FakeBackend<TestWorld>,
    MemoryAccept<MemorySource, MemorySink>,
    MemoryClock,
>;

/// The list of one number.
pub(crate) fn one_number(alloc: Global, number: u64) -> Result<List<u64>, Memory> {
    let mut list = List::new(alloc);
    list.push(number)?;
    Ok(list)
}

/// So many numbers behind one.
fn numbers_behind(alloc: Global, number: u64, count: u64) -> Result<List<u64>, Memory> {
    let mut list = List::new(alloc);
    for place in 0..count {
        list.push(number.saturating_add(place).saturating_add(1))?;
    }
    Ok(list)
}

/// A client's connection, of which nothing was read or written; it may send a Present too.
fn client(alloc: Global, presents: bool) -> Result<(MemorySource, MemorySink), Memory>
    ensures untouched { IfOk result (λ new. IsUntouched
        ⟦<MemorySource as Source>⟧ ⟦<MemorySink as Sink>⟧ new.0 new.1) }
{
    let mut sent = Text::copy_of(alloc, INIT)?;
    sent.append(SEARCH)?;
    if presents {
        sent.append(PRESENT)?;
    }
    let source = MemorySource::new(sent, List::new(alloc));
    Ok((source, MemorySink::new(alloc, List::new(alloc))))
}

/// How many calls fail at least behind those to targets that are answered.
const FAILING_CALLS: u64 = 16;

/// The moments of a clock: one of them so often, and others behind it, the last again behind them.
#[derive(Clone, Copy)]
pub(crate) struct Moments<'a> {
    pub(crate) first: (u64, u32),
    pub(crate) others: &'a [u64],
}

/// The list of these moments.
fn list_of(alloc: Global, moments: Moments) -> Result<List<u64>, Memory> {
    let mut list = List::new(alloc);
    for _ in 0..moments.first.1 {
        list.push(moments.first.0)?;
    }
    for moment in moments.others {
        list.push(*moment)?;
    }
    Ok(list)
}

/// A worker for so many clients, who may each send a Present too, and whose accept of this number fails, 0 for none. So many of its calls to
/// targets are answered, and the next ones fail.
pub(crate) fn worker(
    alloc: Global,
    clients: u32,
    presents: bool,
    failing: u64,
    calls: u64,
    moments: Moments,
) -> Result<Memories, Memory> {
    let mut connections: List<(MemorySource, MemorySink)> = List::new(alloc);
    for _ in 0..clients {
        connections.push(client(alloc, presents)?)?;
    }
    let failing = one_number(alloc, failing)?;
    let failing_calls = numbers_behind(alloc, calls, FAILING_CALLS)?;
    Ok(Worker {
        backend: FakeBackend::new(TestWorld, failing_calls),
        accept: MemoryAccept::new(alloc, connections, failing)?,
        clock: MemoryClock::new(list_of(alloc, moments)?),
        served: Listed::keeping(alloc),
    })
}

/// So many workers for so many clients each; an accept of the last one fails, where its number is not 0.
/// So many calls of each to targets are answered, and the next ones fail.
pub(crate) fn workers(
    alloc: Global,
    count: u32,
    clients: u32,
    presents: bool,
    failing: u64,
    calls: u64,
    moments: Moments,
) -> Result<Vec<Memories>, Memory> {
    let mut workers = Vec::new(alloc);
    for place in 0..count {
        let failing = if place + 1 == count { failing } else { 0 };
        workers.push(worker(alloc, clients, presents, failing, calls, moments)?)?;
    }
    Ok(workers)
}

/// Whether octets are what a client is answered.
fn is_answer(received: &[u8], presents: bool) -> bool {
    match received.split_at_checked(ANSWERED.len()) {
        Some((front, rest)) => front == ANSWERED && rest == if presents { RECORD } else { b"" },
        None => false,
    }
}

/// Whether a worker served so many clients, and each was answered.
pub(crate) fn has_answered(worker: &Memories, clients: usize, presents: bool) -> bool {
    let requests = if presents { 3 } else { 2 };
    let served = worker.served.kept().unwrap_or(&[]);
    let closed = worker.accept.closed();
    served.len() == clients
        && closed.len() == clients
        && served.iter().all(|came| came.end == End::Finished && came.marks.len() == requests)
        && closed
            .iter()
            .all(|connection| is_answer(connection.1.received(), presents))
}
