//! Two clients that wait for each other's answers, so that each is answered only where both are served at
//! the same time.

use crate::clients::{ANSWERED, INIT, SEARCH};
use crate::commands::{files_of, texts};
use gateway_config::Status;
use gw_memory::{FakeBackend, MemoryClock, MemorySink, MemorySource};
use gw_outside::{Accept, Accepted, Came, Got, Sink, Source, Took};
use route_config::SMALLEST_TEXT;
use serve_top::serve::{Listed, Worker};
use serve_top::top_serve;
use std::alloc::Global;
use std::random::RandomSource;
use std::sync::Wait;
use std::sync::atomic::{AtomicU64, Ordering};
use std::test::Fail;
use std::thread::{Threads, sleep};
use std::time::Duration;
use test_target::TestWorld;
use z_types::{End, List, Memory, Text};

/// How often a client looks whether the other was written enough, a millisecond apart.
const LOOKS: u32 = 10_000;

/// The octets of what a client is answered, and of the reply to its Init alone.
const WHOLE: u64 = 57;

const INIT_REPLY: u64 = 43;

/// What a client sends: its Search once the other was written so many octets. Else its read fails.
#[derive(Drop)]
struct WaitingSource<'a> {
    runtime: &'a HostRuntime,
    init: MemorySource,
    search: MemorySource,
    has_begun: bool,
    others: &'a AtomicU64,
    least: u64,
    faults: u64,
}

impl WaitingSource<'_> {
    /// Whether the other was written enough, which is waited for.
    fn waits(&self) -> bool {
        for _ in 0..LOOKS {
            if self.others.load(Ordering::SeqCst) >= self.least {
                return true;
            }
            sleep(self.runtime, Duration::from_millis(1));
        }
        false
    }
}

impl Source for WaitingSource<'_> {
    ghost use Rattle.std.specs.Prelude.{None};

    ghost faults = { λ source. source.faults };

    ghost left = { λ source. None };

    ghost given = { λ source. None };

    fn read(&mut self, into: &mut [u8]) -> Got {
        let got = if self.has_begun {
            if self.waits() {
                self.search.read(into)
            } else {
                Got::Failed
            }
        } else {
            self.has_begun = true;
            self.init.read(into)
        };
        if got == Got::Failed {
            self.faults = self.faults.saturating_add(1);
        }
        got
    }
}

/// Where a client's answers go, counted for the other.
#[derive(Drop)]
struct CountedSink<'a> {
    sink: MemorySink,
    octets: &'a AtomicU64,
}

impl Sink for CountedSink<'_> {
    ghost faults = { λ to. ⟦<MemorySink as Sink>⟧.faults to.sink };

    ghost received = { λ to. ⟦<MemorySink as Sink>⟧.received to.sink };

    fn write(&mut self, piece: &[u8]) -> Took {
        let took = self.sink.write(piece);
        if let Took::Bytes(count) = took {
            self.octets.fetch_add(count as u64, Ordering::SeqCst);
        }
        took
    }
}

/// The two ends of a client's connection.
type Ends<'a> = (WaitingSource<'a>, CountedSink<'a>);

/// An acceptor of one client, who is kept when it is handed back, with how many marks and which end are told.
#[derive(Drop)]
struct OneClient<'a> {
    waiting: Option<Ends<'a>>,
    closed: Option<(Ends<'a>, usize, Option<End>)>,
}

impl<'a> Accept for OneClient<'a> {
    ghost use Rattle.std.specs.Prelude.{None};

    type In = WaitingSource<'a>;

    type Out = CountedSink<'a>;

    ghost faults = { λ accept. 0 };

    ghost left = { λ accept. None };

    ghost closed = { λ accept. None };

    ghost out = { λ accept. None };

    fn accept(&mut self) -> Accepted<WaitingSource<'a>, CountedSink<'a>> {
        match self.waiting.take() {
            Some((input, output)) => Accepted::Connection(input, output),
            None => Accepted::Ended,
        }
    }

    fn close(&mut self, input: WaitingSource<'a>, output: CountedSink<'a>, came: Came<'_>) {
        self.closed = Some(((input, output), came.marks.len(), came.end));
    }
}

/// A worker with one client.
type WithOne<'a> = Worker<FakeBackend<TestWorld>, OneClient<'a>, MemoryClock>;

/// A worker with one client, who waits until the other was written so many octets.
fn worker<'a>(
    runtime: &'a HostRuntime,
    alloc: Global,
    octets: &'a AtomicU64,
    others: &'a AtomicU64,
    least: u64,
) -> Result<WithOne<'a>, Memory> {
    let input = WaitingSource {
        runtime,
        init: MemorySource::new(Text::copy_of(alloc, INIT)?, List::new(alloc)),
        search: MemorySource::new(Text::copy_of(alloc, SEARCH)?, List::new(alloc)),
        has_begun: false,
        others,
        least,
        faults: 0,
    };
    let output = CountedSink {
        sink: MemorySink::new(alloc, List::new(alloc)),
        octets,
    };
    Ok(Worker {
        backend: FakeBackend::new(TestWorld, List::new(alloc)),
        accept: OneClient {
            waiting: Some((input, output)),
            closed: None,
        },
        clock: MemoryClock::new(List::new(alloc)),
        served: Listed::keeping(alloc),
    })
}

/// Whether the client of each worker was answered, and its acceptor was told so.
fn have_answered(workers: &[WithOne]) -> bool {
    for worker in workers {
        if !has_answered(worker) {
            return false;
        }
    }
    true
}

/// Whether a worker's client was answered.
fn has_answered(worker: &WithOne) -> bool {
    match &worker.accept.closed {
        Some(((_, output), marks, end)) => {
            output.sink.received() == ANSWERED && *marks == 2 && *end == Some(End::Finished)
        }
        None => false,
    }
}

/// Whether two workers answer two clients, whose octets are counted here. The first sends its Search once the
/// second was written all its answers, and the second once the first was written the reply to its Init.
fn are_answered<'a, T: RandomSource + Threads + Wait + Sync>(
    threads: &T,
    runtime: &'a HostRuntime,
    alloc: Global,
    first: &'a AtomicU64,
    second: &'a AtomicU64,
) -> Result<bool, Memory> {
    let mut workers = Vec::new(alloc);
    workers.push(worker(runtime, alloc, first, second, WHOLE)?)?;
    workers.push(worker(runtime, alloc, second, first, INIT_REPLY)?)?;
    let words = texts(alloc, &["serve", "c", "2100", "2"])?;
    let mut files = files_of(alloc, SMALLEST_TEXT, 0)?;
    let mut out = MemorySink::new(alloc, List::new(alloc));
    let status = top_serve::<_, TestWorld, _, _, _, _, _>(
        threads,
        alloc,
        words.as_slice(),
        &mut files,
        &mut out,
        &mut workers,
    );
    Ok(
        status == Status::Ok
            && out.received() == b"served 2\n".as_slice()
            && have_answered(workers.as_slice()),
    )
}

#[test]
fn two_clients_who_wait_for_each_other_are_both_answered(rt: HostRuntime) -> Result<(), Fail> {
    let (first, second) = (AtomicU64::new(0), AtomicU64::new(0));
    assert!(rt; are_answered(&rt, &rt, rt.alloc(), &first, &second)?);
    Ok(())
}
