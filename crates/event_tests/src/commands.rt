//! The command over memory: how it ends, and what it prints.

use crate::fronts::{Over, front_of, list_of, slow_clients_of, text_of};
use crate::octets::{INIT_REPLY, PRESENT_REPLY, SEARCH_REPLY};
use event_memory::{Arrival, MemoryEdgeAccept, MemoryEdgeSink, MemoryEdgeSource};
use event_top::top_events;
use gateway_config::Status;
use gw_memory::{MemoryFiles, MemorySink};
use route_config::SMALLEST_TEXT;
use std::alloc::Global;
use std::sync::atomic::AtomicU64;
use std::test::Fail;
use test_target::TestWorld;
use z_types::{List, Memory, Text};

/// A front with clients in memory.
type Front<'a> = Over<'a, MemoryEdgeAccept<MemoryEdgeSource, MemoryEdgeSink>>;

/// The command: its words, how many clients there are, what accepts find, the number of the wait that fails, 0
/// for none, how it ends, what it prints, and how many clients are handed back.
#[derive(Clone, Copy)]
struct Case<'a> {
    words: &'a [&'a str],
    clients: u32,
    arrivals: &'a [Arrival],
    failing_wait: u64,
    status: Status,
    printed: &'a [u8],
    closed: usize,
}

/// Three clients, of whom two may be open at a time, where nothing fails.
const SOUND: Case = Case {
    words: &["events", "c", "2100", "2"],
    clients: 3,
    arrivals: &[],
    failing_wait: 0,
    status: Status::Ok,
    printed: b"served 3\n",
    closed: 3,
};

/// Words that are refused.
const REFUSED: Case = Case {
    status: Status::Words,
    printed: b"usage: check CONFIG | replay CONFIG SCRIPT | load N | serve CONFIG PORT WORKERS | events CONFIG PORT MOST\n",
    closed: 0,
    ..SOUND
};

const CASES: [Case; 14] = [
    SOUND,
    Case {
        words: &["events", "c", "1", "1"],
        ..SOUND
    },
    Case {
        words: &["events", "c", "65535", "1000"],
        ..SOUND
    },
    Case {
        clients: 0,
        printed: b"served 0\n",
        closed: 0,
        ..SOUND
    },
    Case {
        words: &[],
        ..REFUSED
    },
    Case {
        words: &["events", "c", "2100"],
        ..REFUSED
    },
    Case {
        words: &["events", "c", "0", "2"],
        ..REFUSED
    },
    Case {
        words: &["events", "c", "2100", "0"],
        ..REFUSED
    },
    Case {
        words: &["events", "c", "2100", "1001"],
        ..REFUSED
    },
    Case {
        words: &["serve", "c", "2100", "2"],
        ..REFUSED
    },
    Case {
        words: &["events", "d", "2100", "2"],
        status: Status::ReadFault,
        printed: b"read fault d\n",
        closed: 0,
        ..SOUND
    },
    Case {
        arrivals: &[Arrival::Next, Arrival::Fault],
        status: Status::AcceptFault,
        printed: b"accept fault\n",
        closed: 1,
        ..SOUND
    },
    // A wait fails: those that are open are given up, and one more than may be open was not accepted.
    Case {
        failing_wait: 1,
        status: Status::PollFault,
        printed: b"poll fault\n",
        closed: 2,
        ..SOUND
    },
    Case {
        failing_wait: 20,
        status: Status::PollFault,
        printed: b"poll fault\n",
        closed: 2,
        ..SOUND
    },
];

/// These words.
fn texts(alloc: Global, words: &[&str]) -> Result<List<Text>, Memory> {
    let mut texts = List::new(alloc);
    for word in words {
        texts.push(Text::copy_of(alloc, word.as_bytes())?)?;
    }
    Ok(texts)
}

/// A front of slow clients.
fn slow_front<'a>(
    alloc: Global,
    case: &Case,
    dials: &'a AtomicU64,
    searches: &'a AtomicU64,
) -> Result<Front<'a>, Memory> {
    let clients = slow_clients_of(alloc, case.clients)?;
    let accept = MemoryEdgeAccept::new(alloc, clients, list_of(alloc, case.arrivals)?)?;
    front_of(alloc, accept, case.failing_wait, dials, searches)
}

/// Whether the command ends so.
fn is_so(alloc: Global, case: &Case) -> Result<bool, Memory> {
    let (dials, searches) = (AtomicU64::new(0), AtomicU64::new(0));
    let mut front = slow_front(alloc, case, &dials, &searches)?;
    let mut config = List::new(alloc);
    config.push((
        Text::copy_of(alloc, b"c")?,
        Text::copy_of(alloc, SMALLEST_TEXT)?,
    ))?;
    let mut files = MemoryFiles::new(config, List::new(alloc));
    let mut out = MemorySink::new(alloc, List::new(alloc));
    let words = texts(alloc, case.words)?;
    let status = top_events::<TestWorld, _, _, _, _, _, _>(
        alloc,
        words.as_slice(),
        &mut files,
        &mut out,
        &mut front,
    );
    let written = text_of(alloc, &[INIT_REPLY, SEARCH_REPLY, PRESENT_REPLY])?;
    let mut so = status == case.status
        && out.received() == case.printed
        && front.accept.closed().len() == case.closed;
    if case.status == Status::Ok {
        for (_, output) in front.accept.closed() {
            so = so && output.received() == written.as_slice();
        }
    }
    Ok(so)
}

#[test]
fn the_command_ends_as_its_words_and_its_front_say(rt: HostRuntime) -> Result<(), Fail> {
    for case in &CASES {
        assert!(rt;
            is_so(rt.alloc(), case)?,
            "{:?}, {:?}",
            case.words,
            case.status
        );
    }
    Ok(())
}
