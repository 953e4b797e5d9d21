//! The command over memory: how it ends, what it prints, and what its workers did.

use crate::clients::{Moments, has_answered, one_number, workers};
use gateway_config::Status;
use gw_memory::{MemoryFiles, MemorySink};
use route_config::SMALLEST_TEXT;
use serve_top::top_serve;
use std::alloc::Global;
use std::random::RandomSource;
use std::sync::Wait;
use std::test::Fail;
use std::thread::Threads;
use test_target::TestWorld;
use z_types::{List, Memory, Text};

/// The command: its words, the file `c`, how many workers it is handed, how many clients each has, whether they
/// send a Present,
/// the numbers of the accept, the read and the write that fail, 0 for none, how many calls of each worker to
/// targets are answered, behind which the next ones fail, the moments of each worker's clock, how it ends, what
/// it prints, and how many clients each worker served.
#[derive(Clone, Copy)]
struct Case<'a> {
    words: &'a [&'a str],
    config: &'a [u8],
    workers: u32,
    clients: u32,
    presents: bool,
    failing: [u64; 3],
    calls: u64,
    moments: Moments<'a>,
    status: Status,
    printed: &'a [u8],
    served: usize,
}

/// Two workers with two clients each, where nothing fails.
const SOUND: Case = Case {
    words: &["serve", "c", "2100", "2"],
    config: SMALLEST_TEXT,
    workers: 2,
    clients: 2,
    presents: false,
    failing: [0, 0, 0],
    calls: 1_000_000,
    moments: Moments {
        first: (0, 0),
        others: &[],
    },
    status: Status::Ok,
    printed: b"served 4\n",
    served: 2,
};

/// One worker with all four clients.
const ONE_WORKER: Case = Case {
    words: &["serve", "c", "65535", "1"],
    workers: 1,
    clients: 4,
    served: 4,
    ..SOUND
};

/// Words that are refused.
const REFUSED: Case = Case {
    status: Status::Words,
    printed: b"usage: check CONFIG | replay CONFIG SCRIPT | load N | serve CONFIG PORT WORKERS | events CONFIG PORT MOST\n",
    served: 0,
    ..SOUND
};

const CASES: [Case; 17] = [
    SOUND,
    ONE_WORKER,
    Case {
        words: &["serve", "c", "1", "64"],
        workers: 64,
        clients: 1,
        printed: b"served 64\n",
        served: 1,
        ..SOUND
    },
    Case {
        clients: 0,
        printed: b"served 0\n",
        served: 0,
        ..SOUND
    },
    Case {
        words: &[],
        ..REFUSED
    },
    Case {
        words: &["serve", "c", "2100"],
        ..REFUSED
    },
    Case {
        words: &["check", "c"],
        ..REFUSED
    },
    Case {
        words: &["serve", "c", "0", "2"],
        ..REFUSED
    },
    Case {
        words: &["serve", "c", "65536", "2"],
        ..REFUSED
    },
    Case {
        words: &["serve", "c", "02100", "2"],
        ..REFUSED
    },
    Case {
        words: &["serve", "c", "2100", "3"],
        ..REFUSED
    },
    Case {
        words: &["serve", "c", "2100", "0"],
        workers: 0,
        ..REFUSED
    },
    Case {
        words: &["serve", "c", "2100", "65"],
        workers: 65,
        clients: 0,
        ..REFUSED
    },
    Case {
        config: b"",
        status: Status::Config,
        printed: b"config 2 target\n",
        served: 0,
        ..SOUND
    },
    Case {
        failing: [0, 1, 0],
        status: Status::ReadFault,
        printed: b"read fault c\n",
        served: 0,
        ..SOUND
    },
    // the sink takes an octet at a write
    Case {
        failing: [0, 0, 3],
        status: Status::WriteFault,
        printed: b"se",
        ..SOUND
    },
    // behind its last client
    Case {
        failing: [3, 0, 0],
        status: Status::AcceptFault,
        printed: b"accept fault\n",
        ..SOUND
    },
];

/// The words of a line.
pub(crate) fn texts(alloc: Global, line: &[&str]) -> Result<Vec<Text>, Memory> {
    let mut words = Vec::new(alloc);
    for word in line {
        words.push(Text::copy_of(alloc, word.as_bytes())?)?;
    }
    Ok(words)
}

/// The file `c` of these octets, whose read of this number fails, 0 for none.
pub(crate) fn files_of(alloc: Global, octets: &[u8], failing: u64) -> Result<MemoryFiles, Memory> {
    let mut files = List::new(alloc);
    files.push((Text::copy_of(alloc, b"c")?, Text::copy_of(alloc, octets)?))?;
    Ok(MemoryFiles::new(files, one_number(alloc, failing)?))
}

/// Whether the command ends, prints and serves as its case has it.
fn is_so<R: RandomSource + Threads + Wait + Sync>(
    rt: &R,
    alloc: Global,
    case: &Case,
) -> Result<bool, Memory> {
    let words = texts(alloc, case.words)?;
    let mut files = files_of(alloc, case.config, case.failing[1])?;
    let mut out = MemorySink::taking(alloc, 1, one_number(alloc, case.failing[2])?);
    let mut workers = workers(
        alloc,
        case.workers,
        case.clients,
        case.presents,
        case.failing[0],
        case.calls,
        case.moments,
    )?;
    let status = top_serve::<_, TestWorld, _, _, _, _, _>(
        rt,
        alloc,
        words.as_slice(),
        &mut files,
        &mut out,
        &mut workers,
    );
    let all = workers
        .iter()
        .all(|worker| has_answered(worker, case.served, case.presents));
    Ok(
        status == case.status
            && out.received() == case.printed
            && workers.len() == case.workers as usize
            && all,
    )
}

#[test]
fn a_command_ends_prints_and_serves_as_its_case_has_it(rt: HostRuntime) -> Result<(), Fail> {
    for case in &CASES {
        assert!(rt;
            is_so(&rt, rt.alloc(), case)?,
            "{:?} {:?}",
            case.words,
            case.failing
        );
    }
    Ok(())
}

#[test]
fn one_search_reaches_the_target_for_all_clients_of_one_worker(
    rt: HostRuntime,
) -> Result<(), Fail> {
    // a dial, the look that hears that it is open, the search, and the look that hears its hits
    for (calls, is_enough) in [(4, true), (3, false)] {
        let case = Case {
            calls,
            ..ONE_WORKER
        };
        assert!(rt; is_so(&rt, rt.alloc(), &case)? == is_enough, "{calls}");
    }
    Ok(())
}

/// One worker with two clients.
const TWO_CLIENTS: Case = Case {
    clients: 2,
    served: 2,
    printed: b"served 2\n",
    ..ONE_WORKER
};

/// The smallest configuration, with records that are kept.
const KEEPING_TEXT: &[u8] = b"\
    cache = {records = 10}\n\
    target = [{name = \"alpha\", address = \"test:0\"}]\n\
    [[database]]\n\
    name = \"Default\"\n\
    leg = [{via = \"alpha\", databases = [\"Default\"]}]\n";

#[test]
fn a_record_is_given_to_the_next_client_without_its_target(rt: HostRuntime) -> Result<(), Fail> {
    // a dial, a search, and a Present with the look behind each; and a Present of the second client
    for (config, least) in [(SMALLEST_TEXT, 8u64), (KEEPING_TEXT, 6)] {
        for (calls, is_enough) in [(least, true), (least.saturating_sub(1), false)] {
            let case = Case {
                config,
                presents: true,
                calls,
                ..TWO_CLIENTS
            };
            assert!(rt; is_so(&rt, rt.alloc(), &case)? == is_enough, "{calls}");
        }
    }
    Ok(())
}

/// The moments behind the reads of a clock that serve the first of two clients, which are nine to its last turn
/// and less than fourteen to the first turn of the second; and how many calls of the target answer both. A
/// dial, a search, and the look behind each are four calls; a search and its look are two.
const MOMENTS: [(&[u64], u64); 5] = [
    (&[59], 4),
    (&[60], 6),
    (&[299], 6),
    (&[300], 8),
    (&[60, 0], 6),
];

#[test]
fn what_grew_old_between_two_clients_is_dialled_or_searched_again(
    rt: HostRuntime,
) -> Result<(), Fail> {
    for (others, least) in MOMENTS {
        for (calls, is_enough) in [(least, true), (least.saturating_sub(1), false)] {
            let case = Case {
                calls,
                moments: Moments {
                    first: (0, 12),
                    others,
                },
                ..TWO_CLIENTS
            };
            assert!(rt; is_so(&rt, rt.alloc(), &case)? == is_enough, "{others:?}");
        }
    }
    Ok(())
}
