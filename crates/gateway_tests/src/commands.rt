//! The commands over files and a sink in memory: how each ends, and what it prints. Whole sessions
//! stand as files in `gateway_sessions`.

use gateway_top::{Status, command};
use gw_memory::{MemoryFiles, MemorySink};
use route_config::SMALLEST_TEXT;
use std::alloc::Global;
use std::test::Fail;
use test_target::TestWorld;
use test_wire::TestWire;
use z_types::{List, Memory, Text};

/// A command: its words, the files `c` and `s`, the numbers of the read and of the write that fail, 0
/// for none, how it ends, and what it prints.
#[derive(Clone, Copy)]
struct Case<'a> {
    words: &'a [&'a str],
    config: &'a [u8],
    script: &'a [u8],
    failing_read: u64,
    failing_write: u64,
    status: Status,
    printed: &'a [u8],
}

/// A script that feeds client 1 an Init, and its page.
const INIT: &[u8] = b"feed 1 b413830205e0840301fffe85031000008603100000\n";

const INIT_PAGE: &[u8] = b"client 1\n\
    bytes \
    b529830205e0840301c102850310000086031000008c01ff9f6e026d709f6f07676174657761799f700131\n\
    marks Plain\n\
    end Finished\n\
    class alpha dials 0 searches 0 gones 0 faults 0\n\
    clients 1 requests 1\n";

/// A route with two databases.
const TWO_DATABASES: &[u8] = b"[[target]]\n\
    name = \"near\"\n\
    address = \"test:0\"\n\
    [[target]]\n\
    name = \"other\"\n\
    address = \"test:5\"\n\
    [[group]]\n\
    name = \"pair\"\n\
    targets = [\"near\", \"other\"]\n\
    [[database]]\n\
    name = \"One\"\n\
    [[database.leg]]\n\
    via = \"pair\"\n\
    databases = [\"Default\"]\n\
    [[database]]\n\
    name = \"Two\"\n\
    [[database.leg]]\n\
    via = \"pair\"\n\
    databases = [\"Default\"]\n\
    [[database.leg]]\n\
    via = \"other\"\n\
    databases = [\"Default\"]\n";

/// A target over TCP.
const REAL_TARGET: &[u8] = b"[[target]]\n\
    name = \"far\"\n\
    address = \"tcp:localhost:9999\"\n\
    [[database]]\n\
    name = \"Default\"\n\
    [[database.leg]]\n\
    via = \"far\"\n\
    databases = [\"Default\"]\n";

/// A replay of an Init by the smallest configuration, where nothing fails.
const SOUND: Case = Case {
    words: &["replay", "c", "s"],
    config: SMALLEST_TEXT,
    script: INIT,
    failing_read: 0,
    failing_write: 0,
    status: Status::Ok,
    printed: INIT_PAGE,
};

/// The list of one number.
fn numbers(alloc: Global, number: u64) -> Result<List<u64>, Memory> {
    let mut list = List::new(alloc);
    list.push(number)?;
    Ok(list)
}

/// The files of a case.
fn files(alloc: Global, case: &Case) -> Result<MemoryFiles, Memory> {
    let mut files = List::new(alloc);
    files.push((
        Text::copy_of(alloc, b"c")?,
        Text::copy_of(alloc, case.config)?,
    ))?;
    files.push((
        Text::copy_of(alloc, b"s")?,
        Text::copy_of(alloc, case.script)?,
    ))?;
    Ok(MemoryFiles::new(files, numbers(alloc, case.failing_read)?))
}

/// The words of a line.
fn texts(alloc: Global, line: &[&str]) -> Result<Vec<Text>, Memory> {
    let mut words = Vec::new(alloc);
    for word in line {
        words.push(Text::copy_of(alloc, word.as_bytes())?)?;
    }
    Ok(words)
}

/// Whether a command over these files ends and prints as its case has it.
fn ends_over(
    alloc: Global,
    case: &Case,
    words: &[Text],
    files: &mut MemoryFiles,
) -> Result<bool, Memory> {
    let mut out = MemorySink::taking(alloc, 1, numbers(alloc, case.failing_write)?);
    let mut wire = TestWire::new(alloc);
    let status = command::<TestWorld, _, _, _>(alloc, words, files, &mut out, &mut wire);
    Ok(status == case.status && out.received() == case.printed)
}

/// Whether a command ends and prints as its case has it.
fn is_so(alloc: Global, case: &Case) -> Result<bool, Memory> {
    let words = texts(alloc, case.words)?;
    let mut files = files(alloc, case)?;
    ends_over(alloc, case, words.as_slice(), &mut files)
}

/// What the program tells of itself.
const HELP: &[u8] = b"Zaklumen, a gateway for Z39.50 and SRU.\n\n\
check CONFIG               reads a configuration, and prints how many databases and classes it has\n\
replay CONFIG SCRIPT       plays what a script says of clients, time and targets, and prints what clients are answered\n\
load N                     plays N clients of four requests each, and prints how many octets, searches and links that took\n\
serve CONFIG PORT WORKERS  serves clients at a port of this machine, as many at once as there are workers (1 to 64)\n\
events CONFIG PORT MOST    serves clients on one thread, as many at once as MOST says (1 to 1000)\n\
serve .. --listen ADDRESS  the same, at another address of this machine than 127.0.0.1\n\
serve .. --quiet           the same, and logs no connection that begins or ends\n\
--help                     prints this\n\
--version                  prints the version\n";

const USAGE: &[u8] =
    b"usage: check CONFIG | replay CONFIG SCRIPT | load N | serve CONFIG PORT WORKERS | events CONFIG PORT MOST\n";

/// What a load without clients prints.
const NO_CLIENTS: &[u8] = b"load clients 0 requests 0 plain 0 bytes 0 searches 0 dials 0\n";

/// Words, how they end, and what they print.
const WORDS: [(&[&str], Status, &[u8]); 23] = [
    (&["--help"], Status::Ok, HELP),
    (&["--version"], Status::Ok, b"zaklumen 0.1.0\n"),
    (&["--version", "--version"], Status::Words, USAGE),
    (&[], Status::Words, USAGE),
    (&["replay"], Status::Words, USAGE),
    (&["replay", "c"], Status::Words, USAGE),
    (&["replay", "c", "s", "s"], Status::Words, USAGE),
    (&["Replay", "c", "s"], Status::Words, USAGE),
    (&["", "c", "s"], Status::Words, USAGE),
    (&["check"], Status::Words, USAGE),
    (&["check", "c", "s"], Status::Words, USAGE),
    (&["Check", "c"], Status::Words, USAGE),
    (&["load", "0"], Status::Ok, NO_CLIENTS),
    (
        &["load", "12"],
        Status::Ok,
        b"load clients 12 requests 48 plain 48 bytes 1500 searches 5 dials 1\n",
    ),
    (&["load"], Status::Words, USAGE),
    (&["load", "1", "1"], Status::Words, USAGE),
    (&["Load", "1"], Status::Words, USAGE),
    (&["load", ""], Status::Words, USAGE),
    (&["load", "00"], Status::Words, USAGE),
    (&["load", "010"], Status::Words, USAGE),
    (&["load", "10001"], Status::Words, USAGE),
    (&["load", "4294967297"], Status::Words, USAGE),
    (&["serve", "c", "9999", "1"], Status::Words, USAGE),
];

#[test]
fn words_are_a_command_or_are_told_the_usage(rt: HostRuntime) -> Result<(), Fail> {
    for (words, status, printed) in WORDS {
        assert!(rt;
            is_so(
                rt.alloc(),
                &Case {
                    words,
                    status,
                    printed,
                    ..SOUND
                }
            )?,
            "{words:?}"
        );
    }
    Ok(())
}

#[test]
fn a_thousand_clients_share_five_sets_over_one_link(rt: HostRuntime) -> Result<(), Fail> {
    let thousand = Case {
        words: &["load", "1000"],
        printed: b"load clients 1000 requests 4000 plain 4000 bytes 125000 searches 5 dials 1\n",
        ..SOUND
    };
    assert!(rt; is_so(rt.alloc(), &thousand)?);
    Ok(())
}

/// Files that are taken or refused, each told by its first fault.
const FILES: [Case; 15] = [
    SOUND,
    Case {
        words: &["check", "c"],
        status: Status::Ok,
        printed: b"ok databases 1 classes 1\n",
        ..SOUND
    },
    Case {
        words: &["check", "c"],
        config: TWO_DATABASES,
        status: Status::Ok,
        printed: b"ok databases 2 classes 2\n",
        ..SOUND
    },
    // the address of a target is not asked by a check, and none but a test target by a replay
    Case {
        words: &["check", "c"],
        config: REAL_TARGET,
        status: Status::Ok,
        printed: b"ok databases 1 classes 1\n",
        ..SOUND
    },
    Case {
        config: REAL_TARGET,
        script: b"x",
        status: Status::RealTarget,
        printed: b"real target far\n",
        ..SOUND
    },
    Case {
        words: &["check", "c"],
        config: b"[[target]]\n",
        status: Status::Config,
        printed: b"config 2 target[0].name\n",
        ..SOUND
    },
    Case {
        words: &["check", "d"],
        status: Status::ReadFault,
        printed: b"read fault d\n",
        ..SOUND
    },
    Case {
        words: &["replay", "s", "s"],
        script: b"x",
        status: Status::Config,
        printed: b"config 1 toml\n",
        ..SOUND
    },
    Case {
        script: b"feed 1 b",
        status: Status::Script,
        printed: b"script line 1\n",
        ..SOUND
    },
    Case {
        script: b"#\nfeed 2 b4\nfeed 2 b4\nend 2\nfeed 2 b4",
        status: Status::Script,
        printed: b"script line 5\n",
        ..SOUND
    },
    // a script may name the targets of its route alone
    Case {
        script: b"cut alpha\ncut beta",
        status: Status::Script,
        printed: b"script line 2\n",
        ..SOUND
    },
    Case {
        words: &["replay", "d", "s"],
        status: Status::ReadFault,
        printed: b"read fault d\n",
        ..SOUND
    },
    Case {
        words: &["replay", "c", "d"],
        status: Status::ReadFault,
        printed: b"read fault d\n",
        ..SOUND
    },
    // each read that fails is told by the name of its file
    Case {
        failing_read: 1,
        status: Status::ReadFault,
        printed: b"read fault c\n",
        ..SOUND
    },
    Case {
        failing_read: 2,
        status: Status::ReadFault,
        printed: b"read fault s\n",
        ..SOUND
    },
];

#[test]
fn files_are_taken_or_told_by_their_first_fault(rt: HostRuntime) -> Result<(), Fail> {
    for case in FILES {
        assert!(rt;
            is_so(rt.alloc(), &case)?,
            "{words:?} {printed:?}",
            words = case.words,
            printed = case.printed
        );
    }
    Ok(())
}

/// Whether each write that fails leaves a front of what the case prints, and ends so.
fn are_fronts(alloc: Global, case: &Case, status: Status) -> Result<bool, Memory> {
    for written in 0..case.printed.len() {
        let failing = Case {
            failing_write: written as u64 + 1,
            status,
            printed: &case.printed[..written],
            ..*case
        };
        if !is_so(alloc, &failing)? {
            return Ok(false);
        }
    }
    Ok(true)
}

#[test]
fn a_front_is_printed_up_to_the_write_that_fails(rt: HostRuntime) -> Result<(), Fail> {
    assert!(rt; are_fronts(rt.alloc(), &SOUND, Status::WriteFault)?);
    let refused = Case {
        script: b"x",
        printed: b"script line 1\n",
        ..SOUND
    };
    assert!(rt; are_fronts(rt.alloc(), &refused, Status::Script)?);
    let loaded = Case {
        words: &["load", "0"],
        printed: NO_CLIENTS,
        ..SOUND
    };
    assert!(rt; are_fronts(rt.alloc(), &loaded, Status::WriteFault)?);
    Ok(())
}

/// A text with a comment behind it, up to this length.
fn with_comment(alloc: Global, text: &[u8], length: usize) -> Result<Text, Memory> {
    let mut long = Vec::new(alloc);
    long.extend_from_slice(text)?;
    long.resize(length.max(text.len()), b'#')?;
    Ok(Text::from_vec(long))
}

/// Whether a replay of files with comments up to these lengths ends so, and prints this.
fn ends_at_lengths(
    alloc: Global,
    lengths: (usize, usize),
    status: Status,
    printed: &[u8],
) -> Result<bool, Memory> {
    let config = with_comment(alloc, SMALLEST_TEXT, lengths.0)?;
    let script = with_comment(alloc, b"", lengths.1)?;
    let case = Case {
        words: &["replay", "c", "s"],
        config: config.as_slice(),
        script: script.as_slice(),
        failing_read: 0,
        failing_write: 0,
        status,
        printed,
    };
    is_so(alloc, &case)
}

/// The page of a script without events, by the smallest route.
const NOBODY_PAGE: &[u8] =
    b"class alpha dials 0 searches 0 gones 0 faults 0\nclients 0 requests 0\n";

/// The lengths of a configuration and of a script, how their replay ends, and what it prints.
const LENGTHS: [((usize, usize), Status, &[u8]); 3] = [
    ((262_145, 0), Status::Config, b"config 7 bytes 262145\n"),
    ((0, 16_777_217), Status::Script, b"script line 0\n"),
    ((262_144, 16_777_216), Status::Ok, NOBODY_PAGE),
];

#[test]
fn a_file_over_its_limit_is_refused_without_its_octets(rt: HostRuntime) -> Result<(), Fail> {
    for (lengths, status, printed) in LENGTHS {
        assert!(rt;
            ends_at_lengths(rt.alloc(), lengths, status, printed)?,
            "{lengths:?}"
        );
    }
    Ok(())
}

#[test]
fn each_status_has_its_number(rt: HostRuntime) {
    let numbers = [
        Status::Ok.number(),
        Status::Words.number(),
        Status::Config.number(),
        Status::Script.number(),
        Status::ReadFault.number(),
        Status::WriteFault.number(),
        Status::Memory.number(),
        Status::RealTarget.number(),
    ];
    assert_eq!(rt; numbers, [0, 2, 3, 4, 5, 6, 7, 9]);
}
