//! The commands over the system's files and output, and the words that the system hands on.

use crate::flags::{Flags, flags_of};
use crate::words::words;
use gateway_top::{Status, command};
use gw_memory::MemorySink;
use std::alloc::Global;
use std::env::FillError;
use std::fs::OpenOptions;
use std::net::{IpAddr, Ipv4Addr, Ipv6Addr};
use std::rt::Env;
use std::test::Fail;
use tcp_edge::test_wire::TestWire;
use tcp_edge::{SystemFiles, WriterSink};
use test_target::TestWorld;
use z_types::{List, Memory, Text};

/// The words of a line.
fn texts(alloc: Global, line: &[&str]) -> Result<Vec<Text>, Memory> {
    let mut words = Vec::new(alloc);
    for word in line {
        words.push(Text::copy_of(alloc, word.as_bytes())?)?;
    }
    Ok(words)
}

/// Whether words, over the system's files, end so and print this.
fn ends_at_the_system(
    runtime: &HostRuntime,
    line: &[&str],
    wanted: Status,
    printed: &[u8],
) -> Result<bool, Memory> {
    let alloc = runtime.alloc();
    let words = texts(alloc, line)?;
    let mut files = SystemFiles::new(runtime);
    let mut out = MemorySink::new(alloc, List::new(alloc));
    let mut wire = TestWire::new(alloc);
    let status = command::<TestWorld, _, _, _>(
        alloc,
        words.as_slice(),
        &mut files,
        &mut out,
        &mut wire,
    );
    Ok(status == wanted && out.received() == printed)
}

/// The words of a command, how it ends, and what it prints: of a file that is missing, a folder, one
/// without an end, and an empty one.
const FILES: [(&[&str], Status, &[u8]); 4] = [
    (
        &["replay", "/no/such/file", "s"],
        Status::ReadFault,
        b"read fault /no/such/file\n",
    ),
    (&["replay", "/", "s"], Status::ReadFault, b"read fault /\n"),
    (
        &["replay", "/dev/zero", "s"],
        Status::Config,
        b"config 7 bytes 262145\n",
    ),
    (
        &["replay", "/dev/null", "s"],
        Status::Config,
        b"config 2 target\n",
    ),
];

#[test]
fn files_of_the_system_are_read_or_told(rt: HostRuntime) -> Result<(), Fail> {
    for (line, status, printed) in FILES {
        assert!(rt; ends_at_the_system(&rt, line, status, printed)?, "{line:?}");
    }
    Ok(())
}

/// How words end where the output takes nothing.
fn status_at_a_full_output(runtime: &HostRuntime, line: &[&str]) -> Result<Status, Fail> {
    let full = OpenOptions::new().write(true).open(runtime, "/dev/full")?;
    let words = texts(runtime.alloc(), line)?;
    let mut files = SystemFiles::new(runtime);
    let mut out = WriterSink::new(full);
    let alloc = runtime.alloc();
    let mut wire = TestWire::new(alloc);
    Ok(command::<TestWorld, _, _, _>(alloc, words.as_slice(), &mut files, &mut out, &mut wire))
}

#[test]
fn an_output_that_fails_is_a_fault_unless_a_refusal_came_first(
    rt: HostRuntime,
) -> Result<(), Fail> {
    for (line, wanted) in [
        (["--version"].as_slice(), Status::WriteFault),
        (&["--no-such-flag"], Status::Words),
    ] {
        assert_eq!(rt; status_at_a_full_output(&rt, line)?, wanted);
    }
    Ok(())
}

/// The words that a program was started with, its name among them.
#[derive(Drop)]
struct FakeEnvironment<'a> {
    words: &'a [&'a [u8]],
}

impl Env for FakeEnvironment<'_> {
    fn arg(&self, place: usize, into: &mut [u8]) -> Result<usize, FillError> {
        match self.words.get(place) {
            None => Err(FillError::NotPresent),
            Some(word) if word.len() > into.len() => Err(FillError::TooLong),
            Some(word) => {
                into[..word.len()].copy_from_slice(word);
                Ok(word.len())
            }
        }
    }

    fn var(&self, _: &str, _: &mut [u8]) -> Result<usize, FillError> {
        Err(FillError::NotPresent)
    }

    fn var_at(&self, _: usize, _: &mut [u8]) -> Result<usize, FillError> {
        Err(FillError::NotPresent)
    }
}

/// Whether the words of a program that is started so are all but the first.
fn are_handed_on(alloc: Global, started: &[&[u8]]) -> Result<bool, Memory> {
    let handed = words(alloc, &FakeEnvironment { words: started })?;
    let wanted = started.get(1..).unwrap_or(&[]);
    Ok(
        handed.len() == wanted.len()
            && handed
                .as_slice()
                .iter()
                .zip(wanted)
                .all(|(word, as_started)| word.as_slice() == *as_started),
    )
}

#[test]
fn each_word_is_handed_on_as_it_stands(rt: HostRuntime) -> Result<(), Fail> {
    let started: [&[u8]; 5] = [b"gateway", b"", b"\xff\xfe", &[b'a'; 300], b"s"];
    assert!(rt; are_handed_on(rt.alloc(), &started)?);
    Ok(())
}

/// Words behind the name of a command, how many of them are no flags, and what the flags say.
const FLAGS: [(&[&str], usize, Option<IpAddr>, bool); 9] = [
    (&[], 0, None, false),
    (&["8"], 1, None, false),
    (&["8", "--quiet"], 1, None, true),
    (&["8", "--listen", "0.0.0.0"], 1, Some(ANY), false),
    (&["8", "--listen", "::", "--quiet"], 1, Some(ANY_6), true),
    (&["8", "--quiet", "--listen", "0.0.0.0"], 1, Some(ANY), true),
    (&["--quiet", "--quiet"], 1, None, true),
    (&["--listen", "::", "--listen", "::"], 2, Some(ANY_6), false),
    (&["--listen", "here", "--quiet"], 2, None, true),
];

/// All addresses of this machine.
const ANY: IpAddr = IpAddr::V4(Ipv4Addr::UNSPECIFIED);

/// The same, of IPv6.
const ANY_6: IpAddr = IpAddr::V6(Ipv6Addr::UNSPECIFIED);

#[test]
fn flags_stand_behind_the_words_each_once(rt: HostRuntime) -> Result<(), Fail> {
    for (line, count, listen, quiet) in FLAGS {
        let words = texts(rt.alloc(), line)?;
        let (others, told) = flags_of(words.as_slice());
        assert!(rt;
            others.len() == count && told == Flags { listen, quiet },
            "{line:?}"
        );
    }
    Ok(())
}
