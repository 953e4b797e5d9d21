//! The program over the real files, output and targets.

use crate::hints::{help, warn_of_schemas};
use crate::over_tests::command_over_tests;
use crate::serving::{events_here, serve_here};
use crate::words::words;
use gateway_config::Status;
use std::alloc::Global;
use std::net::{Net, TcpListener, TcpStream};
use std::process::ExitCode;
use std::random::RandomSource;
use std::sync::Wait;
use std::thread::Threads;
use std::{io, rt, time};
use tcp_edge::{SystemFiles, WriterSink};
use z_types::{Memory, Text};

/// Does what the words after the program's name say, and answers the exit status.
pub(crate) fn run<
    R: rt::Env
        + rt::Files
        + Print
        + Eprint
        + AllocGlobal
        + Net<Listener = TcpListener, Stream = TcpStream>
        + time::Clock
        + RandomSource
        + Threads
        + Wait
        + Sync,
>(runtime: &R) -> ExitCode {
    let alloc = runtime.alloc();
    let status = match words(alloc, runtime) {
        Ok(words) if is_first(words.as_slice(), b"serve") => {
            serve_here(runtime, alloc, words.as_slice()).number()
        }
        Ok(words) if is_first(words.as_slice(), b"events") => {
            events_here(runtime, alloc, words.as_slice()).number()
        }
        Ok(words) => do_command(runtime, alloc, words.as_slice()),
        Err(Memory) => Status::Memory.number(),
    };
    ExitCode::from(status)
}

/// Does one command but `serve` and `events`, with the system's files and output and links to the built-in test
/// targets, and answers the exit status.
fn do_command<R: rt::Files + Print + Eprint>(runtime: &R, alloc: Global, words: &[Text]) -> u8 {
    let mut files = SystemFiles::new(runtime);
    let mut output = WriterSink::new(io::writer(runtime));
    let status = command_over_tests(alloc, words, &mut files, &mut output);
    if status == Status::Ok && is_first(words, b"check") {
        warn_of_schemas(runtime, alloc, &files);
    }
    help(runtime, alloc, &files, status);
    status.number()
}

/// Whether this is the first word.
fn is_first(words: &[Text], wanted: &[u8]) -> bool {
    match words {
        [word, ..] => word.as_slice() == wanted,
        [] => false,
    }
}
