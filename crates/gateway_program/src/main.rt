//! The program: the top call over the real files, output and targets.
#![tactic(auto)]

mod flags;
mod hints;
mod over_tests;
mod program;
mod serving;
#[cfg(test)]
mod tests;
mod words;

use std::process::ExitCode;
use tcp_edge::fill_standard_streams;

fn main(rt: HostRuntime) -> ExitCode {
    fill_standard_streams();
    program::run(&rt)
}
