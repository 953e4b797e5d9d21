//! Sessions as files: each folder beside the program has a route, a script and the page that a replay of
//! them prints. The program replays all, prints the name of each that printed another page, and how many
//! printed their own.
#![tactic(auto)]

mod session;

use std::fs::{DirEntry, read_dir};
use std::io;

fn main(rt: HostRuntime) -> io::Result<()> {
    let mut right = 0u64;
    for entry in read_dir(&rt, ".")? {
        if is_right(&rt, &entry?)? {
            right = right.saturating_add(1);
        }
    }
    println!(rt; "{right} sessions have their pages")
}

/// Whether an entry is a session whose replay prints its page; of a session that is not, the name is
/// printed.
fn is_right(runtime: &HostRuntime, entry: &DirEntry<HostRuntime>) -> io::Result<bool> {
    if !entry.file_type()?.is_dir() {
        return Ok(false);
    }
    let is_right = session::has_its_page(runtime, entry.file_name())?;
    if !is_right {
        println!(runtime; "{name}", name = entry.file_name())?;
    }
    Ok(is_right)
}
