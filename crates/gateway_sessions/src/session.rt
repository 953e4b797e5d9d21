//! One session: its files, and whether its replay prints its page.

use gateway_top::{Status, top};
use gw_memory::{MemoryFiles, MemorySink};
use std::alloc::Global;
use std::{fs, io, rt};
use test_target::TestWorld;
use test_wire::TestWire;
use z_types::{List, Memory, Text};

/// Whether the replay of the session in this folder prints its page.
pub(crate) fn has_its_page<R: rt::Files + AllocGlobal>(
    runtime: &R,
    folder: &str,
) -> io::Result<bool> {
    let alloc = runtime.alloc();
    let route = text_of(runtime, folder, "route.toml")?;
    let script = text_of(runtime, folder, "script")?;
    let page = text_of(runtime, folder, "page")?;
    let failing = failing_calls(runtime, folder)?;
    match prints(alloc, route, script, failing, page.as_slice()) {
        Ok(has_page) => Ok(has_page),
        Err(Memory) => Err(io::Error::from(io::ErrorKind::OutOfMemory)),
    }
}

/// The octets of a file in a folder.
fn text_of<R: rt::Files + AllocGlobal>(runtime: &R, folder: &str, name: &str) -> io::Result<Text> {
    let path = format!(in runtime.alloc(); "{folder}/{name}")?;
    Ok(Text::from_vec(fs::read(runtime, path.as_str())?))
}

/// The numbers of the wire's calls that fail in the session in a folder: the lines of its file `failing`,
/// where it has one.
fn failing_calls<R: rt::Files + AllocGlobal>(runtime: &R, folder: &str) -> io::Result<List<u64>> {
    let path = format!(in runtime.alloc(); "{folder}/failing")?;
    match fs::read_to_string(runtime, path.as_str()) {
        Ok(lines) => numbers(runtime.alloc(), &lines),
        Err(_) => Ok(List::new(runtime.alloc())),
    }
}

/// The numbers that lines are, one a line.
fn numbers(alloc: Global, lines: &str) -> io::Result<List<u64>> {
    let mut numbers = List::new(alloc);
    for line in lines.lines() {
        let Ok(number) = line.parse() else {
            return Err(io::Error::from(io::ErrorKind::InvalidData));
        };
        if numbers.push(number).is_err() {
            return Err(io::Error::from(io::ErrorKind::OutOfMemory));
        }
    }
    Ok(numbers)
}

/// Whether a replay over a wire of which these calls fail ends well, and prints this page and nothing else.
fn prints(
    alloc: Global,
    route: Text,
    script: Text,
    failing: List<u64>,
    page: &[u8],
) -> Result<bool, Memory> {
    let mut files = files(alloc, route, script)?;
    let words = [
        word(alloc, b"replay")?,
        word(alloc, b"route")?,
        word(alloc, b"script")?,
    ];
    let mut out = MemorySink::new(alloc, List::new(alloc));
    let mut wire = TestWire::failing(alloc, failing);
    let status = top::<TestWorld, _, _, _>(alloc, &words, &mut files, &mut out, &mut wire);
    Ok(status == Status::Ok && out.received() == page)
}

/// The files `route` and `script`.
fn files(alloc: Global, route: Text, script: Text) -> Result<MemoryFiles, Memory> {
    let mut files = List::new(alloc);
    files.push((word(alloc, b"route")?, route))?;
    files.push((word(alloc, b"script")?, script))?;
    Ok(MemoryFiles::new(files, List::new(alloc)))
}

/// A text of these octets.
fn word(alloc: Global, octets: &[u8]) -> Result<Text, Memory> {
    Text::copy_of(alloc, octets)
}
