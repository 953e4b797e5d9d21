//! The files of the system. No octets are told of them: what a file gives is taken as it comes.

ghost use Rattle.std.specs.Prelude.{◌≡◌, ◌≢◌, ◌≤◌, None, IfSome, IfOk};
ghost use Rattle.z_types.specs.Counts.{Rose};
ghost use Rattle.gw_outside.specs.Files.{FileFits};

use crate::descriptors::OpenedFile;
use gw_outside::{FileGot, Files};
use std::alloc::Global;
use std::io::{Error, ErrorKind, Read, Result};
use std::{fs, rt, str};
use z_types::{Memory, Text, copy};

/// Files by their names, over a runtime. The first that gave its octets is kept, so that a configuration is
/// read once, though it is needed twice and may come from a pipe.
#[derive(Drop)]
pub struct SystemFiles<'a, R: rt::Files> {
    runtime: &'a R,
    faults: u64,
    kept: Option<Kept>,
    reason: Option<Error>,
}

/// A file that was read whole: its name and its octets.
#[derive(Drop)]
struct Kept {
    name: Text,
    text: Text,
}

impl<'a, R: rt::Files> SystemFiles<'a, R> {
    /// The files of this runtime, of which none was read yet.
    pub fn new(runtime: &'a R) -> SystemFiles<'a, R>
        ensures { result.faults ≡ 0 }
    {
        SystemFiles {
            runtime,
            faults: 0,
            kept: None,
            reason: None,
        }
    }

    /// The octets of the first file that was read whole, unless there was no memory to keep them.
    pub fn first_text(&self) -> Option<&[u8]> {
        match &self.kept {
            Some(kept) => Some(kept.text.as_slice()),
            None => None,
        }
    }

    /// Why the last read failed, if one did.
    pub fn reason(&self) -> Option<&Error> {
        self.reason.as_ref()
    }

    /// What is kept of the file of a name, within a limit.
    fn kept_of(&self, name: &Text, limit: usize) -> Option<FileGot>
        ensures fits { IfSome result (FileFits None limit) }
        ensures read { IfSome result (λ got. got ≢ FileGot.Failed) }
    {
        match &self.kept {
            Some(kept) if kept.name == *name => match copy(&kept.text) {
                Ok(text) => Some(within(text, limit)),
                Err(Memory) => Some(FileGot::Memory),
            },
            _ => None,
        }
    }

    /// Keeps what the first file gave, where there is memory.
    fn keep(&mut self, name: &Text, got: &FileGot)
        ensures faults { self.new.faults ≡ self.old.faults }
    {
        if self.kept.is_none() {
            self.kept = kept_from(name, got);
        }
    }

    /// One fault more, with its reason.
    fn count_fault(&mut self, reason: Error) -> FileGot
        ensures failed { result ≡ FileGot.Failed }
        ensures counted { Rose self.old.faults self.new.faults }
        ensures rising { self.old.faults ≤ self.new.faults }
    {
        self.faults = self.faults.saturating_add(1);
        self.reason = Some(reason);
        FileGot::Failed
    }
}

impl<R: rt::Files> Files for SystemFiles<'_, R> {
    ghost faults = { λ files. files.faults };

    ghost contents = { λ files name. None };

    ghost last_failed = { λ files. None };

    fn read_all(&mut self, alloc: Global, name: &Text, limit: usize) -> FileGot {
        if let Some(got) = self.kept_of(name, limit) {
            return got;
        }
        match read_named(alloc, self.runtime, name.as_slice(), limit) {
            Ok(got) => {
                self.keep(name, &got);
                got
            }
            Err(reason) => self.count_fault(reason),
        }
    }
}

/// A copy of the name and the octets of a file that was read whole.
fn kept_from(name: &Text, got: &FileGot) -> Option<Kept> {
    match got {
        FileGot::Whole(text) => Some(Kept {
            name: copy(name).ok()?,
            text: copy(text).ok()?,
        }),
        FileGot::Longer | FileGot::Failed | FileGot::Memory => None,
    }
}

/// What the file of a name gave, or why it could not be read. The standard library's paths are UTF-8, so a
/// name that is not is opened beside it.
fn read_named<R: rt::Files>(
    alloc: Global,
    runtime: &R,
    name: &[u8],
    limit: usize,
) -> Result<FileGot>
    ensures fits { IfOk result (FileFits None limit) }
    ensures read { IfOk result (λ got. got ≢ FileGot.Failed) }
{
    match str::from_utf8(name) {
        Ok(path) => read_limited(alloc, fs::open(runtime, path)?, limit),
        Err(_) => read_limited(alloc, OpenedFile::open(name)?, limit),
    }
}

/// All that a stream gives, unless it is more than the limit, or why a read failed.
fn read_limited<S: Read + Drop>(alloc: Global, stream: S, limit: usize) -> Result<FileGot>
    ensures fits { IfOk result (FileFits None limit) }
    ensures read { IfOk result (λ got. got ≢ FileGot.Failed) }
{
    let mut bytes = Vec::new(alloc);
    match stream
        .take((limit as u64).saturating_add(1))
        .read_to_end(&mut bytes)
    {
        Ok(_) => Ok(within(Text::from_vec(bytes), limit)),
        Err(error) if error.kind() == ErrorKind::OutOfMemory => Ok(FileGot::Memory),
        Err(error) => Err(error),
    }
}

/// A file of these octets, unless they are more than the limit.
fn within(text: Text, limit: usize) -> FileGot
    ensures fits { FileFits None limit result }
    ensures read { result ≢ FileGot.Failed }
{
    if text.len() <= limit {
        FileGot::Whole(text)
    } else {
        FileGot::Longer
    }
}
