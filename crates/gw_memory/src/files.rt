//! Files in memory.

ghost use Rattle.std.specs.Prelude.{◌≡◌, ◌≢◌, ◌≤◌, ℕ, List, Some};
ghost use Rattle.z_types.specs.Counts.{Rose, one_more};
ghost use Rattle.planned_calls.specs.Planned.{new_calls, after_call};
ghost use Rattle.gw_memory.specs.Planned.{read_fails, is_failed_read, IsPlannedRead};
ghost use Rattle.std.specs.Option.{option_copied};
ghost use Rattle.gw_outside.specs.Files.{FileFits};
ghost use Rattle.gw_memory.specs.Named.{file_named, octets_named};

use gw_outside::{FileGot, Files};
use planned_calls::Calls;
use std::alloc::Global;
use z_types::{List, Text, copy};

/// Files of stated names and octets.
#[derive(Drop)]
pub struct MemoryFiles {
    files: List<(Text, Text)>,
    calls: Calls,
    faults: u64,
    last_failed: Option<Text>,
}

impl MemoryFiles {
    /// These files, each a name and its octets, of which the first of a name counts. The read of any
    /// other name fails, and so do the reads of these numbers, counted from 1.
    pub fn new(files: List<(Text, Text)>, failing: List<u64>) -> MemoryFiles
        ensures contents { ⟦<MemoryFiles as Files>⟧.contents result ≡ octets_named files }
        ensures faults { ⟦<MemoryFiles as Files>⟧.faults result ≡ 0 }
        ensures calls { result.calls ≡ new_calls failing }
    {
        MemoryFiles {
            files,
            calls: Calls::new(failing),
            faults: 0,
            last_failed: None,
        }
    }
}

impl Files for MemoryFiles {
    ghost faults = { λ files. files.faults };

    ghost contents = { λ files. octets_named files.files };

    ghost last_failed = { λ files. files.last_failed };

    fn read_all(&mut self, _: Global, name: &Text, limit: usize) -> FileGot
        ensures fits { FileFits (octets_named self.old.files name.now) limit result }
        ensures failed { result ≡ FileGot.Failed → Rose self.old.faults self.new.faults }
        ensures named { result ≡ FileGot.Failed → self.new.last_failed ≡ Some name.now }
        ensures kept { result ≢ FileGot.Failed → self.new.last_failed ≡ self.old.last_failed }
        ensures contents { (other : List ℕ) →
            octets_named self.new.files other ≡ octets_named self.old.files other }
        ensures faults { self.old.faults ≤ self.new.faults }
        ensures planned { IsPlannedRead
            (read_fails self.old.calls (octets_named self.old.files name.now)) result }
        ensures counted { self.new ≡ record self.old {
          calls = after_call self.old.calls;
          faults = one_more (is_failed_read result) self.old.faults;
          last_failed = self.new.last_failed;
        } }
    {
        if !self.calls.next_fails() {
            if let Some(file) = file_named(self.files.as_slice(), name) {
                return read_limited(&file.1, limit);
            }
        }
        let Ok(name) = copy(name) else {
            return FileGot::Memory;
        };
        self.last_failed = Some(name);
        self.faults = self.faults.saturating_add(1);
        FileGot::Failed
    }
}

/// The file of a name.
fn file_named<'a>(files: &'a [(Text, Text)], name: &Text) -> Option<&'a (Text, Text)>
    ensures { option_copied result ≡ file_named files.now name.now }
{
    files.iter().find(|file| file.0 == *name)
}

/// A file of these octets, read up to a limit.
fn read_limited(octets: &Text, limit: usize) -> FileGot
    ensures fits { FileFits (Some octets.now) limit result }
    ensures read { result ≢ FileGot.Failed }
{
    if limit < octets.len() {
        return FileGot::Longer;
    }
    match copy(octets) {
        Ok(octets) => FileGot::Whole(octets),
        Err(_) => FileGot::Memory,
    }
}
