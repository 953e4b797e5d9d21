//! The table of sets, step by step.

ghost use Rattle.std.specs.Prelude.{◌<◌};

use self::Step::{Entry, Expire, Find, FindElsewhere, Forget, Holds, Max, Room, Search};
use crate::sessions::key_for;
use pool_sets::{SetTable, full_exactly, out_once, put_is_reused};
use std::alloc::Global;
use std::test::Fail;
use z_types::{Memory, SetKey, Text};

/// What happens at a table, and what comes of it. Sets are named by the numbers that were searched for.
#[derive(Clone, Copy)]
enum Step {
    /// Room is made for the set of a search, and it is recorded at a moment, with three hits.
    Search(i64, u64),
    /// The slot that holds a set, which is no use of it.
    Holds(i64, Option<u32>),
    /// The slot and the hits of a set, which is used at a moment.
    Find(i64, u64, Option<(u32, u32)>),
    /// The same of a set of another database.
    FindElsewhere(i64, u64, Option<(u32, u32)>),
    /// The slot for the next set.
    Room(u32),
    /// The last use of the set at a place.
    Entry(u32, Option<u64>),
    /// Sets expire 60 seconds after their last use, at a moment, and so many are left.
    Expire(u64, u32),
    /// The set of a slot is forgotten.
    Forget(u32),
    /// How many sets there may be.
    Max(u32),
}

/// The key of a search for a number in one database.
fn key_elsewhere(alloc: Global, number: i64) -> Result<SetKey, Memory> {
    let mut key = key_for(alloc, number)?;
    key.dbs.push(Text::copy_of(alloc, b"E")?)?;
    Ok(key)
}

/// Makes room for the set of a search for a number and records it, with three hits.
fn search(alloc: Global, table: &mut SetTable, number: i64, now: u64) -> Result<bool, Memory> {
    let key = key_for(alloc, number)?;
    let slot = table.room();
    table.record_(slot, key, 3, now)?;
    Ok(true)
}

/// Whether a step goes so.
fn goes(alloc: Global, table: &mut SetTable, step: Step) -> Result<bool, Memory> {
    match step {
        Search(number, now) => search(alloc, table, number, now),
        Holds(number, slot) => Ok(table.holds(&key_for(alloc, number)?) == slot),
        Find(number, now, found) => Ok(table.find(&key_for(alloc, number)?, now) == found),
        FindElsewhere(number, now, found) => {
            Ok(table.find(&key_elsewhere(alloc, number)?, now) == found)
        }
        Room(slot) => Ok(table.room() == slot),
        Entry(place, used) => Ok(table.entry(place).map(|(_, used)| used) == used),
        Expire(now, left) => {
            table.expire(now, 60);
            Ok(table.len() == left)
        }
        Forget(slot) => {
            table.forget(slot);
            Ok(true)
        }
        Max(max) => Ok(table.max() == max),
    }
}

/// The place of the first step that goes otherwise, counted from 0.
fn first_other(
    alloc: Global,
    table: &mut SetTable,
    steps: &[Step],
) -> Result<Option<usize>, Memory> {
    for (place, step) in steps.iter().enumerate() {
        if !goes(alloc, table, *step)? {
            return Ok(Some(place));
        }
    }
    Ok(None)
}

/// The same at a table of that many sets, which holds none.
fn first_other_of(alloc: Global, max: u32, steps: &[Step]) -> Result<Option<usize>, Memory>
    requires { 0 < max }
{
    let mut table = SetTable::new(alloc, max)?;
    first_other(alloc, &mut table, steps)
}

/// Room for a second set in a table of one forgets the first.
const ONE: &[Step] = &[
    Search(3, 5),
    Holds(3, Some(0)),
    Room(0),
    Holds(3, None),
    Max(1),
];

/// The least recently used set goes first: a look at a slot is no use, and a set of other databases is
/// another.
const TWO: &[Step] = &[
    Search(3, 5),
    Search(4, 6),
    FindElsewhere(3, 7, None),
    Holds(3, Some(0)),
    Find(3, 7, Some((0, 3))),
    Entry(0, Some(7)),
    Entry(1, Some(6)),
    Entry(2, None),
    Room(1),
];

/// A set expires at its time to live from the greatest moment, and the least free slot is next.
const THREE: &[Step] = &[
    Search(3, 100),
    Search(4, 40),
    Expire(159, 2),
    Expire(0, 2),
    Expire(160, 0),
    Forget(0),
    Room(0),
];

#[test]
fn each_step_goes_as_it_was_worked_out(rt: HostRuntime) -> Result<(), Fail> {
    assert_eq!(rt; first_other_of(rt.alloc(), 1, ONE)?, None);
    assert_eq!(rt; first_other_of(rt.alloc(), 2, TWO)?, None);
    assert_eq!(rt; first_other_of(rt.alloc(), 3, THREE)?, None);
    Ok(())
}

#[test]
fn the_laws_of_plain_pools_hold_of_any_session(_: HostRuntime) {
    put_is_reused::<u32>();
    full_exactly::<u32>();
    out_once::<u32>();
}
