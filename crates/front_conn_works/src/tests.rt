//! The laws of what connections begin, over targets in memory.

use crate::{
    begins_none, begun_is_one, ended_is_whole, goes_begin, lacking_begins_none, last_is_in_work,
    marks_decide, rests_then_begins, runs_begin, stays_begun, steps_begin,
};
use gw_memory::FakeSession;
use std::test::Fail;
use test_target::TestWorld;

#[test]
fn the_laws_of_what_is_begun_hold_over_targets_in_memory(_: HostRuntime) -> Result<(), Fail> {
    marks_decide::<TestWorld>();
    begun_is_one::<TestWorld, FakeSession>();
    begins_none::<TestWorld, FakeSession>();
    steps_begin::<TestWorld, FakeSession>();
    lacking_begins_none::<TestWorld, FakeSession>();
    last_is_in_work::<TestWorld, FakeSession>();
    ended_is_whole::<TestWorld, FakeSession>();
    stays_begun::<TestWorld, FakeSession>();
    goes_begin::<TestWorld, FakeSession>();
    rests_then_begins::<TestWorld, FakeSession>();
    runs_begin::<TestWorld, FakeSession>();
    Ok(())
}
