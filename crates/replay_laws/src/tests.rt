//! The laws of replays, over targets in memory.

use crate::{
    borne_is_plain, borne_is_plain_or_full, quiet_disturbs_nobody, sums_leave_marks,
    uncaused_request_is_plain,
};
use gw_memory::FakeSession;
use replay::{read_twice, uncaused_is_plain};
use std::test::Fail;
use test_target::TestWorld;

#[test]
fn the_laws_of_replays_hold_over_targets_in_memory(_: HostRuntime) -> Result<(), Fail> {
    quiet_disturbs_nobody::<TestWorld, FakeSession>();
    borne_is_plain_or_full::<TestWorld, FakeSession>();
    borne_is_plain::<TestWorld, FakeSession>();
    sums_leave_marks::<TestWorld>();
    uncaused_request_is_plain::<TestWorld, FakeSession>();
    uncaused_is_plain::<TestWorld, FakeSession>();
    read_twice::<TestWorld>();
    Ok(())
}
