//! The laws of orderly scripts, over targets in memory.

use crate::{gets_share, runs_share, scripts_share, units_share};
use gw_memory::FakeSession;
use std::test::Fail;
use test_target::TestWorld;

#[test]
fn the_laws_of_orderly_scripts_hold_over_targets_in_memory(_: HostRuntime) -> Result<(), Fail> {
    units_share::<TestWorld, FakeSession>();
    gets_share::<TestWorld, FakeSession>();
    runs_share::<TestWorld, FakeSession>();
    scripts_share::<TestWorld, FakeSession>();
    Ok(())
}
