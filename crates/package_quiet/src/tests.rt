//! The laws of what goes on over a quiet backend, and of what legs bear, over targets in memory.

use crate::{
    bearing_stays, begun_bears, begun_is_well, packages_bear, packages_dial_on, packages_go_well,
    turns_bear, turns_go_well,
};
use gw_memory::FakeSession;
use std::test::Fail;
use test_target::TestWorld;

#[test]
fn the_laws_of_quiet_backends_hold_over_targets_in_memory(_: HostRuntime) -> Result<(), Fail> {
    turns_go_well::<TestWorld, FakeSession>();
    begun_is_well::<TestWorld, FakeSession>();
    packages_go_well::<TestWorld, FakeSession>();
    turns_bear::<TestWorld, FakeSession>();
    begun_bears::<TestWorld, FakeSession>();
    packages_bear::<TestWorld, FakeSession>();
    packages_dial_on::<TestWorld, FakeSession>();
    bearing_stays::<TestWorld, FakeSession>();
    Ok(())
}
