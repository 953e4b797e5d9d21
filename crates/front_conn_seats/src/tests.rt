//! The laws of what connections hold and give back, over targets in memory.

use crate::{
    begun_holds_none, calls_are_ways, connections_give_back, goes_parted, legs_give_back,
    packages_give_back, packages_keep_seats, runs_alone_give_back, runs_give_back,
    steps_keep_seats, steps_leave_others, turns_keep_seats, ways_go_on,
};
use gw_memory::FakeSession;
use std::test::Fail;
use test_target::TestWorld;

#[test]
fn the_laws_of_seats_hold_over_targets_in_memory(_: HostRuntime) -> Result<(), Fail> {
    turns_keep_seats::<TestWorld, FakeSession>();
    legs_give_back::<TestWorld, FakeSession>();
    begun_holds_none::<TestWorld, FakeSession>();
    packages_keep_seats::<TestWorld, FakeSession>();
    packages_give_back::<TestWorld, FakeSession>();
    steps_keep_seats::<TestWorld, FakeSession>();
    steps_leave_others::<TestWorld, FakeSession>();
    connections_give_back::<TestWorld, FakeSession>();
    goes_parted::<TestWorld, FakeSession>();
    runs_give_back::<TestWorld, FakeSession>();
    runs_alone_give_back::<TestWorld, FakeSession>();
    calls_are_ways::<TestWorld, FakeSession>();
    ways_go_on::<TestWorld, FakeSession>();
    Ok(())
}
