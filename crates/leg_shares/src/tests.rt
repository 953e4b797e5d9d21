//! The laws of a leg that shares, over targets in memory.

use crate::{
    again_needs_none, fair_class_is_one, last_uses_decide, legs_share, others_share, stays_once,
    turns_share,
};
use gw_memory::FakeSession;
use std::test::Fail;
use test_target::TestWorld;

#[test]
fn the_laws_of_sharing_legs_hold_over_targets_in_memory(_: HostRuntime) -> Result<(), Fail> {
    fair_class_is_one::<TestWorld>();
    stays_once::<FakeSession>();
    last_uses_decide::<TestWorld, FakeSession>();
    again_needs_none::<TestWorld>();
    turns_share::<TestWorld, FakeSession>();
    others_share::<TestWorld, FakeSession>();
    legs_share::<TestWorld, FakeSession>();
    Ok(())
}
