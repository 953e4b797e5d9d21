//! The laws of legs that share, over targets in memory.

use crate::{
    begun_may_share, begun_shares, done_legs_leave_uses, packages_may_share, packages_share,
    quiet_packages_share, requests_share, rounds_share,
};
use gw_memory::FakeSession;
use std::test::Fail;
use test_target::TestWorld;

#[test]
fn the_laws_of_sharing_requests_hold_over_targets_in_memory(_: HostRuntime) -> Result<(), Fail> {
    begun_shares::<TestWorld, FakeSession>();
    done_legs_leave_uses::<TestWorld, FakeSession>();
    rounds_share::<TestWorld, FakeSession>();
    packages_share::<TestWorld, FakeSession>();
    quiet_packages_share::<TestWorld, FakeSession>();
    begun_may_share::<TestWorld, FakeSession>();
    packages_may_share::<TestWorld, FakeSession>();
    requests_share::<TestWorld, FakeSession>();
    Ok(())
}
