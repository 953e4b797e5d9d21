//! The laws of connections, over targets in memory.

use gw_memory::FakeSession;
use replay::front_conn::{
    ends_answered, stands_at_start, stands_when_ended, stands_when_fed, stands_when_written,
    stays_of_route,
};
use std::test::Fail;
use test_target::TestWorld;

#[test]
fn the_laws_of_connections_hold_over_targets_in_memory(_: HostRuntime) -> Result<(), Fail> {
    stands_at_start::<TestWorld, FakeSession>();
    stands_when_fed::<TestWorld, FakeSession>();
    stands_when_ended::<TestWorld, FakeSession>();
    stands_when_written::<TestWorld, FakeSession>();
    stays_of_route::<TestWorld, FakeSession>();
    ends_answered::<TestWorld, FakeSession>();
    Ok(())
}
