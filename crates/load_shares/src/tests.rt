//! The laws of loads, over targets in memory.

use crate::{
    loads_are_answered, loads_are_answered_plainly, loads_are_orderly, loads_need_so,
    requests_are_received,
};
use std::test::Fail;
use test_target::TestWorld;

#[test]
fn the_laws_of_loads_hold_over_targets_in_memory(_: HostRuntime) -> Result<(), Fail> {
    requests_are_received();
    loads_are_orderly::<TestWorld>();
    loads_are_answered::<TestWorld>();
    loads_are_answered_plainly::<TestWorld>();
    loads_need_so::<TestWorld>();
    Ok(())
}
