//! A session in two pieces, cut between any two of its octets.

use crate::plays::Step::{Ends, FeedCut, Wrote};
use crate::pools::{SMALLEST, other_way};
use crate::units::{ACCEPTED, CLOSE, FOUND_3, INIT, PRESENT, SEARCH, SHOWN_4};
use std::test::Fail;
use z_types::End::Closed;
use z_types::Mark::Plain;

/// A session of 116 octets.
const SESSION: &[&str] = &[INIT, SEARCH, PRESENT, CLOSE];

#[test]
fn a_session_is_answered_alike_wherever_it_is_cut(rt: HostRuntime) -> Result<(), Fail> {
    for at in 0..117 {
        let steps = [
            FeedCut(SESSION, at),
            Wrote(&[ACCEPTED, FOUND_3, SHOWN_4, CLOSE]),
            Ends(&[Plain, Plain, Plain, Plain], Closed, &[[1, 1, 0, 0]]),
        ];
        assert_eq!(rt; other_way(rt.alloc(), SMALLEST, &steps)?, None, "{at}");
    }
    Ok(())
}
