//! What is known of sockets, as time passes: no system is asked.

use crate::Readiness;
use crate::tokens::Registered;
use std::test::Fail;

/// A moment at which something begins, in milliseconds.
const BEGUN: u64 = 1000;

/// Whether a read, and a write, of the first place may find something, at so many milliseconds behind the beginning.
fn may(readiness: &Readiness, later: u64) -> (bool, bool) {
    readiness.tell_now(BEGUN.saturating_add(later));
    (readiness.may_read(0), readiness.may_write(0))
}

#[test]
fn clients_are_awaited_so_long_and_no_longer(rt: HostRuntime) -> Result<(), Fail> {
    let readiness = Readiness::new(rt.alloc(), 1)?;
    assert_eq!(rt; readiness.take_place(), Some(0));
    assert_eq!(rt; readiness.take_place(), None);
    assert_eq!(rt; may(&readiness, 0), (true, true));
    assert!(rt; !readiness.had_none(0) && !readiness.had_no_room(0));
    assert_eq!(rt; may(&readiness, 59_999), (false, false));
    assert_eq!(rt; may(&readiness, 60_000), (false, true));
    assert!(rt; readiness.had_no_room(0));
    assert_eq!(rt; may(&readiness, 899_999), (false, true));
    assert_eq!(rt; may(&readiness, 900_000), (true, true));
    assert!(rt; readiness.had_none(0));
    readiness.has_read(0);
    readiness.has_written(0);
    assert_eq!(rt; may(&readiness, 900_000), (false, false));
    readiness.tell(0, true, false);
    assert_eq!(rt; may(&readiness, 900_000), (true, false));
    Ok(())
}

/// Whether a look at the targets of a place may find something, at so many milliseconds behind the beginning.
fn is_woken(readiness: &Readiness, place: usize, later: u64) -> bool {
    readiness.tell_now(BEGUN.saturating_add(later));
    readiness.take_targets(place)
}

#[test]
fn a_connection_is_woken_by_its_own_targets_or_in_time(rt: HostRuntime) -> Result<(), Fail> {
    let readiness = Readiness::new(rt.alloc(), 2)?;
    readiness.tell_now(BEGUN);
    for place in [0, 1] {
        readiness.turn_to(place);
        readiness.target_had_none();
    }
    readiness.tell_target(1);
    assert!(rt; !is_woken(&readiness, 0, 0) && is_woken(&readiness, 1, 0));
    assert!(rt; !is_woken(&readiness, 0, 19));
    assert_eq!(rt; readiness.until_due(1000), 1);
    assert!(rt; is_woken(&readiness, 0, 20));
    assert_eq!(rt; readiness.until_due(1000), 1000);
    Ok(())
}

#[test]
fn each_token_is_of_what_has_it(rt: HostRuntime) -> Result<(), Fail> {
    for place in [0, 1, 999] {
        for registered in [
            Registered::Listener,
            Registered::Connection(place),
            Registered::Target(place),
        ] {
            assert_eq!(rt; Registered::of(registered.token()), registered);
        }
    }
    Ok(())
}
