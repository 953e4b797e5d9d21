//! A front waits between looks in vain, and opens no more connections than it may.

use crate::fronts::{clients_of, front_of, run_over};
use crate::octets::INIT;
use event_loop::Fronted;
use event_memory::{Look, MemoryEdgeAccept};
use std::alloc::Global;
use std::sync::atomic::AtomicU64;
use std::test::Fail;
use z_types::{List, Memory};

/// So many looks that find nothing.
fn not_ready(alloc: Global, often: u32) -> Result<List<Look>, Memory> {
    let mut looks = List::new(alloc);
    for _ in 0..often {
        looks.push(Look::NotReady)?;
    }
    Ok(looks)
}

/// How a front ends whose wait of this number fails, with how many were listed and handed back. Of each of its
/// clients, which send an Init, so many looks find nothing: at its octets, and at room for its reply.
fn ends_at(
    alloc: Global,
    clients: u32,
    stuck: (u32, u32),
    most: usize,
    failing_wait: u64,
) -> Result<(Fronted, u64, usize), Memory> {
    let (dials, searches) = (AtomicU64::new(0), AtomicU64::new(0));
    let (reads, writes) = (not_ready(alloc, stuck.0)?, not_ready(alloc, stuck.1)?);
    let all = clients_of(alloc, clients, INIT, reads.as_slice(), writes.as_slice())?;
    let accept = MemoryEdgeAccept::new(alloc, all, List::new(alloc))?;
    let mut front = front_of(alloc, accept, failing_wait, &dials, &searches)?;
    let fronted = run_over(alloc, most, &mut front)?;
    Ok((fronted, front.served.len(), front.accept.closed().len()))
}

#[test]
fn each_look_in_vain_is_behind_a_wait(rt: HostRuntime) -> Result<(), Fail> {
    for stuck in [(10, 0), (0, 10), (4, 6)] {
        assert_eq!(rt;
            ends_at(rt.alloc(), 1, stuck, 1, 10)?,
            (Fronted::PollFailed, 0, 1)
        );
        assert_eq!(rt;
            ends_at(rt.alloc(), 1, stuck, 1, 11)?,
            (Fronted::Ended, 1, 1)
        );
    }
    Ok(())
}

#[test]
fn no_more_connections_are_open_than_may_be(rt: HostRuntime) -> Result<(), Fail> {
    for most in [1, 2, 5] {
        let closed = most.min(3);
        assert_eq!(rt;
            ends_at(rt.alloc(), 3, (5, 5), most, 1)?,
            (Fronted::PollFailed, 0, closed)
        );
        assert_eq!(rt;
            ends_at(rt.alloc(), 3, (5, 5), most, 0)?,
            (Fronted::Ended, 3, 3)
        );
    }
    Ok(())
}
