//! Fronts whose sources, sinks, acceptor or poller fail.

use crate::fronts::{clients_of, front_of, list_of, run_over, text_of};
use crate::octets::{BAD_REPLY, INIT, INIT_REPLY, SEARCH, SEARCH_REPLY};
use event_loop::Fronted;
use event_memory::{Arrival, Look, MemoryEdgeAccept};
use std::alloc::Global;
use std::sync::atomic::AtomicU64;
use std::test::Fail;
use z_types::{End, List, Memory};

/// A connection: what is sent, its looks both ways, what is written and how it ends.
#[derive(Clone, Copy)]
struct Case<'a> {
    sent: &'a [&'a [u8]],
    reads: &'a [Look],
    writes: &'a [Look],
    written: &'a [&'a [u8]],
    end: End,
}

const CASES: [Case; 6] = [
    Case {
        sent: &[],
        reads: &[],
        writes: &[],
        written: &[],
        end: End::Finished,
    },
    Case {
        sent: &[INIT, SEARCH],
        reads: &[Look::Some(30), Look::NotReady, Look::Fault],
        writes: &[],
        written: &[INIT_REPLY],
        end: End::ReadFault,
    },
    Case {
        sent: &[INIT, SEARCH],
        reads: &[],
        writes: &[Look::Some(43), Look::Fault],
        written: &[INIT_REPLY],
        end: End::WriteFault,
    },
    Case {
        sent: &[INIT, b"\xb6\xff"],
        reads: &[],
        writes: &[Look::NotReady, Look::NotReady],
        written: &[INIT_REPLY, BAD_REPLY],
        end: End::Malformed(21),
    },
    Case {
        sent: &[INIT, b"\xb6\x3e\x8d"],
        reads: &[Look::NotReady],
        writes: &[Look::NotReady],
        written: &[INIT_REPLY],
        end: End::Cut(3),
    },
    Case {
        sent: &[INIT, SEARCH],
        reads: &[Look::NotReady],
        writes: &[
            Look::Some(50),
            Look::NotReady,
            Look::NotReady,
            Look::NotReady,
        ],
        written: &[INIT_REPLY, SEARCH_REPLY],
        end: End::Finished,
    },
];

/// Whether a case is served so.
fn is_so(alloc: Global, case: &Case) -> Result<bool, Memory> {
    let (dials, searches) = (AtomicU64::new(0), AtomicU64::new(0));
    let sent = text_of(alloc, case.sent)?;
    let clients = clients_of(alloc, 1, sent.as_slice(), case.reads, case.writes)?;
    let accept = MemoryEdgeAccept::new(alloc, clients, List::new(alloc))?;
    let mut front = front_of(alloc, accept, 0, &dials, &searches)?;
    let fronted = run_over(alloc, 4, &mut front)?;
    let written = text_of(alloc, case.written)?;
    let mut so = fronted == Fronted::Ended && front.served.len() == 1;
    for served in front.served.kept().unwrap_or(&[]) {
        so = so && served.end == case.end;
    }
    for (_, output) in front.accept.closed() {
        so = so && output.received() == written.as_slice();
    }
    Ok(so)
}

#[test]
fn a_connection_ends_as_its_octets_and_its_faults_say(rt: HostRuntime) -> Result<(), Fail> {
    for case in &CASES {
        assert!(rt; is_so(rt.alloc(), case)?, "{:?}", case.end);
    }
    Ok(())
}

/// How a front ends whose accept or wait fails, with one client who never ends; and how many connections were
/// listed and handed back.
fn ends_so(
    alloc: Global,
    arrivals: &[Arrival],
    failing_wait: u64,
) -> Result<(Fronted, u64, usize), Memory> {
    let (dials, searches) = (AtomicU64::new(0), AtomicU64::new(0));
    let reads = [
        Look::Some(100),
        Look::NotReady,
        Look::NotReady,
        Look::NotReady,
    ];
    let clients = clients_of(alloc, 1, INIT, &reads, &[])?;
    let accept = MemoryEdgeAccept::new(alloc, clients, list_of(alloc, arrivals)?)?;
    let mut front = front_of(alloc, accept, failing_wait, &dials, &searches)?;
    let fronted = run_over(alloc, 4, &mut front)?;
    Ok((fronted, front.served.len(), front.accept.closed().len()))
}

#[test]
fn a_front_ends_at_a_fault(rt: HostRuntime) -> Result<(), Fail> {
    let failed = [Arrival::Next, Arrival::NotReady, Arrival::Fault];
    assert_eq!(rt;
        ends_so(rt.alloc(), &failed, 0)?,
        (Fronted::AcceptFailed, 1, 1)
    );
    assert_eq!(rt; ends_so(rt.alloc(), &[], 2)?, (Fronted::PollFailed, 0, 1));
    Ok(())
}
