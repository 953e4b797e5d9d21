//! Connections whose sources have nothing, and whose sinks no room, at each place.

use crate::octets::{
    GET, GET_REPLY, INIT, INIT_REPLY, LONG_INIT, NO_SET_REPLY, PRESENT, PRESENT_REPLY, SEARCH,
    SEARCH_REPLY,
};
use crate::plays::{Pauses, poll_out};
use event_front::ConnTask;
use event_memory::{Look, MemoryEdgeSink, MemoryEdgeSource};
use gw_memory::{FakeBackend, FakeSession, MemoryClock};
use gw_outside::{Backend, Events};
use pool_core::Pool;
use route_config::{Route, RouteParts};
use std::alloc::Global;
use std::test::Fail;
use test_target::TestWorld;
use test_wire::{TestLink, TestWire};
use z_client::{ZBackend, ZSession};
use z_types::{End, List, Mark, Memory, Sitting, Text};

/// A session: its units, or its head; the reply to each; how it ends where all is well; and how often the
/// client is awaited behind its last octet.
#[derive(Clone, Copy)]
struct Session<'a> {
    sent: &'a [&'a [u8]],
    replies: &'a [&'a [u8]],
    end: End,
    awaited: u32,
}

/// What is to come of a connection: what it is written, how many requests are answered under the mark
/// Plain, and how it ends.
#[derive(Clone, Copy)]
struct Wanted<'a> {
    written: &'a [u8],
    marks: usize,
    end: End,
}

/// An Init, a Search and a Present; and a GET, behind whose reply the connection ends.
const SESSIONS: [Session; 2] = [
    Session {
        sent: &[INIT, SEARCH, PRESENT],
        replies: &[INIT_REPLY, SEARCH_REPLY, PRESENT_REPLY],
        end: End::Finished,
        awaited: 1,
    },
    Session {
        sent: &[GET],
        replies: &[GET_REPLY],
        end: End::Closed,
        awaited: 0,
    },
];

/// These parts behind one another.
fn text_of(alloc: Global, parts: &[&[u8]]) -> Result<Text, Memory> {
    let mut text = Text::new(alloc);
    for part in parts {
        text.append(part)?;
    }
    Ok(text)
}

/// How many of these parts end at a place or before it.
fn whole_before(parts: &[&[u8]], place: usize) -> usize {
    let mut left = place;
    for (number, part) in parts.iter().enumerate() {
        if left < part.len() {
            return number;
        }
        left -= part.len();
    }
    parts.len()
}

/// Looks that find an octet each up to a place, and then this once.
fn looks_until(alloc: Global, place: usize, look: Look) -> Result<List<Look>, Memory> {
    let mut looks = List::new(alloc);
    for _ in 0..place {
        looks.push(Look::Some(1))?;
    }
    looks.push(look)?;
    Ok(looks)
}

/// Looks that find nothing and then an octet, again and again, so often.
fn looks_in_vain(alloc: Global, often: usize) -> Result<List<Look>, Memory> {
    let mut looks = List::new(alloc);
    for _ in 0..often {
        looks.push(Look::NotReady)?;
        looks.push(Look::Some(1))?;
    }
    Ok(looks)
}

/// Whether these are so many marks, each Plain.
fn are_plain(marks: &List<Mark>, count: usize) -> bool {
    marks.len() == count && marks.as_slice().iter().all(|mark| *mark == Mark::Plain)
}

/// How often a connection was pending that is sent this, with looks of its source and its sink; or nothing,
/// where something else came of it than is wanted.
fn pauses_of<S: Sitting<TestWorld>, B: Backend<TestWorld, Session = S>>(
    alloc: Global,
    sent: Text,
    looks: (List<Look>, List<Look>),
    wanted: &Wanted,
    route: &Route,
    backend: &mut B,
) -> Result<Option<Pauses>, Memory> {
    let mut pool: Pool<TestWorld, S> = Pool::new(alloc, route)?;
    let mut clock = MemoryClock::new(List::new(alloc));
    let mut pauses = Pauses::new(0, 0, 0);
    let source = MemoryEdgeSource::new(sent, looks.0);
    let mut task = ConnTask::new(alloc, source, MemoryEdgeSink::new(alloc, looks.1));
    if !poll_out(
        alloc,
        route,
        &mut task,
        backend,
        &mut pool,
        &mut clock,
        &mut pauses,
    ) {
        return Ok(None);
    }
    let (served, _, sink) = task.into_parts(&mut pool);
    let is_so = served.end == wanted.end
        && are_plain(&served.marks, wanted.marks)
        && sink.received() == wanted.written;
    Ok(is_so.then_some(pauses))
}

/// The same, over targets in memory.
fn pauses_over_memory(
    alloc: Global,
    sent: &[&[u8]],
    looks: (List<Look>, List<Look>),
    wanted: &Wanted,
) -> Result<Option<Pauses>, Memory> {
    let sent = text_of(alloc, sent)?;
    let route = Route::smallest(alloc)?;
    let mut backend = FakeBackend::new(TestWorld, List::new(alloc));
    pauses_of::<FakeSession, _>(alloc, sent, looks, wanted, &route, &mut backend)
}

/// Polls that awaited the client so often.
fn awaited(often: u32) -> Option<Pauses> {
    Some(Pauses::new(often, 0, 0))
}

/// Whether a session is answered whole, and pending once, where one look at its source finds nothing behind
/// so many octets; or all that came whole, where that look is a fault.
fn reads_so(alloc: Global, session: &Session, place: usize, look: Look) -> Result<bool, Memory> {
    let len = text_of(alloc, session.sent)?.len();
    let ends = look == Look::Fault && (place < len || 0 < session.awaited);
    let count = if ends {
        whole_before(session.sent, place)
    } else {
        session.replies.len()
    };
    let written = text_of(alloc, &session.replies[..count.min(session.replies.len())])?;
    let wanted = Wanted {
        written: written.as_slice(),
        marks: count,
        end: if ends { End::ReadFault } else { session.end },
    };
    let often = if look == Look::Fault {
        0
    } else if place < len {
        1
    } else {
        session.awaited
    };
    let looks = (looks_until(alloc, place, look)?, List::new(alloc));
    Ok(pauses_over_memory(alloc, session.sent, looks, &wanted)? == awaited(often))
}

/// The same, of its sink: where a write fails, what was written before has been received.
fn writes_so(alloc: Global, session: &Session, place: usize, look: Look) -> Result<bool, Memory> {
    let all = text_of(alloc, session.replies)?;
    let wanted = if look == Look::Fault {
        Wanted {
            written: &all.as_slice()[..place.min(all.len())],
            marks: whole_before(session.replies, place).saturating_add(1),
            end: End::WriteFault,
        }
    } else {
        Wanted {
            written: all.as_slice(),
            marks: session.replies.len(),
            end: session.end,
        }
    };
    let often = if look == Look::Fault { 0 } else { 1 };
    let looks = (List::new(alloc), looks_until(alloc, place, look)?);
    Ok(pauses_over_memory(alloc, session.sent, looks, &wanted)? == awaited(often))
}

/// Whether a session is so at each place of what it sends and of what it is written, for such a look.
fn is_so_at_each_place(alloc: Global, session: &Session, look: Look) -> Result<bool, Memory> {
    for place in 0..text_of(alloc, session.sent)?.len() {
        if !reads_so(alloc, session, place, look)? {
            return Ok(false);
        }
    }
    for place in 0..text_of(alloc, session.replies)?.len() {
        if !writes_so(alloc, session, place, look)? {
            return Ok(false);
        }
    }
    reads_so(alloc, session, text_of(alloc, session.sent)?.len(), look)
}

/// Whether a session is answered whole whose octets come one at a time, and are taken so, each behind a look
/// in vain.
fn trickles(alloc: Global, session: &Session) -> Result<bool, Memory> {
    let written = text_of(alloc, session.replies)?;
    let wanted = Wanted {
        written: written.as_slice(),
        marks: session.replies.len(),
        end: session.end,
    };
    let often = text_of(alloc, session.sent)?.len();
    let looks = (
        looks_in_vain(alloc, often)?,
        looks_in_vain(alloc, written.len())?,
    );
    let waits = u32::try_from(often.saturating_add(written.len())).unwrap_or(0);
    Ok(pauses_over_memory(alloc, session.sent, looks, &wanted)? == awaited(waits))
}

/// How often polls were pending of an Init, a Search and a Present over links with a target whose replies
/// come so many looks late.
fn pauses_over_links(alloc: Global, late: u32) -> Result<Option<Pauses>, Memory> {
    let sent = text_of(alloc, &[INIT, SEARCH, PRESENT])?;
    let written = text_of(alloc, &[INIT_REPLY, SEARCH_REPLY, PRESENT_REPLY])?;
    let wanted = Wanted {
        written: written.as_slice(),
        marks: 3,
        end: End::Finished,
    };
    let route = Route::smallest(alloc)?;
    let mut backend = ZBackend::new(alloc, TestWire::new(alloc));
    backend.slow(0, late)?;
    let looks = (List::new(alloc), List::new(alloc));
    pauses_of::<ZSession<TestWorld, TestLink>, _>(alloc, sent, looks, &wanted, &route, &mut backend)
}

/// How often polls were pending of a client that sends an Init and so many Presents at once, without a Search.
fn pauses_of_presents(alloc: Global, count: u32) -> Result<Option<Pauses>, Memory> {
    let (mut sent, mut written) = (Text::new(alloc), Text::new(alloc));
    sent.append(INIT)?;
    written.append(INIT_REPLY)?;
    for _ in 0..count {
        sent.append(PRESENT)?;
        written.append(NO_SET_REPLY)?;
    }
    let wanted = Wanted {
        written: written.as_slice(),
        marks: usize::try_from(count).unwrap_or(0).saturating_add(1),
        end: End::Finished,
    };
    let mut parts = RouteParts::smallest(alloc)?;
    parts.limits.units = count.saturating_add(1);
    if !parts.are_sound() {
        return Ok(None);
    }
    let route = Route::new(alloc, parts)?;
    let mut backend = FakeBackend::new(TestWorld, List::new(alloc));
    let looks = (List::new(alloc), List::new(alloc));
    pauses_of::<FakeSession, _>(alloc, sent, looks, &wanted, &route, &mut backend)
}

/// How often polls were pending of a client whose Init has an element of 100000 octets that is skipped.
fn pauses_of_a_long_init(alloc: Global) -> Result<Option<Pauses>, Memory> {
    let mut sent = text_of(alloc, &[LONG_INIT])?;
    for _ in 0..1000 {
        sent.append(&[0; 100])?;
    }
    let wanted = Wanted {
        written: INIT_REPLY,
        marks: 1,
        end: End::Finished,
    };
    let looks = (List::new(alloc), List::new(alloc));
    pauses_over_memory(alloc, &[sent.as_slice()], looks, &wanted)
}

#[test]
fn what_comes_late_or_fails_at_any_place_is_answered_as_far_as_it_came(
    rt: HostRuntime,
) -> Result<(), Fail> {
    for session in &SESSIONS {
        assert!(rt; is_so_at_each_place(rt.alloc(), session, Look::NotReady)?);
        assert!(rt; is_so_at_each_place(rt.alloc(), session, Look::Fault)?);
        assert!(rt; trickles(rt.alloc(), session)?);
    }
    Ok(())
}

#[test]
fn a_poll_stops_at_a_late_target_and_at_its_bounds(rt: HostRuntime) -> Result<(), Fail> {
    assert_eq!(rt;
        pauses_over_links(rt.alloc(), 5)?,
        Some(Pauses::new(0, 15, 0))
    );
    assert_eq!(rt;
        pauses_of_presents(rt.alloc(), 2000)?,
        Some(Pauses::new(0, 0, 2))
    );
    assert_eq!(rt;
        pauses_of_a_long_init(rt.alloc())?,
        Some(Pauses::new(0, 0, 1))
    );
    Ok(())
}
