//! Links with test targets, and with a target on loopback that the test plays: steps over the links of a wire.

use super::listening;
use crate::{EdgeLink, EdgeWire, Hosts, Totals};
use gw_outside::{Dialled, Looked, Sent, Wire};
use log::Log;
use log::sink::{Discard, Lines, Memory};
use std::alloc::{AllocError, Global};
use std::io::{Read, Result, Write};
use std::net::{Net, SocketAddr, TcpListener, TcpStream};
use std::test::Fail;
use std::time;
use std::time::{Duration, Instant};
use z_types::{Address, Text};

/// An Init.
const INIT: &[u8] =
    b"\xb4\x13\x83\x02\x05\xe0\x84\x03\x01\xff\xfe\x85\x03\x10\x00\x00\x86\x03\x10\x00\x00";

/// A Search, as far as a wire looks at it.
const SEARCH: &[u8] = b"\xb6\x00";

/// A step over a link.
#[derive(Clone, Copy, Debug)]
enum Step {
    /// A unit is sent.
    Sends(&'static [u8]),
    /// A unit cannot be sent.
    SendsNothing,
    /// A look finds nothing.
    Waits,
    /// A look finds octets.
    Finds,
    /// A look fails.
    Fails,
    /// These octets stand in front of what arrived.
    Begins(&'static [u8]),
    /// These octets arrived, and no others.
    Holds(&'static [u8]),
    /// So many octets are consumed at most.
    Takes(usize),
    /// The target reads this.
    Reads(&'static [u8]),
    /// The target writes this.
    Writes(&'static [u8]),
    /// The target closes the link.
    Closes,
}

/// A link, and the target's end where the test plays it.
#[derive(Drop)]
struct Ends {
    target: Option<TcpStream>,
    link: EdgeLink,
}

/// The link with a test target, and two with the target on loopback.
const TEST: usize = 0;

const HOST: usize = 1;

const OTHER: usize = 2;

/// Steps over the links of a new wire, each at its link, and how often they are made; what the wire counts of
/// it, faults and looks in vain; and how many milliseconds it lasts, at least and at most.
struct Case {
    steps: &'static [(usize, Step)],
    times: u32,
    faults: u64,
    waits: u64,
    lasts: (u64, u64),
}

/// No time that matters.
const SOON: (u64, u64) = (0, 5000);

/// A test target that answers; a target at a host that does; looks at one that is silent, each of which waits a
/// while and no longer; looks at two, which wait for both at once (a wait for each that finds nothing would take
/// 600 milliseconds); a target that closes; and requests before which octets stand unread, at the link or at its
/// socket, or whose target has closed.
const CASES: [Case; 8] = [
    Case {
        steps: &[
            (TEST, Step::Waits),
            (TEST, Step::Sends(INIT)),
            (TEST, Step::Finds),
            (TEST, Step::Begins(b"\xb5")),
            (TEST, Step::Takes(usize::MAX)),
            (TEST, Step::Holds(b"")),
        ],
        times: 1,
        faults: 0,
        waits: 1,
        lasts: SOON,
    },
    Case {
        steps: &[
            (HOST, Step::Waits),
            (HOST, Step::Sends(INIT)),
            (HOST, Step::Reads(INIT)),
            (HOST, Step::Writes(b"one")),
            (HOST, Step::Finds),
            (HOST, Step::Writes(b"two")),
            (HOST, Step::Finds),
            (HOST, Step::Holds(b"onetwo")),
            (HOST, Step::Takes(4)),
            (HOST, Step::Holds(b"wo")),
        ],
        times: 1,
        faults: 0,
        waits: 1,
        lasts: SOON,
    },
    Case {
        steps: &[(HOST, Step::Waits)],
        times: 10,
        faults: 0,
        waits: 10,
        lasts: (190, 900),
    },
    Case {
        steps: &[
            (HOST, Step::Waits),
            (OTHER, Step::Waits),
            (OTHER, Step::Writes(b"one")),
            (HOST, Step::Waits),
            (OTHER, Step::Finds),
        ],
        times: 10,
        faults: 0,
        waits: 30,
        lasts: (0, 400),
    },
    Case {
        steps: &[(HOST, Step::Closes), (HOST, Step::Fails)],
        times: 1,
        faults: 1,
        waits: 0,
        lasts: SOON,
    },
    Case {
        steps: &[
            (HOST, Step::Sends(SEARCH)),
            (HOST, Step::Writes(b"one")),
            (HOST, Step::Finds),
            (HOST, Step::SendsNothing),
        ],
        times: 1,
        faults: 1,
        waits: 0,
        lasts: SOON,
    },
    Case {
        steps: &[(HOST, Step::Writes(b"one")), (HOST, Step::SendsNothing)],
        times: 1,
        faults: 1,
        waits: 0,
        lasts: SOON,
    },
    Case {
        steps: &[(HOST, Step::Closes), (HOST, Step::SendsNothing)],
        times: 1,
        faults: 1,
        waits: 0,
        lasts: SOON,
    },
];

/// Whether a step goes as it says.
fn goes<R: Net<Stream = TcpStream> + time::Clock, L: Log>(
    step: Step,
    alloc: Global,
    wire: &mut EdgeWire<'_, R, L>,
    ends: &mut Ends,
) -> bool {
    match step {
        Step::Sends(unit) => wire.send(alloc, &mut ends.link, unit) == Sent::Sent,
        Step::SendsNothing => wire.send(alloc, &mut ends.link, SEARCH) == Sent::Failed,
        Step::Waits => wire.look(alloc, &mut ends.link) == Looked::NotYet,
        Step::Finds => wire.look(alloc, &mut ends.link) == Looked::Arrived,
        Step::Fails => wire.look(alloc, &mut ends.link) == Looked::Failed,
        Step::Begins(octets) => wire.arrived(&ends.link).starts_with(octets),
        Step::Holds(octets) => wire.arrived(&ends.link) == octets,
        Step::Takes(most) => takes(wire, &mut ends.link, most),
        Step::Reads(octets) => reads(&mut ends.target, octets),
        Step::Writes(octets) => writes(&mut ends.target, octets),
        Step::Closes => ends.target.take().is_some(),
    }
}

/// Consumes so many octets of a link, or all.
fn takes<R: Net<Stream = TcpStream> + time::Clock, L: Log>(
    wire: &mut EdgeWire<'_, R, L>,
    link: &mut EdgeLink,
    most: usize,
) -> bool {
    let count = wire.arrived(link).len().min(most);
    wire.consume(link, count);
    true
}

/// Whether a target reads these octets.
fn reads(target: &mut Option<TcpStream>, octets: &[u8]) -> bool {
    match target {
        Some(stream) => {
            let mut unit = [0u8; 40];
            let count = octets.len().min(40);
            stream.read_exact(&mut unit[..count]).is_ok() && &unit[..count] == octets
        }
        None => false,
    }
}

/// Whether a target writes these octets.
fn writes(target: &mut Option<TcpStream>, octets: &[u8]) -> bool {
    match target {
        Some(stream) => stream.write_all(octets).is_ok(),
        None => false,
    }
}

/// Whether a case's steps, made once, go as they say.
fn go<R: Net<Stream = TcpStream> + time::Clock, L: Log>(
    steps: &[(usize, Step)],
    alloc: Global,
    wire: &mut EdgeWire<'_, R, L>,
    all: &mut [Ends; 3],
) -> bool {
    let mut well = true;
    for (place, step) in steps {
        well = well && *place < 3 && goes(*step, alloc, wire, &mut all[*place]);
    }
    well
}

/// The link of a dial, if it gave one.
fn dialled<R: Net<Stream = TcpStream> + time::Clock, L: Log>(
    wire: &mut EdgeWire<'_, R, L>,
    alloc: Global,
    address: &Address,
) -> Option<EdgeLink> {
    match wire.dial(alloc, address) {
        Dialled::Link(link) => Some(link),
        Dialled::Failed => None,
        Dialled::Memory => None,
    }
}

/// A link with the target at a listener.
fn linked<R: Net<Stream = TcpStream> + time::Clock, L: Log>(
    wire: &mut EdgeWire<'_, R, L>,
    alloc: Global,
    listener: &TcpListener,
    address: &Address,
) -> Option<Ends> {
    let link = dialled(wire, alloc, address)?;
    let (stream, _) = listener.accept().ok()?;
    Some(Ends {
        target: Some(stream),
        link,
    })
}

/// The three links of a case.
fn all_linked<R: Net<Stream = TcpStream> + time::Clock, L: Log>(
    wire: &mut EdgeWire<'_, R, L>,
    alloc: Global,
    listener: &TcpListener,
    address: &Address,
) -> Option<[Ends; 3]> {
    let link = dialled(wire, alloc, &Address::Test(3))?;
    let host = linked(wire, alloc, listener, address)?;
    let other = linked(wire, alloc, listener, address)?;
    Some([Ends { target: None, link }, host, other])
}

/// Whether a wire's three links go as a case says.
fn all_go<R: Net<Stream = TcpStream> + time::Clock, L: Log>(
    runtime: &R,
    alloc: Global,
    wire: &mut EdgeWire<'_, R, L>,
    all: &mut [Ends; 3],
    case: &Case,
) -> Result<bool> {
    let begun = Instant::now(runtime)?;
    let mut well = true;
    for _ in 0..case.times {
        well = well && go(case.steps, alloc, wire, all);
    }
    let lasted = begun.elapsed(runtime)?;
    let (least, most) = case.lasts;
    let tally = wire.tally();
    Ok(
        well && Duration::from_millis(least) <= lasted
            && lasted < Duration::from_millis(most)
            && (tally.dials, tally.faults, tally.waits) == (3, case.faults, case.waits),
    )
}

/// Whether a new wire to the target at a listener goes as a case says.
fn is_played<R: Net<Stream = TcpStream> + time::Clock, L: Log>(
    runtime: &R,
    alloc: Global,
    mut wire: EdgeWire<'_, R, L>,
    listener: &TcpListener,
    address: &Address,
    case: &Case,
) -> bool {
    match all_linked(&mut wire, alloc, listener, address) {
        Some(mut all) => matches!(all_go(runtime, alloc, &mut wire, &mut all, case), Ok(true)),
        None => false,
    }
}

/// The address of a host's target.
fn at(alloc: Global, host: &[u8], port: u16) -> std::result::Result<Address, z_types::Memory> {
    Ok(Address::Tcp(Text::copy_of(alloc, host)?, port))
}

/// Totals that know a target on loopback.
fn knowing(alloc: Global, port: u16) -> std::result::Result<Totals, z_types::Memory> {
    let mut totals = Totals::new(alloc);
    let name = Text::copy_of(alloc, b"here")?;
    totals.add_target(name, Text::copy_of(alloc, b"localhost")?, port)?;
    Ok(totals)
}

/// What is logged where all cases are played, with the totals behind it, or nothing where one does not go as it
/// says.
fn logged<R: Net<Listener = TcpListener, Stream = TcpStream> + time::Clock>(
    runtime: &R,
    alloc: Global,
) -> std::result::Result<Option<Lines>, Fail> {
    let (listener, address) = listening(runtime)?;
    let target = at(alloc, b"localhost", address.port())?;
    let totals = knowing(alloc, address.port())?;
    let log = Memory::new(alloc);
    let mut well = true;
    for case in &CASES {
        let wire = EdgeWire::new(alloc, runtime, &log, &totals);
        well = well && is_played(runtime, alloc, wire, &listener, &target, case);
    }
    totals.tell(&log);
    Ok(if well { Some(log.into_lines()) } else { None })
}

#[test]
fn links_go_as_their_steps_say(rt: HostRuntime) -> std::result::Result<(), Fail> {
    let lines = logged(&rt, rt.alloc())?.ok_or("a case does not go")?;
    let [first, .., last] = lines.as_slice() else {
        return Err("not two lines".into());
    };
    assert!(rt; first.as_str().contains("target 127.0.0.1:"));
    assert!(rt; first.as_str().contains(" failed: "));
    let told = "totals of target here: 16 dials, 1 searches, 4 faults";
    assert!(rt; last.as_str().ends_with(told));
    Ok(())
}

/// A port of loopback at which nothing listens.
fn closed_port<R: Net<Listener = TcpListener, Stream = TcpStream>>(runtime: &R) -> Result<u16> {
    let (_listener, address) = listening(runtime)?;
    Ok(address.port())
}

/// Whether a host cannot be dialled at a port.
fn is_undialled<R: Net<Stream = TcpStream> + time::Clock, L: Log>(
    wire: &mut EdgeWire<'_, R, L>,
    alloc: Global,
    host: &[u8],
    port: u16,
) -> bool {
    match at(alloc, host, port) {
        Ok(address) => dialled(wire, alloc, &address).is_none(),
        Err(_) => false,
    }
}

/// Names that are no host's, or at which nothing listens.
const HOSTS: [&[u8]; 4] = [b"127.0.0.1", b"no.such.host.invalid", b"\xff\xfe", b""];

/// Whether none of the hosts can be dialled at a port, which is a fault each.
fn are_undialled<R: Net<Stream = TcpStream> + time::Clock, L: Log>(
    runtime: &R,
    alloc: Global,
    log: &L,
    totals: &Totals,
    port: u16,
) -> bool {
    let mut wire = EdgeWire::new(alloc, runtime, log, totals);
    let mut none = true;
    for host in HOSTS {
        none = none && is_undialled(&mut wire, alloc, host, port);
    }
    let tally = wire.tally();
    none && (tally.dials, tally.faults) == (0, 4)
}

#[test]
fn a_target_that_cannot_be_dialled_is_a_fault(rt: HostRuntime) -> std::result::Result<(), Fail> {
    let port = closed_port(&rt)?;
    let log = Memory::new(rt.alloc());
    let totals = Totals::new(rt.alloc());
    assert!(rt; are_undialled(&rt, rt.alloc(), &log, &totals, port));
    assert!(rt; log.into_lines().len() == 4);
    Ok(())
}

/// Connects until a listener that accepts none has no room for more.
fn fill<R: Net<Stream = TcpStream>>(
    runtime: &R,
    alloc: Global,
    address: SocketAddr,
) -> std::result::Result<Vec<TcpStream>, AllocError> {
    let mut waiting = Vec::new(alloc);
    for _ in 0..1000 {
        match TcpStream::connect_timeout(runtime, &address, Duration::from_millis(200)) {
            Ok(stream) => waiting.push(stream)?,
            Err(_) => break,
        }
    }
    Ok(waiting)
}

/// How long a dial takes in vain at a port of this machine.
fn time_in_vain<R: Net<Stream = TcpStream> + time::Clock>(
    runtime: &R,
    alloc: Global,
    port: u16,
) -> Result<Option<Duration>> {
    let totals = Totals::new(alloc);
    let mut wire = EdgeWire::new(alloc, runtime, &Discard, &totals);
    let begun = Instant::now(runtime)?;
    let none = is_undialled(&mut wire, alloc, b"127.0.0.1", port);
    let waited = begun.elapsed(runtime)?;
    Ok(if none { Some(waited) } else { None })
}

#[test]
fn a_target_that_does_not_answer_is_a_fault_in_time(
    rt: HostRuntime,
) -> std::result::Result<(), Fail> {
    let (_listener, address) = listening(&rt)?;
    let _waiting = fill(&rt, rt.alloc(), address)?;
    let waited = time_in_vain(&rt, rt.alloc(), address.port())?.ok_or("it was dialled")?;
    assert!(rt; Duration::from_millis(4900) < waited && waited < Duration::from_millis(6000));
    Ok(())
}

/// Of links no call of which waits: a target at a host that answers; many looks at one that is silent; a target that
/// closes; requests before which octets stand unread, or whose target has closed.
const PROMPT_CASES: [Case; 5] = [
    Case {
        steps: &[
            (HOST, Step::Waits),
            (HOST, Step::Sends(INIT)),
            (HOST, Step::Reads(INIT)),
            (HOST, Step::Writes(b"one")),
            (HOST, Step::Finds),
            (HOST, Step::Writes(b"two")),
            (HOST, Step::Finds),
            (HOST, Step::Holds(b"onetwo")),
            (HOST, Step::Takes(6)),
            (HOST, Step::Sends(SEARCH)),
            (HOST, Step::Reads(SEARCH)),
        ],
        times: 1,
        faults: 0,
        waits: 1,
        lasts: SOON,
    },
    Case {
        steps: &[(HOST, Step::Waits), (OTHER, Step::Waits)],
        times: 100,
        faults: 0,
        waits: 200,
        lasts: (0, 1900),
    },
    Case {
        steps: &[
            (HOST, Step::Sends(INIT)),
            (HOST, Step::Reads(INIT)),
            (HOST, Step::Closes),
            (HOST, Step::Fails),
        ],
        times: 1,
        faults: 1,
        waits: 0,
        lasts: SOON,
    },
    Case {
        steps: &[
            (HOST, Step::Sends(INIT)),
            (HOST, Step::Writes(b"one")),
            (HOST, Step::Finds),
            (HOST, Step::SendsNothing),
        ],
        times: 1,
        faults: 1,
        waits: 0,
        lasts: SOON,
    },
    Case {
        steps: &[
            (HOST, Step::Sends(INIT)),
            (HOST, Step::Reads(INIT)),
            (HOST, Step::Closes),
            (HOST, Step::SendsNothing),
        ],
        times: 1,
        faults: 1,
        waits: 0,
        lasts: SOON,
    },
];

/// A host, as all that are known.
fn only<R: Net>(runtime: &R, alloc: Global, host: &[u8], port: u16) -> Option<Hosts> {
    let host = Text::copy_of(alloc, host).ok()?;
    let mut hosts = Hosts::new(alloc);
    hosts.learn(runtime, &host, port).ok()?;
    Some(hosts)
}

/// Whether the cases of links no call of which waits go as they say, with the target at a listener.
fn prompt_cases_go<R: Net<Stream = TcpStream> + time::Clock>(
    runtime: &R,
    alloc: Global,
    listener: &TcpListener,
    port: u16,
) -> std::result::Result<bool, Fail> {
    let target = at(alloc, b"localhost", port)?;
    let totals = Totals::new(alloc);
    let mut well = true;
    for case in &PROMPT_CASES {
        let hosts = only(runtime, alloc, b"localhost", port).ok_or("it is not found")?;
        let wire = EdgeWire::prompt(alloc, runtime, &Discard, &totals, hosts);
        well = well && is_played(runtime, alloc, wire, listener, &target, case);
    }
    Ok(well)
}

#[test]
fn links_no_call_of_which_waits_go_as_their_steps_say(
    rt: HostRuntime,
) -> std::result::Result<(), Fail> {
    let (listener, address) = listening(&rt)?;
    assert!(rt; prompt_cases_go(&rt, rt.alloc(), &listener, address.port())?);
    Ok(())
}

/// How long a link whose connection is begun lasts until a look fails.
fn time_until_failed<R: Net<Stream = TcpStream> + time::Clock>(
    runtime: &R,
    alloc: Global,
    port: u16,
) -> std::result::Result<Duration, Fail> {
    let totals = Totals::new(alloc);
    let hosts = only(runtime, alloc, b"127.0.0.1", port).ok_or("it is not found")?;
    let mut wire = EdgeWire::prompt(alloc, runtime, &Discard, &totals, hosts);
    let begun = Instant::now(runtime)?;
    let link = dialled(&mut wire, alloc, &at(alloc, b"127.0.0.1", port)?);
    let mut link = link.ok_or("it is not begun")?;
    if wire.send(alloc, &mut link, INIT) != Sent::Sent {
        return Err("nothing is kept".into());
    }
    for _ in 0..u64::MAX {
        if wire.look(alloc, &mut link) != Looked::NotYet {
            break;
        }
    }
    Ok(begun.elapsed(runtime)?)
}

#[test]
fn a_connection_that_is_begun_and_not_taken_fails_a_look_in_time(
    rt: HostRuntime,
) -> std::result::Result<(), Fail> {
    let (_listener, address) = listening(&rt)?;
    let _waiting = fill(&rt, rt.alloc(), address)?;
    let waited = time_until_failed(&rt, rt.alloc(), address.port())?;
    assert!(rt; Duration::from_millis(4900) < waited && waited < Duration::from_millis(6000));
    Ok(())
}
